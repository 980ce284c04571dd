// The lines that are printed for a sheet that was run. The longest text, of 4,096 answers, 16 objects and 16 rings, fits the page. Each
// function says what room its text needs: the numbers differ, so no type holds them.
ghost use Rattle.std.specs.Prelude.{◌≡◌, [], ◌∷◌, ◌+◌, ◌<◌, ◌≤◌};
ghost use Rattle.arrayvec.specs.ArrayVec.{array_vec_len, Extends};
ghost use Rattle.rules.specs.Tables.{count_of};
ghost use Rattle.rules.specs.Bits.{taken};
ghost use Rattle.rules.specs.Book.{holder_at};
ghost use Rattle.text.specs.Text.{after_spaces, decimal};
ghost use Rattle.printed.specs.Lines as Printed;

use rules::{Board, Mode, Object, Ran, Ring};
use text::{Page, at_most, number, put, word};
use values::bits::{has, wide};
use values::mode::mode_if;

fn letter(mode: Mode) -> u8
    ensures { result ≡ Printed.letter mode }
{
    match mode {
        Mode::Exclusive => b'X',
        Mode::Shared => b'S',
    }
}

// A space, a process and the letter of its mode.
fn entry(out: &mut Page, p: u8, mode: Mode)
    requires { array_vec_len out.old + 6 ≤ 65536 }
    ensures text { Extends out.old (after_spaces (Printed.entry p mode ∷ [])) out.new }
    ensures room { array_vec_len out.new ≤ array_vec_len out.old + 6 }
{
    put(out, b' ');
    number(out, u64::from(p));
    put(out, letter(mode));
}

// A process among the holders, if it is there.
fn holder(out: &mut Page, o: &Object, p: u8)
    requires { (array_vec_len out.old + 6 ≤ 65536) × (p < 16) }
    ensures text { Extends out.old (after_spaces (Printed.entry_if p (holder_at o.now p))) out.new }
    ensures room { array_vec_len out.new ≤ array_vec_len out.old + 6 }
{
    if has(o.exclusive, p) {
        entry(out, p, Mode::Exclusive);
    } else if has(o.shared, p) {
        entry(out, p, Mode::Shared);
    }
}

// The holders by rising number: processes stand in two sets here, and in no row.
fn holders(out: &mut Page, o: &Object)
    requires { array_vec_len out.old + 96 ≤ 65536 }
    ensures text { Extends out.old (after_spaces (Printed.holder_entries o.now)) out.new }
    ensures room { array_vec_len out.new ≤ array_vec_len out.old + 96 }
{
    for p in 0..16 {
        holder(out, o, p);
    }
}

// The line from the front.
fn line(out: &mut Page, o: &Object)
    requires { array_vec_len out.old + 96 ≤ 65536 }
    ensures text { Extends out.old (after_spaces (Printed.line_entries o.now)) out.new }
    ensures room { array_vec_len out.new ≤ array_vec_len out.old + 96 }
{
    let n = at_most(16, wide(o.line_count));
    for (k, p) in o.line[..n].iter().enumerate() {
        entry(out, *p, mode_if(has(o.line_exclusive, k as u8)));
    }
}

// The object, its holders, a slash, its line. Each entry brings its space, so an empty side prints nothing.
fn object_line(out: &mut Page, i: usize, o: &Object)
    requires { (array_vec_len out.old + 200 ≤ 65536) × (i < 16) }
    ensures text { Extends out.old (Printed.object_line i o.now) out.new }
    ensures room { array_vec_len out.new ≤ array_vec_len out.old + 200 }
{
    put(out, b'o');
    number(out, i as u64);
    holders(out, o);
    word(out, b" /");
    line(out, o);
    put(out, b'\n');
}

fn object_lines(out: &mut Page, b: &Board)
    requires { array_vec_len out.old + 3200 ≤ 65536 }
    ensures text { Extends out.old (Printed.object_lines b.now) out.new }
    ensures room { array_vec_len out.new ≤ array_vec_len out.old + 3200 }
{
    let n = at_most(16, wide(b.object_count));
    for (i, o) in b.objects[..n].iter().enumerate() {
        object_line(out, i, o);
    }
}

// A space and a process of a ring.
fn member(out: &mut Page, p: u8)
    requires { array_vec_len out.old + 5 ≤ 65536 }
    ensures text { Extends out.old (after_spaces (decimal p ∷ [])) out.new }
    ensures room { array_vec_len out.new ≤ array_vec_len out.old + 5 }
{
    put(out, b' ');
    number(out, u64::from(p));
}

// The processes of a ring, starter first.
fn members(out: &mut Page, ring: &Ring)
    requires { array_vec_len out.old + 80 ≤ 65536 }
    ensures text { Extends out.old (after_spaces (Printed.ring_entries ring.now)) out.new }
    ensures room { array_vec_len out.new ≤ array_vec_len out.old + 80 }
{
    let n = at_most(16, wide(ring.count));
    for p in &ring.processes[..n] {
        member(out, *p);
    }
}

// A ring; an empty place has no line.
fn ring_line(out: &mut Page, ring: &Ring)
    requires { array_vec_len out.old + 85 ≤ 65536 }
    ensures text { Extends out.old (Printed.ring_line ring.now) out.new }
    ensures room { array_vec_len out.new ≤ array_vec_len out.old + 85 }
{
    if ring.count != 0 {
        word(out, b"ring");
        members(out, ring);
        put(out, b'\n');
    }
}

// The recorded rings by starter.
fn ring_lines(out: &mut Page, b: &Board)
    requires { array_vec_len out.old + 1360 ≤ 65536 }
    ensures text { Extends out.old (Printed.ring_lines b.now) out.new }
    ensures room { array_vec_len out.new ≤ array_vec_len out.old + 1360 }
{
    for ring in &b.rings[..16] {
        ring_line(out, ring);
    }
}

fn in_flight(occupied: u64) -> u64
    ensures { (result ≡ count_of 64 (taken occupied)) × (result ≤ 64) }
{
    u64::from(occupied.count_ones())
}

// The messages in flight and the tally.
fn last_line(out: &mut Page, b: &Board)
    requires { array_vec_len out.old + 25 ≤ 65536 }
    ensures text { Extends out.old (Printed.last_line b.now) out.new }
    ensures room { array_vec_len out.new ≤ 65536 }
{
    word(out, b"messages ");
    number(out, in_flight(b.occupied));
    word(out, b" rings ");
    number(out, sums::tally(*b) as u64);
    put(out, b'\n');
}

// The number of a command, from 1 on, and its answer.
fn answer_line(out: &mut Page, i: usize, answer: u8)
    requires { (array_vec_len out.old + 10 ≤ 65536) × (i < 4096) }
    ensures text { Extends out.old (Printed.command_line i answer) out.new }
    ensures room { array_vec_len out.new ≤ array_vec_len out.old + 10 }
{
    number(out, i as u64 + 1);
    put(out, b' ');
    number(out, u64::from(answer));
    put(out, b'\n');
}

// The room of the answers is lent whole; how many there are is said by what was run.
fn answer_lines(out: &mut Page, commands: usize, answers: &[u8; 4096])
    requires { array_vec_len out.old + 40960 ≤ 65536 }
    ensures text { Extends out.old (Printed.command_lines commands answers.now) out.new }
    ensures room { array_vec_len out.new ≤ array_vec_len out.old + 40960 }
{
    let n = at_most(4096, commands);
    for (i, answer) in answers[..n].iter().enumerate() {
        answer_line(out, i, *answer);
    }
}

// For a refused sheet the word and the number alone.
fn refused_line(out: &mut Page, code: u8)
    requires { array_vec_len out.old + 11 ≤ 65536 }
    ensures text { Extends out.old (Printed.refused_line code) out.new }
    ensures room { array_vec_len out.new ≤ 65536 }
{
    word(out, b"sheet ");
    number(out, u64::from(code));
    put(out, b'\n');
}

// For a refused sheet its number alone; else every answer, object and ring, and the counts. Nothing else is on the page. The room of the
// answers is lent whole; how many there are is said by what was run.
pub fn report(out: &mut Page, ran: &Ran, answers: &[u8; 4096])
    ensures { (out.new.items ≡ Printed.printed ran.now answers.now) × (array_vec_len out.new ≤ 65536) }
{
    out.clear();
    if ran.answer.is_done() {
        answer_lines(out, ran.commands, answers);
        object_lines(out, &ran.board);
        ring_lines(out, &ran.board);
        last_line(out, &ran.board);
    } else {
        refused_line(out, u8::from(ran.answer));
    }
}
