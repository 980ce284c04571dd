// A packed command, two bytes: its side, its answer, and what a request and a release do at home, by the kind's number. And whom a list
// names: its starter, and the one that it asks next.
// The two bytes come one by one, and in no record: they are locals of the engine's loop. That a list is ranged is asked of each call and
// stands in no type: it comes from a board, which may hold it out of range.
ghost use Rattle.std.specs.Prelude.{◌≡◌, ◌<◌, ◌+◌, ◌*◌, ◌/◌, ◌%◌, ltb};
ghost use Rattle.rules.specs.declared.Answer.TheVariants.{Done, NoMessage};
ghost use Rattle.rules.specs.Lists as Lists;
ghost use Rattle.rules.specs.Ranges.{ListRanged};
ghost use Rattle.rules.specs.Commands.{mode_of};
ghost use Rattle.rules.specs.Bits.{taken};
ghost use Rattle.rules.specs.Tables.{pick};
ghost use Rattle.engine.specs.Packed.{book_answer, top_load, home_answer, book_after, kind_sent};

use rules::{Answer, Entries, Kind, Mode, Process};

fn object_number(hi: u8, lo: u8) -> u8
    ensures { (result ≡ hi % 4 * 4 + lo / 64) × (result < 16) }
{
    (hi % 4) * 4 + lo / 64
}

fn mode_of(kind: u8) -> Mode
    ensures { result ≡ mode_of kind }
{
    match kind {
        0 => Mode::Shared,
        _ => Mode::Exclusive,
    }
}

// A request or a release, which the home of its process answers; else a delivery. The kind is matched as its number, with a range, as
// document 01 has it (docs/DECISIONS.md, forms); an enum of kinds would be made and matched again for each command.
pub fn is_at_home(hi: u8) -> bool
    ensures { result ≡ ltb (hi / 64) 3 }
{
    match hi / 64 {
        0..=2 => true,
        _ => false,
    }
}

// The refusals of a request or a release, but that of the load.
#[tactic(auto, unfolding(crate::specs::Packed::book_answer))]
fn book_answer(kind: u8, p: u8, o: u8, processes: u8, objects: u8, book: Process) -> Answer
    requires { o < 16 }
    ensures { result ≡ book_answer kind p o processes objects book }
{
    match kind {
        2 => processes::release_answer(p, o, processes, objects, book),
        _ => processes::request_answer(p, o, processes, objects, book),
    }
}

// The highest load at which the command is taken.
fn top_load(kind: u8) -> usize
    ensures { result ≡ top_load kind }
{
    match kind {
        2 => 63,
        _ => 62,
    }
}

// The answer to a request or a release: the load is the last test.
pub fn home_answer(hi: u8, lo: u8, processes: u8, objects: u8, book: Process, load: usize) -> Answer
    ensures { result ≡ home_answer hi lo processes objects book load }
{
    let kind = hi / 64;
    let o = object_number(hi, lo);
    match book_answer(kind, (hi / 4) % 16, o, processes, objects, book) {
        Answer::Done if top_load(kind) < load => Answer::LoadTooHigh,
        answer => answer,
    }
}

// The answer to the delivery of a number.
pub fn delivery_answer(occupied: u64, number: u8) -> Answer
    requires { number < 64 }
    ensures { result ≡ pick (taken occupied number) Done NoMessage }
{
    if values::bits::has(occupied, number) {
        Answer::Done
    } else {
        Answer::NoMessage
    }
}

// The home notes the wait, or drops the hold.
#[tactic(auto, unfolding(crate::specs::Packed::book_after))]
pub fn book_after(hi: u8, lo: u8, book: Process) -> Process
    ensures { result ≡ book_after (hi / 64) book (hi % 4 * 4 + lo / 64) }
{
    let kind = hi / 64;
    let o = object_number(hi, lo);
    match kind {
        2 => processes::dropping(book, o),
        _ => processes::asking(book, o, mode_of(kind)),
    }
}

// What the home sends.
#[tactic(auto, unfolding(crate::specs::Packed::kind_sent))]
pub fn kind_sent(hi: u8, lo: u8) -> Kind
    ensures { result ≡ kind_sent (hi / 64) (hi / 4 % 16) (hi % 4 * 4 + lo / 64) }
{
    let kind = hi / 64;
    let p = (hi / 4) % 16;
    let o = object_number(hi, lo);
    match kind {
        2 => Kind::Release(p, o),
        _ => Kind::Request(p, o, mode_of(kind)),
    }
}

// The process that a list asks next.
pub fn asked_of(l: Entries) -> u8
    requires { ListRanged l }
    ensures { (result ≡ Lists.asked_of l) × (result < 16) }
{
    l.who[values::bits::wide(l.next)]
}

// The process that started a list.
pub fn starter_of(l: Entries) -> u8
    requires { ListRanged l }
    ensures { (result ≡ Lists.starter_of l) × (result < 16) }
{
    l.who[0]
}
