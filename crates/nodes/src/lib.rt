// The board as a class should see it: what each node can know from its own books.
#![tactic(auto)]

ghost use Rattle.std.specs.Prelude.{◌≤◌, length};

use rules::{Board, Object, Process, Wait};
use std::io::{Result, Write};
use text::rows::{numbers, on_or_below, row};
use text::{Page, start};
use values::bits::{has, lowest, places, wide};
use words::{Members, counted, mode_in, size};

// A book that a node keeps. Those of a node with nothing to tell stand together on one line, where the first of them would stand.
trait Book {
    fn is_idle(&self) -> bool;

    fn tell(&self, out: &mut Page, number: u8) -> Result<()>;

    fn tell_idle(out: &mut Page, idle: u64) -> Result<()>;
}

// The numbers of two sets, one for each mode, behind a letter; and what stands where there are none.
fn held(out: &mut Page, letter: char, shared: u64, exclusive: u64, none: &str) -> Result<()> {
    let set = shared | exclusive;
    if set == 0 {
        return write!(out, "{none}");
    }
    row(out, 99, Members::of(set), |out, k| {
        write!(out, "{letter}{k} {}", mode_in(exclusive, k))
    })
}

// The numbers of the idle ones behind a letter, and what is said of one or of several.
fn idle_row(out: &mut Page, letter: char, idle: u64, one: &str, several: &str) -> Result<()> {
    write!(out, "  ")?;
    numbers(out, 99, letter, Members::of(idle))?;
    writeln!(out, " {}", counted(size(idle), one, several))
}

// ---- the book of a process
// The wait that is noted, and that the process has released.
fn waiting(out: &mut Page, p: &Process) -> Result<()> {
    match p.wait {
        Wait::NotWaiting => write!(out, "notes no wait")?,
        Wait::Waiting(o, mode) => write!(out, "notes a wait for o{o} {mode}")?,
    }
    if p.released {
        write!(out, "; has released")?;
    }
    Ok(())
}

impl Book for Process {
    fn is_idle(&self) -> bool {
        *self == Process::default()
    }

    fn tell(&self, out: &mut Page, number: u8) -> Result<()> {
        write!(out, "  p{number} holds ")?;
        held(out, 'o', self.shared, self.exclusive, "nothing")?;
        write!(out, ";")?;
        on_or_below(out, 100, self, waiting)?;
        writeln!(out)
    }

    fn tell_idle(out: &mut Page, idle: u64) -> Result<()> {
        idle_row(
            out,
            'p',
            idle,
            "holds nothing; notes no wait",
            "hold nothing; note no wait",
        )
    }
}

// ---- the book of an object
fn line(out: &mut Page, o: &Object) -> Result<()> {
    if o.line_count == 0 {
        return write!(out, "line: empty");
    }
    let exclusive = o.line_exclusive;
    let stand = start(&o.line, wide(o.line_count));
    write!(out, "line: ")?;
    row(out, 99, (0..16).zip(stand), |out, (k, p)| {
        write!(out, "p{p} {}", mode_in(exclusive, k))
    })
}

impl Book for Object {
    fn is_idle(&self) -> bool {
        self.shared | self.exclusive == 0 && self.line_count == 0
    }

    fn tell(&self, out: &mut Page, number: u8) -> Result<()> {
        write!(out, "  o{number} held by ")?;
        held(out, 'p', self.shared, self.exclusive, "nobody")?;
        write!(out, ";")?;
        on_or_below(out, 100, self, line)?;
        writeln!(out)
    }

    fn tell_idle(out: &mut Page, idle: u64) -> Result<()> {
        idle_row(
            out,
            'o',
            idle,
            "held by nobody; line: empty",
            "held by nobody; lines: empty",
        )
    }
}

// ---- one node
// The books of a set.
fn books<B: Book>(out: &mut Page, books: &[B], set: u64) -> Result<()>
    requires { length books.now ≤ 16 }
{
    let idle = set & places(books, B::is_idle);
    for (k, book) in books.iter().enumerate() {
        let number = k as u8;
        if lowest(idle) == k {
            B::tell_idle(out, idle)?;
        }
        if has(set & !idle, number) {
            book.tell(out, number)?;
        }
    }
    Ok(())
}

// Those of the first so many that live on a node.
fn living_on(homes: &[u8; 16], count: u8, node: u8) -> u64 {
    places(start(homes, wide(count)), |home| *home == node)
}

// What a node can know: the books of the processes and objects that live there.
pub fn one(out: &mut Page, b: &Board, node: u8) {
    let _full = put(out, b, node);
}

fn put(out: &mut Page, b: &Board, node: u8) -> Result<()> {
    let here = living_on(&b.process_home, b.process_count, node);
    let kept = living_on(&b.object_home, b.object_count, node);
    writeln!(out, "node {node} can know")?;
    books(out, &b.processes, here)?;
    books(out, &b.objects, kept)?;
    if here | kept == 0 {
        writeln!(out, "  nothing lives here")?;
    }
    Ok(())
}

pub fn all(out: &mut Page, b: &Board) {
    for node in 0..b.nodes.min(8) {
        one(out, b, node);
    }
}
