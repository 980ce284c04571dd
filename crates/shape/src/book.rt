// The counts and homes of a board, and the books of its processes and objects.
ghost use Rattle.std.specs.Prelude.{◌≡◌, ◌&&◌, ◌≤◌, get_or};
ghost use Rattle.rules.specs.Tables.{all};
ghost use Rattle.rules.specs.Board.{no_process, no_object};
ghost use Rattle.rules.specs.Shape.{set_fits, holds_fit, count_fits, row_fits, up_to, wait_fits, process_fits, object_fits};

use crate::row::row_fits;
use rules::{Object, Process, Wait};
use values::bits::wide;
use values::count::count_fits;

// Every number of the set is below c.
fn set_fits(set: u64, c: u8) -> bool
    requires { c ≤ 16 }
    ensures { result ≡ set_fits set c }
{
    set >> c == 0
}

// Two sets of numbers below c that have none in common: one mode for each hold.
#[tactic(auto, unfolding(rules::specs::Shape::holds_fit))]
fn holds_fit(shared: u64, exclusive: u64, c: u8) -> bool
    requires { c ≤ 16 }
    ensures { result ≡ holds_fit shared exclusive c }
{
    set_fits(shared, c) && set_fits(exclusive, c) && shared & exclusive == 0
}

// "counts, homes .. are in range"
pub fn counts_fit(nodes: u8, pc: u8, oc: u8, process_home: [u8; 16], object_home: [u8; 16]) -> bool
    ensures { result ≡ count_fits nodes 8 && (count_fits pc 16 && (count_fits oc 16
        && (row_fits process_home pc nodes && row_fits object_home oc nodes))) }
{
    count_fits(nodes, 8)
        && count_fits(pc, 16)
        && count_fits(oc, 16)
        && row_fits(process_home, pc, nodes)
        && row_fits(object_home, oc, nodes)
}

// The count for record k of c records; zero past them. Like `limit_at` and `lead_limit` but for a constant: each is a clause of the rules
// (`up_to`, `row_fits`, `lead_fits`), of one line.
fn up_to(k: usize, c: usize, n: u8) -> u8
    ensures { result ≡ up_to k c n }
{
    if k < c { n } else { 0 }
}

fn wait_fits(wait: Wait, oc: u8) -> bool
    ensures { result ≡ wait_fits wait oc }
{
    match wait {
        Wait::NotWaiting => true,
        Wait::Waiting(o, _) => o < oc,
    }
}

#[tactic(auto, unfolding(rules::specs::Shape::process_fits))]
fn process_fits(p: Process, oc: u8) -> bool
    requires { oc ≤ 16 }
    ensures { result ≡ process_fits p oc }
{
    holds_fit(p.shared, p.exclusive, oc) && wait_fits(p.wait, oc) && (!p.released || 0 < oc)
}

// By `for`, as lib.rt says: the books of the processes.
pub fn processes_fit(books: [Process; 16], pc: u8, oc: u8) -> bool
    requires { oc ≤ 16 }
    ensures { result ≡ all 16 (λ p. process_fits (get_or books p no_process) (up_to p pc oc)) }
{
    let end = wide(pc);
    for (p, book) in books.iter().enumerate() {
        if !process_fits(*book, up_to(p, end, oc)) {
            return false;
        }
    }
    true
}

#[tactic(auto, unfolding(rules::specs::Shape::object_fits))]
fn object_fits(o: Object, pc: u8) -> bool
    requires { pc ≤ 16 }
    ensures { result ≡ object_fits o pc }
{
    holds_fit(o.shared, o.exclusive, pc)
        && o.line_count <= 16
        && row_fits(o.line, o.line_count, pc)
        && set_fits(o.line_exclusive, o.line_count)
}

// By `for`, as lib.rt says: the books of the objects.
pub fn objects_fit(books: [Object; 16], pc: u8, oc: u8) -> bool
    requires { pc ≤ 16 }
    ensures { result ≡ all 16 (λ o. object_fits (get_or books o no_object) (up_to o oc pc)) }
{
    let end = wide(oc);
    for (o, book) in books.iter().enumerate() {
        if !object_fits(*book, up_to(o, end, pc)) {
            return false;
        }
    }
    true
}
