// The two sums over a board: its load and its ring tally.
#![tactic(auto)]

ghost use Rattle.std.specs.Prelude.{◌≡◌, ◌≤◌};
ghost use Rattle.rules.specs.Tables.{sum};
ghost use Rattle.rules.specs.Board as Rules;

use rules::{Board, Ring};
use values::message::kind_load;

// The load of the messages in flight. This sum and the next are loops of their own: one function for both would take the table and, as a
// closure, what a record adds, and a bound on that in its contract; each loop is shorter than that.
fn in_messages(b: Board) -> usize
    ensures { (result ≡ sum 64 (λ n. Rules.kind_load (Rules.kind_at b n))) × (result ≤ 128) }
{
    let mut load = 0;
    for flight in &b.flights {
        load += kind_load(flight.kind);
    }
    load
}

// Those who stand in lines.
fn in_lines(b: Board) -> usize
    ensures { (result ≡ sum 16 (λ o. (Rules.object_at b o).line_count)) × (result ≤ 4080) }
{
    let mut load = 0;
    for object in &b.objects {
        load += usize::from(object.line_count);
    }
    load
}

// "Load is messages in flight, plus processes standing in lines, plus requests in flight (so a request counts twice)."
pub fn load(b: Board) -> usize
    ensures { (result ≡ Rules.load b) × (result ≤ 4208) }
{
    in_messages(b) + in_lines(b)
}

// Whether the ring at the place of starter s counts, where recorded rings are counted: the tally, and the lengths of a chart
// (`totals::with_rings`), both ask here.
#[inline]
pub fn counts(rings: [Ring; 16], s: usize) -> bool
    ensures { result ≡ Rules.counts rings s }
{
    rings.get(s).is_some_and(|ring| 0 < ring.count)
}

// How many of the recorded rings count.
pub fn tally_of(rings: [Ring; 16]) -> usize
    ensures { (result ≡ Rules.tally_of rings) × (result ≤ 16) }
{
    let mut tally = 0;
    for s in 0..16 {
        if counts(rings, s) {
            tally += 1;
        }
    }
    tally
}

// "The ring tally is the number of filled places."
pub fn tally(b: Board) -> usize
    ensures { (result ≡ Rules.tally b) × (result ≤ 16) }
{
    tally_of(b.rings)
}
