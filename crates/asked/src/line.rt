// Whether a typed line is a whole command, apart from any board.
ghost use Rattle.std.specs.Prelude.{◌≡◌};
ghost use Rattle.asked.specs.Lines as Lines;

use typed::homes::cut;
use typed::{Typed, Verb};
use values::count::count_fits;

// The least and the most words that a verb takes. A line that names no verb has never enough.
#[tactic(auto, unfolding(crate::specs::Lines::takes))]
fn takes(verb: Verb) -> (usize, usize)
    ensures { result ≡ Lines.takes verb }
{
    match verb {
        Verb::Open => (3, 35),
        Verb::Request => (3, 3),
        Verb::Release => (2, 2),
        Verb::Deliver => (1, 1),
        Verb::Drain | Verb::Follow | Verb::Show | Verb::Messages | Verb::Waits => (0, 1),
        Verb::Rings | Verb::Undo | Verb::Help | Verb::Quit => (0, 0),
        Verb::Blank | Verb::Unknown => (1, 0),
    }
}

// The most words that a verb takes.
pub fn most(verb: Verb) -> usize
    ensures { result ≡ Lines.most verb }
{
    takes(verb).1
}

// The words of an opening that types its homes: three counts, and a home for each process and object.
pub fn with_homes(row: [u16; 35]) -> usize
    ensures { result ≡ Lines.with_homes row }
{
    3 + usize::from(cut(row[1])) + usize::from(cut(row[2]))
}

// A count is outside its limit.
#[tactic(auto, unfolding(crate::specs::Lines::count_outside))]
fn is_outside(row: [u16; 35]) -> bool
    ensures { result ≡ Lines.count_outside row }
{
    !count_fits(cut(row[0]), 8) || !count_fits(cut(row[1]), 16) || !count_fits(cut(row[2]), 16)
}

// An opening has so many words. Where a count is outside its limit the board refuses it, whatever homes follow.
#[tactic(auto, unfolding(crate::specs::Lines::opens))]
fn opens(row: [u16; 35], count: usize) -> bool
    ensures { result ≡ Lines.opens row count }
{
    3 <= count && (count == 3 || count == with_homes(row) || is_outside(row))
}

// The line has as many words as its verb takes.
#[tactic(auto, unfolding(crate::specs::Lines::has_all))]
fn has_all(t: Typed) -> bool
    ensures { result ≡ Lines.has_all t.verb t.numbers t.count }
{
    if t.verb == Verb::Open {
        return opens(t.numbers, t.count);
    }
    let (least, most) = takes(t.verb);
    least <= t.count && t.count <= most
}

// Each word is understood, and they are as many as the verb takes.
#[tactic(auto, unfolding(crate::specs::Lines::is_whole))]
pub fn is_whole(t: Typed) -> bool
    ensures { result ≡ Lines.is_whole t }
{
    t.odd.is_none() && has_all(t)
}
