// A ring of waits through a process, if there is one, found on the whole board. No node can do this: it takes the lines of every object.
// A process's number comes from a caller of `along`, who may give any; that it is below 16 is asked from there on, and stands in no type.
#![tactic(auto)]

ghost use Rattle.std.specs.Prelude.{◌≡◌, ◌<◌, ◌%◌};
ghost use Rattle.objects.specs.Sets.{SetOf};
ghost use Rattle.search.specs.Waiting as Waiting;
ghost use Rattle.search.specs.Ways as Ways;

use rules::{Board, Ring};
use std::array;

mod waits;
mod walk;

// For each process the set of those that it waits for.
pub fn arcs(b: Board) -> [u64; 16]
    ensures { result ≡ Waiting.arcs b }
{
    array::from_fn(
        |p|
            requires { p < 16 }
            ensures { SetOf (Waiting.waits_for b (p % 256)) result }
        { waits::waited(b, p as u8) },
    )
}

// The shortest ring through p along such sets, and of those the one that goes on to lower numbers first; a count of zero where there is
// none, as the definition `Ways.shortest` and the rules' `no_ring` have it: so it is no Option.
pub fn along(sets: [u64; 16], p: u8) -> Ring
    ensures { result ≡ Ways.shortest (Waiting.arc sets) p }
{
    if 16 <= p {
        return walk::no_ring();
    }
    let comers = walk::comers(sets, p);
    match walk::round(comers, p) {
        Some(n) => walk::way(sets, comers, p, n),
        None => walk::no_ring(),
    }
}

// The same on a board. Whoever asks for several processes works out the arcs once, and then calls `along`.
pub fn through(b: Board, p: u8) -> Ring
    ensures { result ≡ Ways.ring_through b p }
{
    along(arcs(b), p)
}
