// Is a board in shape? Each test is proved equal to the clause of the rules that it is named after. A test is handed the records that it
// reads and not the board, which would be copied for each.
// That a count is at most 16 is asked of each test and stands in no type: `counts_fit` tests it first, and a board's counts are plain
// numbers.
// The books and the rings are gone through by `for`: with the library's `all` a board's shape took 113 million instructions in place of
// 102, in 20,000 calls.
#![tactic(auto)]

ghost use Rattle.std.specs.Prelude.{◌≡◌};
ghost use Rattle.rules.specs.Shape.{in_shape};
ghost use Rattle.shape.specs.Load.{load_in_shape};

use rules::Board;

mod book;
mod message;
mod ring;
mod row;
mod stand;

// The load of a board in shape, which is at most 64; none for a board that is not in shape. A call on a board needs both, and asks once.
pub fn load_in_shape(b: Board) -> Option<usize>
    ensures { result ≡ load_in_shape b }
{
    let pc = b.process_count;
    let oc = b.object_count;
    let tables_fit = book::counts_fit(b.nodes, pc, oc, b.process_home, b.object_home)
        && book::processes_fit(b.processes, pc, oc)
        && book::objects_fit(b.objects, pc, oc)
        && message::messages_fit(b.flights, b.lists, b.occupied, pc, oc)
        && ring::rings_fit(b.rings, pc);
    // Those who stand are noted by number, so their numbers are tested first.
    let fits = tables_fit && stand::stand_once(b.flights, b.objects);
    if !fits {
        return None;
    }
    let load = sums::load(b);
    (load <= 64).then_some(load)
}

// "A board is in shape when .."
pub fn in_shape(b: Board) -> bool
    ensures { result ≡ in_shape b }
{
    load_in_shape(b).is_some()
}
