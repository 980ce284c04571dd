// Those that a process waits for, as a set: at a place of a line, in a line, on the board.
ghost use Rattle.std.specs.Prelude.{◌<◌};
ghost use Rattle.rules.specs.Tables.{among};
ghost use Rattle.rules.specs.Book.{waited_for};
ghost use Rattle.objects.specs.Sets.{SetOf};
ghost use Rattle.search.specs.Waiting.{waits_in, waits_for};

use rules::{Board, Mode, Object};
use values::bits::wide;

// Those that p waits for in the mode at place k: those who hold in conflict, and those ahead in conflict. Loops over those ahead stand in
// `waits` and `lists` too: here a set is gathered, there a row by place and a list's entries; the test `objects::bars` is what they share.
fn at_place(o: Object, p: u8, m: Mode, k: u8) -> u64
    requires { (p < 16) × (k < 16) }
    ensures { SetOf (λ q. among q (waited_for o p m k)) result }
{
    let mut set = objects::rivals(o, p, m);
    for (j, q) in o.line[..wide(k)].iter().enumerate() {
        if *q < 16 && objects::bars(*q, o.line_exclusive, p, m, j as u8) {
            set = values::bits::with(set, *q);
        }
    }
    set
}

// Those that p waits for in the line of an object.
fn in_line(o: Object, p: u8) -> u64
    requires { p < 16 }
    ensures { SetOf (waits_in o p) result }
{
    let mut set = 0;
    for (at, q) in o.line.iter().enumerate() {
        let k = at as u8;
        if k < o.line_count && *q == p {
            set |= at_place(o, p, objects::mode_at(o, k), k);
        }
    }
    set
}

// Those that p waits for on the board.
pub fn waited(b: Board, p: u8) -> u64
    requires { p < 16 }
    ensures { SetOf (waits_for b p) result }
{
    let mut set = 0;
    for object in &b.objects {
        set |= in_line(*object, p);
    }
    set
}
