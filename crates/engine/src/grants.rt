// The grants of a release, one to each that was let in, by place of the line as it stood.
ghost use Rattle.std.specs.Prelude.{◌≡◌, ◌-◌, ◌≤◌, ◌<◌};
ghost use Rattle.rules.specs.Board.{send_grants};
ghost use Rattle.rules.specs.Book as Book;
ghost use Rattle.rules.specs.declared.Kind.TheVariants as Kinds;
ghost use Rattle.engine.specs.Grants.{places_from};

use rules::{Board, Flight, Kind, Object};
use values::bits::wide;

// The grant to the one at place `k` of the line of object `o`.
pub fn grant_at(book: Object, k: u8, o: u8) -> Kind
    requires { k < 16 }
    ensures { result ≡ Kinds.Grant (Book.who_at book k) o (Book.mode_at book k) }
{
    Kind::Grant(book.line[wide(k)], o, objects::mode_at(book, k))
}

// The grants of a release after the first, to those next in the line as it stood, each under the lowest free number while there is
// one. It writes messages only, and reads no book of the board. Several let in by one release are seldom, so the loop of the engine does
// not carry it.
pub fn grant_rest(start: Board, book: Object, o: u8, granted: u8) -> Board
    requires { granted ≤ 16 }
    ensures { result ≡ send_grants start o (places_from book 1 (granted - 1)) }
{
    let mut b = start;
    let none = values::message::no_entries();
    // By place: the process and the mode of a place are both asked for.
    for k in 1..granted {
        let to = values::bits::lowest_free(b.occupied);
        // 64 is no number, as in the definition `lowest_free` of the rules.
        if 64 <= to {
            break;
        }
        b.flights[to] = Flight {
            kind: grant_at(book, k, o),
        };
        b.lists[to] = none;
        b.occupied = values::bits::with(b.occupied, to as u8);
    }
    b
}
