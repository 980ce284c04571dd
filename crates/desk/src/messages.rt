// Messages in flight: where one goes, and which ones a command has sent.
ghost use Rattle.std.specs.Prelude.{◌≡◌};
ghost use Rattle.laws.specs.Local.{goes_to, destination};
ghost use Rattle.desk.specs.Senders as Senders;

use crate::senders::at;
use rules::{Board, Entries, Kind};

// A message of a kind, with its list's entries, goes to a home; a place without a message to node 0, as the definition `goes_to` says.
fn goes_to(kind: Kind, list: Entries, b: Board) -> u8
    ensures { result ≡ goes_to kind list b }
{
    match kind {
        Kind::Free => 0,
        Kind::Grant(p, _, _) => at(b.process_home, p),
        Kind::ListToHome => at(b.process_home, at(list.who, list.next)),
        Kind::Request(_, o, _) | Kind::Release(_, o) | Kind::ListToObject(o) => {
            at(b.object_home, o)
        }
    }
}

// The node at which message n arrives; node 0, and no Option, where no message can have the number, as the definition `destination` says.
pub fn arrives_at(b: Board, n: usize) -> u8
    ensures { result ≡ destination b n }
{
    if n < 64 {
        goes_to(b.flights[n].kind, b.lists[n], b)
    } else {
        0
    }
}

// The messages that were sent: in flight after, and not before, or freed in between.
pub fn sent(before: u64, after: u64, freed: Option<usize>) -> u64
    ensures { Senders.Sent before after freed result }
{
    match freed {
        Some(n) if n < 64 => after & (!before | (1 << n)),
        _ => after & !before,
    }
}
