// What a message adds to the load; and the entries beside a message that is no list: none.
ghost use Rattle.std.specs.Prelude.{◌≡◌, ◌≤◌};
ghost use Rattle.rules.specs.Board as Boards;
ghost use Rattle.rules.specs.Lists as Lists;

use rules::{Entries, Kind};

// What a message of a kind adds to the load; zero where there is nothing to send.
pub fn kind_load(k: Kind) -> usize
    ensures { (result ≡ Boards.kind_load k) × (result ≤ 2) }
{
    match k {
        Kind::Free => 0,
        Kind::Request(..) => 2,
        Kind::Grant(..) | Kind::Release(..) | Kind::ListToHome | Kind::ListToObject(_) => 1,
    }
}

// The entries of no list: the default, by the name that the rules have for it, and said to equal it.
pub fn no_entries() -> Entries
    ensures { result ≡ Lists.no_entries }
{
    Entries::default()
}
