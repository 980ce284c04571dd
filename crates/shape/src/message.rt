// The messages: a number is in flight where a message stands under it, and a list has its entries in order.
ghost use Rattle.std.specs.Prelude.{◌≡◌, ◌&&◌, ◌≤◌, ltb, get_or};
ghost use Rattle.rules.specs.Tables.{pick, all};
ghost use Rattle.rules.specs.Bits.{taken};
ghost use Rattle.rules.specs.Lists.{no_entries};
ghost use Rattle.rules.specs.Board.{is_message};
ghost use Rattle.rules.specs.Shape.{lead_fits, list_fits, no_list, kind_fits, same};
ghost use Rattle.shape.specs.Stand.{kind_in};

use crate::row::{are_zero, over, row_fits};
use crate::stand::different;
use rules::{Entries, Flight, Kind};
use values::bits::wide;

// The limit of the lead at place k of n: a later entry is led by an earlier one, and the rest are zero, which alone is below 1.
// Like `up_to` and `limit_at`: each is a clause of the rules, of one line.
fn lead_limit(k: u8, n: u8) -> u8
    ensures { result ≡ pick (ltb 0 k && ltb k n) k 1 }
{
    if 0 < k && k < n { k } else { 1 }
}

fn leads_fit(l: Entries) -> bool
    ensures { result ≡ all 16 (lead_fits l) }
{
    let mut wrong = 0;
    for (k, lead) in l.leads.iter().enumerate() {
        wrong |= over(*lead, lead_limit(k as u8, l.count));
    }
    wrong == 0
}

// "each list has 2 to 16 different entries, each later entry led by an earlier one, and its next entry lies after the first and inside it"
#[tactic(auto, using(crate::proofs::Tests::row_below), unfolding(rules::specs::Shape::list_fits))]
fn list_fits(l: Entries, pc: u8) -> bool
    requires { pc ≤ 16 }
    ensures { result ≡ list_fits l pc }
{
    1 < l.count
        && l.count <= 16
        && 0 < l.next
        && l.next < l.count
        && row_fits(l.who, l.count, pc)
        && leads_fit(l)
        && different(l.who, l.count)
}

// "unused places hold zero": no list
#[tactic(auto, unfolding(rules::specs::Shape::no_list))]
fn no_list(l: Entries) -> bool
    ensures { result ≡ no_list l }
{
    l.count == 0 && l.next == 0 && are_zero(l.who, l.leads)
}

fn kind_fits(kind: Kind, l: Entries, pc: u8, oc: u8) -> bool
    requires { pc ≤ 16 }
    ensures { result ≡ kind_fits kind l pc oc }
{
    match kind {
        Kind::Free => no_list(l),
        Kind::Request(p, o, _) | Kind::Grant(p, o, _) | Kind::Release(p, o) => {
            p < pc && o < oc && no_list(l)
        }
        Kind::ListToHome => list_fits(l, pc),
        Kind::ListToObject(o) => o < oc && list_fits(l, pc),
    }
}

fn message_fits(flies: bool, kind: Kind, l: Entries, pc: u8, oc: u8) -> bool
    requires { pc ≤ 16 }
    ensures { result ≡ same flies (is_message kind) && kind_fits kind l pc oc }
{
    flies == (kind != Kind::Free) && kind_fits(kind, l, pc, oc)
}

pub fn messages_fit(
    flights: [Flight; 64],
    lists: [Entries; 64],
    occupied: u64,
    pc: u8,
    oc: u8,
) -> bool
    requires { pc ≤ 16 }
    ensures { result ≡ all 64 (λ n. same (taken occupied n) (is_message (kind_in flights n)) && kind_fits (kind_in flights n) (get_or lists n no_entries) pc oc) }
{
    flights.iter().zip(&lists).enumerate().all(|(n, (flight, list))| message_fits(
        (occupied >> n) % 2 == 1,
        flight.kind,
        *list,
        pc,
        oc,
    ))
}
