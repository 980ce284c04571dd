// What a typed line asks of a board: a command, a drain's budget, or an opening; and whether the line is whole.
#![tactic(auto)]

pub mod line;

ghost use Rattle.std.specs.Prelude.{◌≡◌};
ghost use Rattle.asked.specs.Asked as Asked;

use opening::Opening;
use rules::{Command, Stepped};
use std::array;
use typed::homes::{cut, homes};
use typed::{Typed, Verb};

// The command that a verb and its numbers are. A verb that names none is as a delivery.
#[tactic(auto, using(typed::proofs::Verbs::is_not), unfolding(crate::specs::Asked::command_of))]
pub fn command(t: Typed) -> Command
    ensures { result ≡ Asked.command t }
{
    let row = t.numbers;
    let first = cut(row[0]);
    let second = cut(row[1]);
    match t.verb {
        Verb::Request => Command::Request(first, second, cut(row[2])),
        Verb::Release => Command::Release(first, second),
        _ => Command::Deliver(first),
    }
}

// Without a budget 65,535, and no Option: the definition `budget` is this number, and no board needs as many deliveries.
pub fn budget(t: Typed) -> usize
    ensures { result ≡ Asked.budget t }
{
    if t.count == 0 {
        65535
    } else {
        usize::from(t.numbers[0])
    }
}

// Number k lives on node k modulo the node count; without nodes, on node 0.
fn node_of(k: usize, nodes: u8) -> u8
    ensures { result ≡ Asked.in_turn_at nodes k }
{
    k.checked_rem(usize::from(nodes)).unwrap_or(0) as u8
}

fn in_turn(nodes: u8) -> [u8; 16]
    ensures { result ≡ Asked.in_turn nodes }
{
    array::from_fn(|k| node_of(k, nodes))
}

// The homes of an opening behind so many others: those that it types, or in turn where it types none.
#[tactic(auto, unfolding(crate::specs::Asked::homes_behind))]
fn homes_behind(t: Typed, others: u8) -> [u8; 16]
    ensures { result ≡ Asked.homes_behind t others }
{
    if t.count == 3 {
        in_turn(cut(t.numbers[0]))
    } else {
        homes(t.numbers, others)
    }
}

// The opening that a line types.
#[tactic(auto, unfolding(crate::specs::Asked::opened))]
pub fn opened(t: Typed) -> Stepped
    ensures { result ≡ Asked.opened t }
{
    let processes = cut(t.numbers[1]);
    let given = Opening {
        nodes: cut(t.numbers[0]),
        processes,
        objects: cut(t.numbers[2]),
        process_home: homes_behind(t, 0),
        object_home: homes_behind(t, processes),
    };
    given.open()
}
