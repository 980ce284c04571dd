// What came of a whole line, in words: the answer of the board and what moved, how far a drain came, or what was asked to be shown.
#![tactic(auto)]

use desk::messages::sent;
use desk::{Acted, Desk};
use replies::answer;
use rules::{Answer, Board};
use std::io::{Result, Write};
use text::Page;
use typed::{Typed, Verb};
use words::{counted, size};

// Before the first opening the board is all zeros.
fn closed(out: &mut Page) -> Result<()> {
    writeln!(out, "  no board is open: try open 3 3 2")
}

fn opened(out: &mut Page, a: Answer) -> Result<()> {
    answer(out, a);
    writeln!(out)
}

fn refused(out: &mut Page, a: Answer, b: &Board) -> Result<()> {
    opened(out, a)?;
    if b.nodes == 0 {
        closed(out)?;
    }
    Ok(())
}

// ---- a command
// The message that arrived, those that were sent, and the rings that were recorded, each on a line; and that a list ends, where it
// neither went on nor recorded a ring. What arrived is free already on the board after it.
fn moved(out: &mut Page, before: &Desk, after: &Desk, arrived: Option<usize>) -> Result<()> {
    let old = &before.board;
    let new = &after.board;
    let set = sent(old.occupied, new.occupied, arrived);
    let list = arrived
        .and_then(|n| messages::under(old, n))
        .filter(messages::is_list);
    if let Some(n) = arrived {
        messages::tell(out, b"  arrived message ", before, n);
    }
    messages::tell_each(out, b"  sent message ", after, set);
    rings::recorded_since(out, b"  ring recorded: ", old, new);
    if list.is_some() && set == 0 && sums::tally(*new) == sums::tally(*old) {
        writeln!(out, "  the list ends without a new ring")?;
    }
    Ok(())
}

fn stepped(out: &mut Page, before: &Desk, acted: &Acted) -> Result<()> {
    if !acted.answer.is_done() {
        return refused(out, acted.answer, &before.board);
    }
    opened(out, acted.answer)?;
    moved(out, before, &acted.desk, acted.arrived)
}

// ---- a drain
// How many deliveries it made, and how many messages its budget left.
fn delivered(out: &mut Page, acted: &Acted) -> Result<()> {
    let made = acted.made;
    let left = size(acted.desk.board.occupied);
    let deliveries = counted(made, "delivery", "deliveries");
    answer(out, acted.answer);
    write!(out, ": {made} {deliveries}")?;
    if left != 0 {
        let messages = counted(left, "message", "messages");
        write!(out, "; {left} {messages} still in flight")?;
    }
    writeln!(out)
}

// A drain, or a follow, apart from its rings: those of a follow have been told with its deliveries, and a refused drain records none.
fn drained(out: &mut Page, before: &Desk, acted: &Acted) -> Result<()> {
    if !acted.answer.is_done() {
        return refused(out, acted.answer, &before.board);
    }
    delivered(out, acted)
}

// ---- what changes nothing
fn whole_board(out: &mut Page, desk: &Desk) -> Result<()> {
    let b = &desk.board;
    nodes::all(out, b);
    writeln!(out, "only the whole board shows")?;
    messages::in_flight(out, desk);
    rings::recorded(out, b);
    writeln!(out, "  load {} of at most 64", sums::load(*b))
}

fn no_such_node(out: &mut Page, nodes: u8) -> Result<()> {
    if nodes < 2 {
        return writeln!(out, "  no such node: the board has node 0 alone");
    }
    writeln!(
        out,
        "  no such node: the board has nodes 0 to {}",
        nodes - 1
    )
}

// One node alone: what it can know, who waits there, or the messages on their way to it.
fn one_node(out: &mut Page, desk: &Desk, verb: Verb, node: u16) -> Result<()> {
    let b = &desk.board;
    if u16::from(b.nodes) <= node {
        return no_such_node(out, b.nodes);
    }
    let node = node as u8;
    match verb {
        Verb::Show => nodes::one(out, b, node),
        Verb::Waits => waits::one(out, b, node),
        _ => messages::in_flight_to(out, desk, node),
    }
    Ok(())
}

fn shown_all(out: &mut Page, desk: &Desk, verb: Verb) -> Result<()> {
    let b = &desk.board;
    match verb {
        Verb::Show => whole_board(out, desk)?,
        Verb::Messages => messages::in_flight(out, desk),
        Verb::Waits => {
            waits::all(out, b);
            rings::existing(out, b);
        }
        _ => {
            rings::recorded(out, b);
            rings::existing(out, b);
        }
    }
    Ok(())
}

fn shown(out: &mut Page, desk: &Desk, t: &Typed) -> Result<()> {
    if desk.board.nodes == 0 {
        return closed(out);
    }
    if t.count == 0 {
        return shown_all(out, desk, t.verb);
    }
    one_node(out, desk, t.verb, t.numbers[0])
}

// What a line did to the desk. An undo is told with what it takes back.
pub fn tell(out: &mut Page, before: &Desk, t: &Typed, acted: &Acted) {
    let _full = put(out, before, t, acted);
}

fn put(out: &mut Page, before: &Desk, t: &Typed, acted: &Acted) -> Result<()> {
    match t.verb {
        Verb::Open => opened(out, acted.answer),
        Verb::Request | Verb::Release | Verb::Deliver => stepped(out, before, acted),
        Verb::Drain => {
            drained(out, before, acted)?;
            rings::recorded_since(out, b"  ring recorded: ", &before.board, &acted.desk.board);
            Ok(())
        }
        Verb::Follow => drained(out, before, acted),
        Verb::Show | Verb::Messages | Verb::Waits | Verb::Rings => shown(out, before, t),
        Verb::Help => {
            replies::help::tell(out);
            Ok(())
        }
        _ => Ok(()),
    }
}
