// The desk: a board, with the node that sent each message in flight, which no message carries, and the command that was the last to
// change it. What a typed line does to it, apart from what is said.
#![tactic(auto)]

pub mod messages;
mod senders;

ghost use Rattle.std.specs.Prelude.{◌≡◌};
ghost use Rattle.desk.specs.Desks as Desks;
ghost use Rattle.desk.specs.declared.Follows.TheVariants as Then;

use rules::{Answer, Board};
use senders::Site;
use typed::{Typed, Verb};

#[derive(Clone, Copy)]
pub struct Desk {
    pub board: Board,
    // A row beside the board's messages, which are the rules' and have no sender.
    pub senders: [u8; 64],
    pub command: Typed,
}

// What follows a line: nothing, the desk was changed, the last change is to be taken back, or the input is left.
#[derive(Clone, Copy, PartialEq, Eq)]
pub enum Follows {
    Nothing,
    Change,
    Undo,
    End,
}

// What came of a line: the desk after it, the board's answer, how many deliveries a drain made, the number of the message that arrived,
// None where none did, and what follows.
#[derive(Clone, Copy)]
pub struct Acted {
    pub desk: Desk,
    pub answer: Answer,
    pub made: usize,
    pub arrived: Option<usize>,
    pub follows: Follows,
}

// ---- desks
// The desk with a board that has no message.
fn cleared(board: Board, command: Typed) -> Desk
    ensures { result ≡ Desks.cleared board command }
{
    Desk {
        board,
        senders: [0; 64],
        command,
    }
}

// No board is open yet: all zeros.
pub fn closed() -> Desk
    ensures { result ≡ Desks.closed }
{
    cleared(opening::zero_board(), typed::read(b""))
}

// The desk with another board, which an accepted command made of its own.
fn moved(desk: Desk, board: Board, site: Site, command: Typed) -> Desk
    ensures { result ≡ Desks.moved desk board site command }
{
    Desk {
        board,
        senders: senders::after(desk.senders, desk.board.occupied, board.occupied, site),
        command,
    }
}

// ---- what came of a line
// Nothing was asked of the board.
fn stay(desk: Desk) -> Acted
    ensures { result ≡ Desks.stay desk }
{
    Acted {
        desk,
        answer: Answer::Done,
        made: 0,
        arrived: None,
        follows: Follows::Nothing,
    }
}

// The desk was changed.
fn changed(desk: Desk) -> Acted
    ensures { result ≡ Desks.silent desk Then.Change }
{
    Acted {
        follows: Follows::Change,
        ..stay(desk)
    }
}

// An opening: a new desk where it is not refused.
#[tactic(auto, unfolding(crate::specs::Desks::opened))]
fn open(desk: Desk, t: Typed) -> Acted
    ensures { result ≡ Desks.opened desk t }
{
    let s = asked::opened(t);
    let answer = s.answer;
    if !answer.is_done() {
        return Acted {
            answer,
            ..stay(desk)
        };
    }
    Acted {
        answer,
        ..changed(cleared(s.board, t))
    }
}

// A command: the board that it made where it is not refused, and its messages sent from where it acted.
#[tactic(auto, unfolding(crate::specs::Desks::stepped))]
fn step(desk: Desk, t: Typed) -> Acted
    ensures { result ≡ Desks.stepped desk t }
{
    let command = asked::command(t);
    let site = senders::acts_at(desk.board, command);
    let s = bench::step(desk.board, command);
    let answer = s.answer;
    if !answer.is_done() {
        return Acted {
            answer,
            ..stay(desk)
        };
    }
    Acted {
        answer,
        arrived: site.freed,
        ..changed(moved(desk, s.board, site, t))
    }
}

// One delivery, of the lowest number in flight.
#[tactic(auto, unfolding(crate::specs::Desks::drained_once))]
fn drain_one(desk: Desk, command: Typed) -> Desk
    ensures { result ≡ Desks.drained_once desk command }
{
    let site = senders::delivery(desk.board, values::bits::lowest(desk.board.occupied));
    let d = bench::drain(desk.board, 1);
    moved(desk, d.board, site, command)
}

// One delivery after another, so that each message's sender is known.
fn drained(start: Desk, made: usize, command: Typed) -> Desk
    ensures { result ≡ Desks.drained_times made start command }
{
    let mut desk = start;
    for _i in 0..made {
        desk = drain_one(desk, command);
    }
    desk
}

// A drain, or a follow, which is a drain that is told delivery by delivery: as many deliveries as the board makes of it.
#[tactic(auto, unfolding(crate::specs::Desks::drained))]
fn drain(desk: Desk, t: Typed) -> Acted
    ensures { result ≡ Desks.drained desk t }
{
    let d = bench::drain(desk.board, asked::budget(t));
    let follows = if d.made == 0 {
        Follows::Nothing
    } else {
        Follows::Change
    };
    Acted {
        answer: d.answer,
        made: d.made,
        follows,
        ..stay(drained(desk, d.made, t))
    }
}

// What a verb and its numbers do.
#[tactic(auto, unfolding(crate::specs::Desks::by_verb))]
fn by_verb(desk: Desk, t: Typed) -> Acted
    ensures { result ≡ Desks.by_verb t.verb desk t }
{
    match t.verb {
        Verb::Open => open(desk, t),
        Verb::Request | Verb::Release | Verb::Deliver => step(desk, t),
        Verb::Drain | Verb::Follow => drain(desk, t),
        Verb::Undo => Acted {
            follows: Follows::Undo,
            ..stay(desk)
        },
        Verb::Quit => Acted {
            follows: Follows::End,
            ..stay(desk)
        },
        _ => stay(desk),
    }
}

// What a line does to the desk. One that is no whole command does nothing.
#[tactic(auto, unfolding(crate::specs::Desks::acted))]
pub fn act(desk: Desk, t: Typed) -> Acted
    ensures { result ≡ Desks.acted desk t }
{
    if asked::line::is_whole(t) {
        by_verb(desk, t)
    } else {
        stay(desk)
    }
}
