// "The board is stepped in the room its owner lends, as well as by value; both give one result."
#![tactic(auto)]

ghost use Rattle.std.specs.Prelude.{◌≡◌};
ghost use Rattle.rules.specs.Shape.{step};

use rules::{Answer, Board, Command, Stepped};

// One command on the board that stands in the lent room: the step by value is taken of it, and its board is laid back there.
pub fn step_in(b: &mut Board, c: Command) -> Answer
    ensures { (result ≡ (step b.old c).answer) × (b.new ≡ (step b.old c).board) }
{
    let stepped = bench::step(*b, c);
    *b = stepped.board;
    stepped.answer
}

// The same for an owner who has the board by value: a local is lent, and comes back with the answer.
pub fn step_lent(b: Board, c: Command) -> Stepped
    ensures { result ≡ step b c }
{
    let mut room = b;
    let answer = step_in(&mut room, c);
    Stepped {
        answer,
        board: room,
    }
}
