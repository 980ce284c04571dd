// Runs a sheet command by command, each by a call of its own, in two ways: by value, and in the room that the board's owner lends. Both
// are one result; what came of the second is printed, and a line if ever the first would print something else.
#![tactic(auto)]

ghost use Rattle.std.specs.Prelude.{◌≡◌, ◌*◌, ◌≤◌, length};
ghost use Rattle.steps.specs.BySteps.{ByRule, board_by_steps, room_by_steps, commands_of, by_steps};

use crate::command::command_at;
use program::Errors;
use rules::{Board, Command, Ran, Stepped};

mod command;

// The first n commands of a part, one by one, each by the step that is handed in; the number of each answer goes into the room.
// The room is lent whole: how many answers it has is said by what was run.
fn steps<F: Fn(Board, Command) -> Stepped>(
    opened: Board,
    part: &[u8],
    n: usize,
    step: F,
    room: &mut [u8; 4096],
) -> Board
    requires { (n ≤ 4096) × (2 * n ≤ length part.now) × F.IsAlwaysCallable step × ByRule (F.post step) }
    ensures { (result ≡ board_by_steps opened part.now n) × (room.new ≡ room_by_steps opened part.now room.old n) }
{
    let mut b = opened;
    // By number: `command_at`, by which the definition `board_by_steps` goes, takes the number of a command.
    for i in 0..n {
        let stepped = step(b, command_at(part, i));
        room[i] = u8::from(stepped.answer);
        b = stepped.board;
    }
    b
}

// How many commands a part holds; no part of a sheet holds more than 4,096.
fn count(part: &[u8]) -> usize
    ensures { result ≡ commands_of part.now }
{
    (part.len() / 2).min(4096)
}

// The sheet without its commands opens the board. Of a refused sheet no part is handed back, and the whole of it is refused again.
fn run<F: Fn(Board, Command) -> Stepped>(s: &[u8], step: F, room: &mut [u8; 4096]) -> Ran
    requires { F.IsAlwaysCallable step × ByRule (F.post step) }
    ensures { (result ≡ (by_steps s.now room.old).ran) × (room.new ≡ (by_steps s.now room.old).room) }
{
    let part = sheet::commands(s);
    let n = count(part);
    let start = s.len() - part.len();
    let mut no_answers = [0u8; 1];
    let opened = sheet::run(&s[..start], &mut no_answers);
    let board = steps(opened.board, part, n, step, room);
    Ran {
        answer: opened.answer,
        commands: n,
        board,
    }
}

// Runs the sheet in both ways and prints what came of it on standard output.
pub fn show(rt: &(impl Print + Errors), s: &[u8]) {
    let mut by_value = [0u8; 4096];
    let mut in_room = [0u8; 4096];
    let first = run(s, bench::step, &mut by_value);
    let second = run(s, room::step_lent, &mut in_room);
    report::show_both(rt, first, &by_value, second, &in_room);
}
