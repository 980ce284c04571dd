// The board: the commands one by one, many at once, an opening and its commands, and the drain. Each is equal to its rule, on every board
// and for all numbers. A call on a board asks for its shape once, at its start, and is told its load.
#![tactic(auto)]

ghost use Rattle.std.specs.Prelude.{◌≡◌, []};
ghost use Rattle.rules.specs.declared.Command.TheVariants as Do;
ghost use Rattle.rules.specs.Shape as Rules;
ghost use Rattle.rules.specs.Sheet as Sheet;
ghost use Rattle.bench.specs.Runs.{Fits};

use opening::Opening;
use rules::{Answer, Board, Command, Drained, Ran, Stepped};

mod commands;
mod guard;

// One command.
pub fn step(b: Board, c: Command) -> Stepped
    ensures { result ≡ Rules.step b c }
{
    let Some(load) = guard::load_if_ready(b) else {
        return Stepped {
            answer: Answer::OutOfShape,
            board: b,
        };
    };
    let s = match commands::pack(c, b.process_count, b.object_count) {
        Ok(bytes) => bytes,
        Err(answer) => return Stepped { answer, board: b },
    };
    let mut room = [0u8; 1];
    let turned = engine::turns(b, &s[..], 1, &mut room, load);
    Stepped {
        answer: Answer::from(room[0]),
        board: turned.board,
    }
}

// Process `p` asks for object `o`, shared with mode 0, exclusive with mode 1.
pub fn request(b: Board, p: u8, o: u8, m: u8) -> Stepped
    ensures { result ≡ Rules.step b (Do.Request p o m) }
{
    step(b, Command::Request(p, o, m))
}

// Process `p` gives object `o` back.
pub fn release(b: Board, p: u8, o: u8) -> Stepped
    ensures { result ≡ Rules.step b (Do.Release p o) }
{
    step(b, Command::Release(p, o))
}

// Message number `n` arrives.
pub fn deliver(b: Board, n: u8) -> Stepped
    ensures { result ≡ Rules.step b (Do.Deliver n) }
{
    step(b, Command::Deliver(n))
}

// Nothing is run: the answer, no command, and the board that is given. `sheet` has one of its own: its board is always the board of zeros.
fn refused(answer: Answer, board: Board) -> Ran
    ensures { result ≡ (Sheet.refused_run answer board []).ran }
{
    Ran {
        answer,
        commands: 0,
        board,
    }
}

// How many commands the slice holds, where the room has a byte for each; or the answer that refuses them.
fn whole_commands(s: &[u8], room: &[u8]) -> Result<usize, Answer>
    ensures { Fits s.now room.now result }
{
    if s.len() % 2 == 1 {
        return Err(Answer::OddByte);
    }
    let n = s.len() / 2;
    if room.len() < n {
        return Err(Answer::RoomTooShort);
    }
    Ok(n)
}

// Packed commands, two bytes each; the number of each answer goes into the room, whose bytes beyond them stay. It is one call, so the
// shape is asked before the first command alone.
pub fn run(b: Board, s: &[u8], room: &mut [u8]) -> Ran
    ensures { (result ≡ (Sheet.run b s.now room.old).ran) × (room.new ≡ (Sheet.run b s.now room.old).room) }
{
    let Some(load) = guard::load_if_ready(b) else {
        return refused(Answer::OutOfShape, b);
    };
    match whole_commands(s, room) {
        Ok(n) => engine::turns(b, s, n, room, load),
        Err(answer) => refused(answer, b),
    }
}

// An opening, and packed commands on it. An opening is in shape, so the shape is not asked. Where the call is refused, for any reason,
// the board is all zeros.
pub fn run_opening(opening: &Opening, s: &[u8], room: &mut [u8]) -> Ran
    ensures { (result ≡ (Sheet.run_opening opening.now.nodes opening.now.processes opening.now.objects opening.now.process_home opening.now.object_home s.now room.old).ran)
        × (room.new ≡ (Sheet.run_opening opening.now.nodes opening.now.processes opening.now.objects opening.now.process_home opening.now.object_home s.now room.old).room) }
{
    let answer = opening.answer();
    if !answer.is_done() {
        return refused(answer, opening::zero_board());
    }
    match whole_commands(s, room) {
        Ok(n) => engine::turns(opening.board(), s, n, room, 0),
        Err(answer) => refused(answer, opening::zero_board()),
    }
}

// The lowest-numbered message arrives, again and again, until none is left or the budget is used.
pub fn drain(b: Board, budget: usize) -> Drained
    ensures { result ≡ Rules.drain b budget }
{
    let Some(load) = guard::load_if_ready(b) else {
        return Drained {
            answer: Answer::OutOfShape,
            made: 0,
            board: b,
        };
    };
    // The room takes the answers, which are not kept.
    let mut room = [0u8; 1];
    let r = engine::turns(b, engine::Lowest, budget, &mut room, load);
    Drained {
        answer: Answer::Done,
        made: r.commands,
        board: r.board,
    }
}
