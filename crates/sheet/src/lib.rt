// Reads a packed sheet and runs it: its answer, which is the first refusal in the paper's order, the part of it that holds the commands,
// and what all of its commands do to its opening.
#![tactic(auto)]

ghost use Rattle.std.specs.Prelude.{◌≡◌, [], false, MatchResult};
ghost use Rattle.rules.specs.declared.Answer.TheVariants.{Done};
ghost use Rattle.rules.specs.Answers.{done};
ghost use Rattle.rules.specs.Commands.{zero_board};
ghost use Rattle.rules.specs.Sheet.{reader_answer, commands_part, refused_run, run_sheet};
ghost use Rattle.reader.specs.Found.{found_in};
ghost use Rattle.sheet.specs.Kept.{kept_of};

use opening::Opening;
use reader::Found;
use rules::{Answer, Ran};

mod refusals;

// Reads the sheet through: what was found where none of the reader's tests refuses it, and else the first refusal in order.
#[tactic(auto, using(crate::proofs::Order::few_homes))]
fn checked(s: &[u8]) -> Result<Found, Answer>
    ensures { MatchResult result
        (λ h. (h ≡ found_in s.now) × (reader_answer s.now ≡ Done))
        (λ a. (a ≡ reader_answer s.now) × (done a ≡ false)) }
{
    let found = reader::read_sheet(s);
    refusals::test_sheet(s.len(), &found)?;
    Ok(found)
}

// The refusals in order, but for a room that is too short.
pub fn answer(s: &[u8]) -> Answer
    ensures { result ≡ reader_answer s.now }
{
    match checked(s) {
        Ok(_) => Answer::Done,
        Err(refusal) => refusal,
    }
}

// The part of the sheet that holds the commands; an empty part where the sheet is refused.
#[tactic(auto, using(crate::proofs::Order::early_start))]
pub fn commands(s: &[u8]) -> &[u8]
    ensures { result.now ≡ commands_part s.now }
{
    match checked(s) {
        Ok(found) => reader::rest_from(s, 8 * found.start),
        Err(_) => &s[s.len()..],
    }
}

// A refused sheet runs nothing: the board of zeros, and no command. bench has one too: each is its definition, with its own board.
fn refused(answer: Answer) -> Ran
    ensures { result ≡ (refused_run answer zero_board []).ran }
{
    Ran {
        answer,
        commands: 0,
        board: opening::zero_board(),
    }
}

// Runs the whole sheet on an opening, and writes each command's answer as one byte into the room.
#[tactic(auto, using(crate::proofs::Order::few_homes, crate::proofs::Order::few_nodes, crate::proofs::Order::early_start))]
pub fn run(s: &[u8], room: &mut [u8]) -> Ran
    ensures { (result ≡ (run_sheet s.now room.old).ran) × (room.new ≡ (run_sheet s.now room.old).room) }
{
    match checked(s) {
        Ok(found) => {
            let process_home = found.process_home;
            let object_home = found.object_home;
            let opening = Opening {
                nodes: found.nodes as u8,
                processes: found.processes as u8,
                objects: found.objects as u8,
                process_home,
                object_home,
            };
            bench::run_opening(&opening, reader::rest_from(s, 8 * found.start), room)
        }
        Err(refusal) => refused(refusal),
    }
}

// How many bytes of an input of this length to keep: what is kept runs as the whole input does, however long that is.
pub fn kept(total: usize) -> usize
    ensures { result ≡ kept_of total }
{
    if total < 8207 {
        total
    } else {
        8208 - total % 2
    }
}
