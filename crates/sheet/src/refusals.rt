// The refusals of a sheet, by its length and what the pass over it found: no byte of it is read here.
ghost use Rattle.std.specs.Prelude.{◌≡◌, ◌≤◌, true, false, MatchResult};
ghost use Rattle.sheet.specs.Refusals.{Tells, part_tests, sheet_tests};

use reader::Found;
use rules::Answer;
use values::homes::home_outside;

// Refused with this answer where the test holds.
fn refuse_if(test: bool, answer: Answer) -> Result<(), Answer>
    ensures { MatchResult result (λ _. test ≡ false) (λ a. (a ≡ answer) × (test ≡ true)) }
{
    if test { Err(answer) } else { Ok(()) }
}

// The refusals in order, of the commands alone: they have so many bytes, and a spare bit is set in one of them or in none.
#[tactic(auto, unfolding(rules::specs::Answers::first_of))]
fn test_part(bytes: usize, spare: bool) -> Result<(), Answer>
    ensures { Tells result (part_tests bytes spare) }
{
    refuse_if(bytes % 2 == 1, Answer::OddByte)?;
    refuse_if(4096 < bytes / 2, Answer::TooManyCommands)?;
    refuse_if(spare, Answer::SpareBit)
}

// The refusals in order, of a sheet of so many bytes.
#[tactic(auto, unfolding(rules::specs::Answers::first_of))]
pub fn test_sheet(bytes: usize, h: &Found) -> Result<(), Answer>
    requires { (h.now.processes ≤ 16) × (h.now.objects ≤ 16) }
    ensures { Tells result (sheet_tests bytes h.now) }
{
    refuse_if(bytes < 2, Answer::SheetCut)?;
    refuse_if(h.form != 1, Answer::WrongForm)?;
    refuse_if(h.spare != 0, Answer::SpareBit)?;
    refuse_if(bytes < h.start, Answer::SheetCut)?;
    refuse_if(
        home_outside(h.process_home, h.processes, h.nodes),
        Answer::HomeOutside,
    )?;
    refuse_if(
        home_outside(h.object_home, h.objects, h.nodes),
        Answer::HomeOutside,
    )?;
    refuse_if(h.homes_spare != 0, Answer::SpareBit)?;
    test_part(bytes - h.start, h.commands_spare)
}
