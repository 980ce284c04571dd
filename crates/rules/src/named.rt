// Answers and modes by their numbers and in words.
ghost use Rattle.std.specs.Prelude.{◌≡◌, Some};
ghost use Rattle.rules.specs.Answers as Answers;
ghost use Rattle.rules.specs.Words as Words;

use crate::{Answer, Mode};
use std::fmt;

impl Answer {
    // No refusal.
    pub fn is_done(self) -> bool
        ensures { result ≡ Answers.done self }
    {
        self == Answer::Done
    }
}

// The number of an answer, as an answer byte has it.
impl From<Answer> for u8 {
    ghost from_gives = { λ a n. n ≡ Answers.number a };

    fn from(a: Answer) -> u8 {
        match a {
            Answer::Done => 0,
            Answer::CountOutside => 1,
            Answer::HomeOutside => 2,
            Answer::NoProcess => 3,
            Answer::NoObject => 4,
            Answer::NoMode => 5,
            Answer::ProcessWaits => 6,
            Answer::HasReleased => 7,
            Answer::HoldsAlready => 8,
            Answer::HoldsNot => 9,
            Answer::LoadTooHigh => 10,
            Answer::NoMessage => 11,
            Answer::SheetCut => 12,
            Answer::WrongForm => 13,
            Answer::SpareBit => 14,
            Answer::OddByte => 15,
            Answer::TooManyCommands => 16,
            Answer::OutOfShape => 17,
            Answer::RoomTooShort => 18,
        }
    }
}

// The answer of a number, as an answer byte has it; above 17 always the last.
impl From<u8> for Answer {
    ghost from_gives = { λ n a. a ≡ Answers.answer_of n };

    fn from(n: u8) -> Answer {
        match n {
            0 => Answer::Done,
            1 => Answer::CountOutside,
            2 => Answer::HomeOutside,
            3 => Answer::NoProcess,
            4 => Answer::NoObject,
            5 => Answer::NoMode,
            6 => Answer::ProcessWaits,
            7 => Answer::HasReleased,
            8 => Answer::HoldsAlready,
            9 => Answer::HoldsNot,
            10 => Answer::LoadTooHigh,
            11 => Answer::NoMessage,
            12 => Answer::SheetCut,
            13 => Answer::WrongForm,
            14 => Answer::SpareBit,
            15 => Answer::OddByte,
            16 => Answer::TooManyCommands,
            17 => Answer::OutOfShape,
            _ => Answer::RoomTooShort,
        }
    }
}

// The words that the paper's table has for an answer.
impl fmt::Display for Answer {
    ghost output = { λ a. Some (Words.answer_words a) };

    fn fmt<W: fmt::Write>(&self, f: &mut fmt::Formatter<W>) -> fmt::Result {
        f.write_str(match self {
            Answer::Done => "done",
            Answer::CountOutside => "refused: a count outside its limit",
            Answer::HomeOutside => "refused: a home node not below the node count",
            Answer::NoProcess => "refused: no such process",
            Answer::NoObject => "refused: no such object",
            Answer::NoMode => "refused: mode neither 0 nor 1",
            Answer::ProcessWaits => "refused: its home has the process waiting",
            Answer::HasReleased => "refused: the process has released before",
            Answer::HoldsAlready => "refused: its home has it holding that object",
            Answer::HoldsNot => "refused: its home does not have it holding that object",
            Answer::LoadTooHigh => "refused: load above 62 (request) or above 63 (release)",
            Answer::NoMessage => "refused: message number above 63 or not in flight",
            Answer::SheetCut => "refused: sheet ends inside its header or homes",
            Answer::WrongForm => "refused: form is not 1",
            Answer::SpareBit => "refused: a spare bit is set",
            Answer::OddByte => "refused: one byte is left after the last whole command",
            Answer::TooManyCommands => "refused: more than 4,096 commands",
            Answer::OutOfShape => "refused: board out of shape",
            Answer::RoomTooShort => "refused: answer room shorter than the number of commands",
        })
    }
}

impl fmt::Display for Mode {
    ghost output = { λ m. Some (Words.mode_word m) };

    fn fmt<W: fmt::Write>(&self, f: &mut fmt::Formatter<W>) -> fmt::Result {
        f.write_str(match self {
            Mode::Shared => "shared",
            Mode::Exclusive => "exclusive",
        })
    }
}
