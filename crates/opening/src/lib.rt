// An opening: counts and homes are tested, books and messages are empty.
#![tactic(auto)]

ghost use Rattle.std.specs.Prelude.{◌≡◌};
ghost use Rattle.rules.specs.Answers.{first_of};
ghost use Rattle.rules.specs.Commands.{homes_of, empty_board, zero_board, opening_tests, opening};

use rules::{Answer, Board, Entries, Flight, Object, Process, Ring, Stepped};
use values::count::count_fits;
use values::homes::home_outside;

// The first `count` homes, and zero past them.
fn homes_of(count: u8, homes: [u8; 16]) -> [u8; 16]
    ensures { result ≡ homes_of count homes }
{
    let n = usize::from(count.min(16));
    let mut kept = [0; 16];
    kept[..n].copy_from_slice(&homes[..n]);
    kept
}

// What an opening is given: its counts, and the homes of the processes and of the objects. Homes past the counts are ignored; they are
// given as rows of 16, as a sheet's are, and as the definition `opening` takes them.
#[derive(Clone, Copy, PartialEq, Eq, Default)]
pub struct Opening {
    pub nodes: u8,
    pub processes: u8,
    pub objects: u8,
    pub process_home: [u8; 16],
    pub object_home: [u8; 16],
}

impl Opening {
    // The answer to the opening: its tests in their order.
    pub fn answer(&self) -> Answer
        ensures { result ≡ first_of (opening_tests self.now.nodes self.now.processes self.now.objects self.now.process_home self.now.object_home) }
    {
        if !count_fits(self.nodes, 8)
            || !count_fits(self.processes, 16)
            || !count_fits(self.objects, 16)
        {
            return Answer::CountOutside;
        }
        let nodes = usize::from(self.nodes);
        if home_outside(self.process_home, usize::from(self.processes), nodes)
            || home_outside(self.object_home, usize::from(self.objects), nodes)
        {
            return Answer::HomeOutside;
        }
        Answer::Done
    }

    // The board of an opening that is not refused: empty books, and no message.
    pub fn board(&self) -> Board
        ensures { result ≡ empty_board self.now.nodes self.now.processes self.now.objects (homes_of self.now.processes self.now.process_home) (homes_of self.now.objects self.now.object_home) }
    {
        let kept = Opening {
            process_home: homes_of(self.processes, self.process_home),
            object_home: homes_of(self.objects, self.object_home),
            ..*self
        };
        kept.empty_board()
    }

    // "An opening has empty books and no message." Its homes are kept as they are given.
    fn empty_board(&self) -> Board
        ensures { result ≡ empty_board self.now.nodes self.now.processes self.now.objects self.now.process_home self.now.object_home }
    {
        Board {
            nodes: self.nodes,
            process_count: self.processes,
            object_count: self.objects,
            process_home: self.process_home,
            object_home: self.object_home,
            processes: [Process::default(); 16],
            objects: [Object::default(); 16],
            occupied: 0,
            flights: [Flight::default(); 64],
            lists: [Entries::default(); 64],
            rings: [Ring::default(); 16],
        }
    }

    // The opening's answer and its board, the board of zeros where it is refused.
    pub fn open(&self) -> Stepped
        ensures { result ≡ opening self.now.nodes self.now.processes self.now.objects self.now.process_home self.now.object_home }
    {
        let answer = self.answer();
        if answer != Answer::Done {
            return Stepped {
                answer,
                board: zero_board(),
            };
        }
        Stepped {
            answer,
            board: self.board(),
        }
    }
}

// The board of zeros, which a refused opening hands back.
pub fn zero_board() -> Board
    ensures { result ≡ zero_board }
{
    Opening::default().empty_board()
}
