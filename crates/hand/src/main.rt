// A board stepped at a terminal: each line of the input is answered at once, until the input ends or says quit.
#![tactic(auto)]

use desk::Follows;
use lines::Lines;
use program::{Errors, Source, Told};
use session::Talk;
use std::io::{Error, IsTerminal, Read};
use undo::Kept;

// Why a session ends before its input: a write failed, which is told already, or a read did.
#[derive(Drop)]
enum Broken {
    Write,
    Read(Error),
}

impl From<Told> for Broken {
    fn from(_told: Told) -> Broken {
        Broken::Write
    }
}

impl From<Error> for Broken {
    fn from(why: Error) -> Broken {
        Broken::Read(why)
    }
}

// The next line. At a terminal it is asked for.
fn asked<I: Read>(
    talk: &Talk<impl Print + Errors>,
    lines: &mut Lines<I>,
    room: &mut [u8; 1000],
) -> Result<Option<usize>, Broken> {
    talk.ask_for_line()?;
    let line = lines.next_line(room);
    if !matches!(line, Ok(Some(_))) {
        let _ = talk.end_line();
    }
    Ok(line?)
}

// Each line is read, answered and done, and its desk put in its place, until the input ends or says quit. A proved loop has to end, so its
// turns are counted, up to a number that no input reaches. No heap: the 65 desks are an array, and a deque would keep them on one.
fn each_line<I: Read + Drop>(mut talk: Talk<impl Print + Errors>, from: I) -> Result<(), Broken> {
    let mut lines = Lines::of(from);
    let mut room = [0u8; 1000];
    let mut past = [desk::closed(); 65];
    let mut kept = Kept {
        top: 0,
        count: 0,
        dropped: false,
    };
    for _ in 0..u64::MAX {
        let Some(count) = asked(&talk, &mut lines, &mut room)? else {
            break;
        };
        let desk = past[undo::place(kept)];
        let acted = session::answered(desk, &room, count);
        kept = undo::one_more(kept, acted.follows == Follows::Change);
        past[undo::place(kept)] = acted.desk;
        talk.answer(&room, count, &desk, &acted, kept)?;
        if acted.follows == Follows::End {
            break;
        }
        kept = undo::one_less(kept, acted.follows == Follows::Undo);
    }
    Ok(())
}

// What --help prints.
const HELP: &str = "hand steps a board by commands, one to a line, and says what each node can
know and what only the whole board shows.

  ./hand            at a terminal: each line is answered as it is typed
  ./hand FILE       the commands in the file, printed with their answers
  ./hand < FILE     the same from standard input, as ./hand - does
  ./hand --help     prints this, as ./hand -h does

The command help lists the commands. open 3 3 2 opens a board of three nodes,
three processes and two objects. exercises/lesson.md is a lesson to type.
The exit status of ./hand is 0, or 1 where something could not be read or
written.
";

fn main(rt: HostRuntime) {
    let mut name = io::buffer();
    let Some(Source { from, named }) = program::start(&rt, HELP.as_bytes(), &mut name) else {
        return;
    };
    let talk = Talk::new(&rt, from.is_terminal());
    if talk.greet().is_err() {
        return;
    }
    if let Err(Broken::Read(why)) = each_line(talk, from) {
        program::read_failed(&rt, named, why);
    }
}
