// What is said in a session: a greeting and a prompt to who types, and the answer to each line.
use crate::{echo, hears, undone};
use desk::{Acted, Desk, Follows};
use journeys::follow::{self, print};
use program::{Errors, Told, write};
use text::Page;
use typed::{Typed, Verb};
use undo::Kept;

// What a line did to the desk, or what is wrong with it.
fn understood(out: &mut Page, desk: &Desk, t: &Typed, acted: &Acted, kept: Kept) {
    if !asked::line::is_whole(*t) {
        return replies::fault::tell(out, *t);
    }
    told::tell(out, desk, t, acted);
    if acted.follows == Follows::Undo {
        let _full = undone::tell(out, kept, acted.desk.command);
    }
}

// What the words go to, whether the lines are typed at a terminal, and the page that is written next.
#[derive(Drop)]
pub struct Talk<'a, R> {
    rt: &'a R,
    typing: bool,
    out: Page,
}

impl<'a, R: Print + Errors> Talk<'a, R> {
    pub fn new(rt: &'a R, typing: bool) -> Talk<'a, R> {
        Talk {
            rt,
            typing,
            out: Page::new(),
        }
    }

    // Words for who types, which stand in no transcript.
    fn aside(&self, words: &[u8]) -> Result<(), Told> {
        if self.typing {
            write(self.rt, words)
        } else {
            Ok(())
        }
    }

    pub fn greet(&self) -> Result<(), Told> {
        self.aside(b"A board to step by hand. help shows the commands; open 3 3 2 opens a board.\n")
    }

    pub fn ask_for_line(&self) -> Result<(), Told> {
        self.aside(b"> ")
    }

    // The end of the input ends the line that was asked for.
    pub fn end_line(&self) -> Result<(), Told> {
        self.aside(b"\n")
    }

    // The answer to a line is written, and the line itself before it where it was not typed. A page that is full is printed as far as it
    // goes.
    pub fn answer(
        &mut self,
        room: &[u8; 1000],
        count: usize,
        desk: &Desk,
        acted: &Acted,
        kept: Kept,
    ) -> Result<(), Told> {
        let t = hears(room, count);
        let out = &mut self.out;
        if !self.typing {
            let _full = echo::tell(out, room, count, t.verb == Verb::Blank);
        }
        if room.len() < count {
            replies::fault::too_long(out);
            return print(self.rt, out);
        }
        if t.verb == Verb::Follow {
            follow::tell(self.rt, out, desk, acted.made)?;
        }
        understood(out, desk, &t, acted, kept);
        print(self.rt, out)
    }
}
