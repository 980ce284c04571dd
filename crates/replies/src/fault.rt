// What is said of a line that is no whole command: what is wrong with it, and what was expected. It changes nothing.
use crate::verb::expected;
use asked::line::{most, with_homes};
use std::io::{Result, Write};
use text::Page;
use typed::{Typed, Verb};
use words::counted;

// What a word of a command was to be; a request and a release name a process and then an object.
fn wanted(verb: Verb, place: usize) -> &'static str {
    match verb {
        Verb::Request if place == 3 => "mode",
        Verb::Request | Verb::Release if place == 1 => "process",
        Verb::Request | Verb::Release => "object",
        _ => "number",
    }
}

// How many words came after a verb.
fn number_of_words(out: &mut Page, verb: Verb, count: usize) -> Result<()> {
    if count == 0 {
        return writeln!(out, "nothing after {verb}");
    }
    let words = counted(count, "word", "words");
    writeln!(out, "{count} {words} after {verb}")
}

// The first odd word; where each is understood, how many they are. Of an opening whose homes are too few or too many it is said how many
// its counts want.
fn fault(out: &mut Page, t: Typed) -> Result<()> {
    let verb = t.verb;
    write!(out, "not understood: ")?;
    if let Some(place) = t.odd.filter(|place| *place <= most(verb)) {
        let wanted = wanted(verb, place);
        return writeln!(out, "word {place} after {verb} is no {wanted}");
    }
    if verb == Verb::Open && t.odd.is_none() && 3 < t.count {
        return writeln!(
            out,
            "{} numbers after open; for these counts 3, or {} with homes",
            t.count,
            with_homes(t.numbers)
        );
    }
    number_of_words(out, verb, t.count)
}

// An empty line and a comment are passed over in silence.
pub fn tell(out: &mut Page, t: Typed) {
    let _full = put(out, t);
}

fn put(out: &mut Page, t: Typed) -> Result<()> {
    match t.verb {
        Verb::Blank => Ok(()),
        Verb::Unknown => writeln!(
            out,
            "not understood: no command has this name
  expected open, request, release, deliver, drain, follow, show, messages,
  waits, rings, undo, help or quit; help explains them"
        ),
        verb => {
            fault(out, t)?;
            expected(out, verb)
        }
    }
}

pub fn too_long(out: &mut Page) {
    let _full = writeln!(
        out,
        "not understood: a line of more than 1000 bytes
  expected a command; help explains them"
    );
}
