// What is answered to a typed line, in words: the answers of a board, a command in its long form, what is wrong with a line that is not
// understood, and the help.
#![tactic(auto)]

pub mod fault;
pub mod help;
mod verb;

use rules::Answer;
use std::io::{Result, Write};
use text::Page;
use text::rows::on_or_below;
use typed::{Typed, asks_mode};
use values::mode::mode_if;

// The number of an answer and its words; the line goes on.
pub fn answer(out: &mut Page, a: Answer) {
    let _full = write!(out, "{} {a}", u8::from(a));
}

fn number(out: &mut Page, n: u16) -> Result<()> {
    write!(out, "{n}")
}

// A command that was done, in its long form.
pub fn command(out: &mut Page, t: Typed) {
    let _full = put(out, t);
}

fn put(out: &mut Page, t: Typed) -> Result<()> {
    write!(out, "{}", t.verb)?;
    for (before, n) in t.numbers.iter().take(t.count).enumerate() {
        if asks_mode(t.verb, before) {
            let mode = mode_if(*n == 1);
            write!(out, " {mode}")?;
        } else {
            on_or_below(out, 100, *n, number)?;
        }
    }
    Ok(())
}
