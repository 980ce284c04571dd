// What is told on standard error: what failed, a colon, and why, in the system's words.
use arrayvec::ArrayVec;
use std::io::{Error, IsTerminal, Write};

// What failed has been told on standard error, and nothing is left to tell.
#[derive(Clone, Copy, Debug, PartialEq, Eq)]
pub struct Told;

// Standard error: bytes, which need not be text, and whether they come to a terminal. A telling that fails is let be, since there is no other
// place to tell it.
pub trait Errors {
    fn tell(&self, bytes: &[u8]);

    fn at_terminal(&self) -> bool;
}

impl Errors for HostRuntime {
    fn tell(&self, bytes: &[u8]) {
        let _ = Print::write_all(&self.stderr(), bytes);
    }

    fn at_terminal(&self) -> bool {
        self.stderr().is_terminal()
    }
}

// The words of an error, without the number that stands behind them.
fn words(text: &str) -> &str {
    text.split_once(" (os error ")
        .map_or(text, |(words, _)| words)
}

// Writes a line: what failed, as the caller names it, and why.
pub fn failed(rt: &impl Errors, what: &[u8], why: Error) -> Told {
    let mut line: ArrayVec<u8, 320> = ArrayVec::new();
    let _ = write!(line, "{why}");
    rt.tell(what);
    rt.tell(b": ");
    if let Ok(text) = str::from_utf8(line.as_slice()) {
        rt.tell(words(text).as_bytes());
    }
    rt.tell(b"\n");
    Told
}
