// A count on the terminal while a program goes on: one line, written over itself about ten times a second at most, and gone at the end.
// Where standard error is no terminal nothing is written.
ghost use Rattle.std.specs.Prelude.{◌≡◌, ◌∷◌, ◌++◌, ◌≤◌};
ghost use Rattle.arrayvec.specs.ArrayVec.{array_vec_len};
ghost use Rattle.text.specs.Text.{bytes, decimal};

use program::Errors;
use std::fs;
use std::fs::{Files, OpenOptions};
use std::io::{IsTerminal, Write};
use std::os::unix::fs::FileTypeExt;
use std::rt::Clock;
use std::time::CpuClock;
use text::Page;

// Where the count is written: to standard error, to the terminal that a script handed on, or nowhere.
#[derive(Drop)]
pub enum Outlet<F> {
    StandardError,
    Handed(F),
    Nowhere,
}

// When it was: in eighths of a second of the processor, and in seconds of the clock, which goes on while a read waits.
#[derive(Clone, Copy, Default, PartialEq, Eq)]
pub struct Moment {
    pub eighth: u64,
    pub second: u64,
}

// The terminal; how many letters stand there; and when the last count was written.
#[derive(Drop)]
pub struct Screen<F> {
    pub terminal: Outlet<F>,
    pub shown: usize,
    pub counted: Moment,
}

// A script that takes standard error in hands its terminal on as 9. Only a device is opened: a pipe would wait for its other end.
const HANDED: &str = "/dev/fd/9";

fn is_device(rt: &impl Files) -> bool {
    fs::metadata(rt, HANDED).is_ok_and(|file| file.file_type().is_char_device())
}

fn handed<R: Files>(rt: &R) -> Outlet<R::File>
where
    R::File: IsTerminal,
{
    if !is_device(rt) {
        return Outlet::Nowhere;
    }
    match OpenOptions::new().write(true).open(rt, HANDED) {
        Ok(file) if file.is_terminal() => Outlet::Handed(file),
        _ => Outlet::Nowhere,
    }
}

fn terminal<R: Files + Errors>(rt: &R) -> Outlet<R::File>
where
    R::File: IsTerminal,
{
    if rt.at_terminal() {
        return Outlet::StandardError;
    }
    handed(rt)
}

// A clock that cannot be read stands still.
fn eighth(rt: &impl CpuClock) -> u64 {
    rt.process_cpu_time().map_or(0, |time| {
        let part = u64::from(time.subsec_nanos() / 125_000_000);
        time.as_secs().wrapping_mul(8).wrapping_add(part)
    })
}

fn now<R: Clock + CpuClock>(rt: &R) -> Moment {
    Moment {
        eighth: eighth(rt),
        second: rt.since_1970().map_or(0, |time| time.as_secs()),
    }
}

// To be asked before any file is opened, whose descriptor may be 9.
pub fn found<R: Files + Errors + Clock + CpuClock>(rt: &R) -> Screen<R::File>
where
    R::File: IsTerminal,
{
    Screen {
        terminal: terminal(rt),
        shown: 0,
        counted: now(rt),
    }
}

// From the start of the line on.
fn line(out: &mut Page, sheets: u64)
    ensures { (out.new.items ≡ (13 ∷ bytes "sheets ") ++ decimal sheets) × (array_vec_len out.new ≤ 65536) }
{
    out.clear();
    text::word(out, b"\rsheets ");
    text::number(out, sheets);
}

// A write that fails is let be: the count is no part of what the program has to tell.
fn write<F: Write>(rt: &impl Errors, terminal: &mut Outlet<F>, bytes: &[u8]) {
    match terminal {
        Outlet::StandardError => rt.tell(bytes),
        Outlet::Handed(file) => {
            let _ = file.write_all(bytes);
        }
        Outlet::Nowhere => {}
    }
}

// Handed back is how many letters stand there then.
fn show<F: Write>(rt: &impl Errors, terminal: &mut Outlet<F>, sheets: u64) -> usize {
    let mut out = Page::new();
    line(&mut out, sheets);
    write(rt, terminal, out.as_slice());
    out.len()
}

// The count, if it is time for it.
pub fn counted<R: Errors + Clock + CpuClock, F: Write>(
    rt: &R,
    screen: &mut Screen<F>,
    sheets: u64,
) {
    if matches!(screen.terminal, Outlet::Nowhere) {
        return;
    }
    let moment = now(rt);
    if moment != screen.counted {
        screen.shown = show(rt, &mut screen.terminal, sheets);
        screen.counted = moment;
    }
}

// The count is gone, and the next text starts where it stood. It has 28 letters at most, of which the first goes to the line's start.
pub fn cleared<F: Write>(rt: &impl Errors, screen: &mut Screen<F>) {
    if screen.shown != 0 {
        let blank = text::start(b"\r                           ", screen.shown);
        write(rt, &mut screen.terminal, blank);
        write(rt, &mut screen.terminal, b"\r");
    }
}
