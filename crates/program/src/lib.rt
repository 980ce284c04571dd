// What every program does with its argument, its input and its output. A program takes one argument at most; what fails is told on standard
// error, and nothing else is. What an argument is taken for is an equation with its definition in specs/.
#![tactic(auto)]

ghost use Rattle.std.specs.Prelude.{◌≡◌, ◌≢◌, ◌<◌, [], length, take, IfOk, IfErr, MatchResult, Ok};
ghost use Rattle.io.specs.Counts.{IsPrefixLen};
ghost use Rattle.std.specs.IoError.{error_kind};
ghost use Rattle.std.specs.Io.KnownBytes.{Consumes, IsAtEnd};
ghost use Rattle.rules.specs.Tables.{either};
ghost use Rattle.text.specs.Text.{bytes};
ghost use Rattle.program.specs.Argument.{is, argument_of};

use std::env::{Env, FillError};
use std::fs;
use std::fs::Files;
use std::io::{Error, ErrorKind, IsTerminal};

mod told;

pub use told::{Errors, Told, failed};

// What an argument is taken for.
#[derive(Clone, Copy, PartialEq, Eq)]
pub enum Argument {
    Help,
    StandardInput,
    File,
    Unknown,
}

// Where the bytes come from: standard input, or a file that was opened.
#[derive(Drop)]
pub enum Origin<S, F> {
    StandardInput(S),
    File(F),
}

// What a program reads, and the name of the file that it is; standard input has no name.
#[derive(Drop)]
pub struct Source<'a, S, F> {
    pub from: Origin<S, F>,
    pub named: Option<&'a [u8]>,
}

impl<S: std::io::Read, F: std::io::Read> std::io::Read for Origin<S, F> {
    fn read(&mut self, buf: &mut [u8]) -> std::io::Result<usize> {
        match self {
            Origin::StandardInput(input) => input.read(buf),
            Origin::File(file) => file.read(buf),
        }
    }
}

impl<S: IsTerminal, F: IsTerminal> IsTerminal for Origin<S, F> {
    fn is_terminal(&self) -> bool {
        match self {
            Origin::StandardInput(input) => input.is_terminal(),
            Origin::File(file) => file.is_terminal(),
        }
    }
}

fn asks_for_help(word: &[u8]) -> bool
    ensures { result ≡ either (is word.now (bytes "--help")) (is word.now (bytes "-h")) }
{
    word == b"--help".as_slice() || word == b"-h".as_slice()
}

// What a word is taken for that is a program's argument.
pub fn argument_of(word: &[u8]) -> Argument
    ensures { result ≡ argument_of word.now }
{
    if asks_for_help(word) {
        Argument::Help
    } else if word == b"-".as_slice() {
        Argument::StandardInput
    } else if word.starts_with(b"-") {
        Argument::Unknown
    } else {
        Argument::File
    }
}

fn refused(rt: &impl Errors, why: &[u8], word: &[u8]) {
    rt.tell(why);
    rt.tell(word);
    rt.tell(b" (--help says what is taken)\n");
}

fn standard_input<'a, R: Files + Input>(rt: &R) -> Source<'a, R::Reader, R::File> {
    Source {
        from: Origin::StandardInput(rt.reader()),
        named: None,
    }
}

// The file that has this name. A name that is no text (UTF-8) names no file here: it is told that the name is not one.
pub fn file_of<R: Files>(rt: &R, name: &[u8]) -> std::io::Result<R::File> {
    let path = str::from_utf8(name).map_err(|_| Error::from(ErrorKind::InvalidFilename))?;
    fs::open(rt, path)
}

fn opened<'a, R: Files + Input + Errors>(
    rt: &R,
    name: &'a [u8],
) -> Option<Source<'a, R::Reader, R::File>> {
    match file_of(rt, name) {
        Ok(file) => Some(Source {
            from: Origin::File(file),
            named: Some(name),
        }),
        Err(why) => {
            failed(rt, name, why);
            None
        }
    }
}

// What the one argument comes to: the help is shown, a file is opened, or it is told what is wrong.
fn taken<'a, R: Files + Input + Print + Errors>(
    rt: &R,
    word: &'a [u8],
    help: &[u8],
) -> Option<Source<'a, R::Reader, R::File>> {
    match argument_of(word) {
        Argument::Help => {
            let _ = write(rt, help);
            None
        }
        Argument::StandardInput => Some(standard_input(rt)),
        Argument::File => opened(rt, word),
        Argument::Unknown => {
            refused(rt, b"no such argument: ", word);
            None
        }
    }
}

// Whether there is a second argument, of any length.
fn has_second(rt: &impl Env) -> bool {
    !matches!(rt.arg(2, &mut [0u8; 1]), Err(FillError::NotPresent))
}

// What the program reads. A program that has ended has nothing to read, and has said why or shown its help. A file's name is put into the
// lent room.
pub fn start<'a, R: Env + Files + Input + Print + Errors>(
    rt: &R,
    help: &[u8],
    room: &'a mut [u8; 4096],
) -> Option<Source<'a, R::Reader, R::File>> {
    match rt.arg(1, room) {
        Err(FillError::NotPresent) => Some(standard_input(rt)),
        _ if has_second(rt) => {
            refused(rt, b"one file at most", b"");
            None
        }
        Ok(n) => taken(rt, &room[..n], help),
        Err(_) => {
            rt.tell(b"the argument: File name too long\n");
            None
        }
    }
}

// All of it on standard output. Where that fails it is told.
pub fn write(rt: &(impl Print + Errors), bytes: &[u8]) -> Result<(), Told> {
    rt.write_all(bytes)
        .map_err(|why| failed(rt, b"standard output", why))
}

// One read, of as many bytes as there are, up to the piece's length. One that a signal broke off is tried again; a proved loop has to end,
// so the tries are counted. Of a reader whose bytes are known, those that were read stand in the piece, in their order, and no byte says
// that none is left; a read that failed took none.
pub fn read_some<R: std::io::Read>(from: &mut R, piece: &mut [u8]) -> std::io::Result<usize>
    ensures within { IfOk result (λ count. IsPrefixLen count piece.new) }
    ensures bytes { MatchResult result (λ count. Consumes (R.remaining from.old) (R.remaining from.new) (take count piece.new)) (λ _. Consumes (R.remaining from.old) (R.remaining from.new) []) }
    ensures retried { IfErr result (λ why. error_kind why ≢ ErrorKind.Interrupted) }
    ensures end { result ≡ Ok 0 → 0 < length piece.old → IsAtEnd (R.remaining from.new) }
{
    for _ in 0..u64::MAX {
        match from.read(piece) {
            Err(why) if why.kind() == ErrorKind::Interrupted => {}
            read => return read,
        }
    }
    Err(Error::from(ErrorKind::TimedOut))
}

// Tells why the last read failed, under the name that `start` found for what is read.
pub fn read_failed(rt: &impl Errors, named: Option<&[u8]>, why: Error) -> Told {
    failed(rt, named.unwrap_or(b"standard input"), why)
}
