// Reads a stream of sheets to its end, piece by piece, into a chart. A piece is let go when it is taken in: a stream may have any length.
#![tactic(auto)]

ghost use Rattle.std.specs.Prelude.{◌≡◌, List, ℕ, replicate, IsOk};
ghost use Rattle.std.specs.Io.KnownBytes.{Consumes, IsAtEnd};
ghost use Rattle.stream.specs.Pieces.{chart_of};
ghost use Rattle.stream.specs.Read.{chart_read};

use program::{Errors, read_some};
use screen::Screen;
use std::io::{Error, ErrorKind, Write};
use std::rt::Clock;
use std::time::CpuClock;
use term::Chart;

pub mod screen;

// A read failed: the chart of what had come, and why it failed. The end of the stream was not read. A type of its own, as input has one:
// what had come differs, and the definition `chart_read` takes it.
#[derive(Clone, Copy)]
pub struct Broken {
    pub chart: Chart,
    pub why: Error,
}

// The buffer for one sheet, empty.
fn no_sheet() -> [u8; 8206]
    ensures { result ≡ replicate 8206 0 }
{
    [0; 8206]
}

// Until the stream ends or a read fails, with a count on the terminal. A proved loop has to end, so it counts its turns, up to a number that
// no stream reaches; one that did would count as failed, since its end was not read. A loop of its own, as input has one: what a piece does
// to what was lent stands in each contract (`Pieces`, `chart_of`).
fn taken_in<R: Errors + Clock + CpuClock, F: Write, I: std::io::Read>(
    rt: &R,
    from: &mut I,
    screen: &mut Screen<F>,
) -> Result<Chart, Broken>
    ensures pieces { (w : List ℕ) × (chart_read result ≡ chart_of w) × Consumes (I.remaining from.old) (I.remaining from.new) w }
    ensures end { IsOk result → IsAtEnd (I.remaining from.new) }
{
    let mut piece = io::large_buffer();
    let mut sheet = no_sheet();
    let mut chart = term::new();
    for _ in 0..usize::MAX {
        match read_some(from, &mut piece) {
            Ok(0) => return Ok(chart),
            Ok(n) => chart = term::feed(chart, &mut sheet, &piece[..n]),
            Err(why) => return Err(Broken { chart, why }),
        }
        screen::counted(rt, screen, chart.totals.sheets);
    }
    Err(Broken {
        chart,
        why: Error::from(ErrorKind::FileTooLarge),
    })
}

// The chart of the stream. The contract says that pieces were taken in and nothing else was done; of a reader whose bytes are known (no file
// is one) also that they were those bytes, and, where no read failed, all of them. What it says of a failure is not proved but tested. The
// count on the terminal is gone before anything else is told.
pub fn whole<R: Errors + Clock + CpuClock, F: Write + Drop, I: std::io::Read>(
    rt: &R,
    from: &mut I,
    terminal: Screen<F>,
) -> Result<Chart, Broken>
    ensures pieces { (w : List ℕ) × (chart_read result ≡ chart_of w) × Consumes (I.remaining from.old) (I.remaining from.new) w }
    ensures end { IsOk result → IsAtEnd (I.remaining from.new) }
{
    let mut screen = terminal;
    let read = taken_in(rt, from, &mut screen);
    screen::cleared(rt, &mut screen);
    read
}

#[cfg(test)]
mod tests {
    use super::whole;
    use crate::screen::{Moment, Outlet, Screen};
    use std::fs::File;
    use std::io::{Error, ErrorKind, Result};

    // Gives a zero byte at each of its first reads: a length of 0 and so an empty sheet after two, and half a length after the third. It fails
    // at the fourth, or ends there.
    #[derive(Drop)]
    struct Faulty {
        turn: u8,
        fails: bool,
    }

    impl std::io::Read for Faulty {
        fn read(&mut self, buf: &mut [u8]) -> Result<usize> {
            self.turn = self.turn.saturating_add(1);
            if self.turn > 3 && self.fails {
                return Err(Error::from(ErrorKind::ConnectionReset));
            }
            if self.turn > 3 || buf.is_empty() {
                return Ok(0);
            }
            buf[0] = 0;
            Ok(1)
        }
    }

    fn no_terminal() -> Screen<File> {
        Screen {
            terminal: Outlet::Nowhere,
            shown: 0,
            counted: Moment::default(),
        }
    }

    #[test]
    fn a_failure_is_handed_on(rt: HostRuntime) {
        let mut from = Faulty {
            turn: 0,
            fails: true,
        };
        match whole(&rt, &mut from, no_terminal()) {
            Ok(_) => assert!(rt; false),
            Err(broken) => {
                assert_eq!(rt; broken.chart.totals.sheets, 1);
                assert!(rt; broken.why.kind() == ErrorKind::ConnectionReset);
            }
        }
    }

    #[test]
    fn an_end_is_no_failure(rt: HostRuntime) {
        let mut from = Faulty {
            turn: 0,
            fails: false,
        };
        match whole(&rt, &mut from, no_terminal()) {
            Ok(chart) => {
                assert_eq!(rt; chart.totals.sheets, 1);
                assert_eq!(rt; term::ended(chart).totals.sheets, 2);
            }
            Err(_) => assert!(rt; false),
        }
    }
}
