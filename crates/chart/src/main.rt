// Reads a stream of sheets and prints its chart: how many sheets ran, how many were refused, and the rings that were recorded.
#![tactic(auto)]

ghost use Rattle.std.specs.Prelude.{◌≡◌, ◌≤◌};
ghost use Rattle.arrayvec.specs.ArrayVec.{array_vec_len};
ghost use Rattle.term.specs.Feed.{ended};
ghost use Rattle.charted.specs.Lines.{chart_lines};

use program::{Errors, Source, Told};
use stream::screen;
use term::Chart;
use text::Page;

// What --help prints.
const HELP: &str = "chart runs every sheet of a stream and prints how many came to what.

  ./chart FILE      reads the stream in the file
  ./chart < FILE    reads the stream on standard input, as ./chart - does
  ./chart --help    prints this, as ./chart -h does

A stream is packed sheets one after another, each behind its length in bytes:
two bytes, the higher one first. A sheet of more than 8,206 bytes is skipped
and counts as refused with 16. A stream that ends inside a length or a sheet
counts that sheet as refused with 12. This makes a stream of sheets:

  for sheet in exercises/*.sheet; do
    n=$(wc -c < \"$sheet\")
    printf \"\\\\$(printf %03o $((n / 256)))\\\\$(printf %03o $((n % 256)))\"
    cat \"$sheet\"
  done > term.stream

(No length says more than 65,535 bytes: a larger file is no sheet.)

It prints 25 lines, always all of them:

  sheets N          how many sheets there were
  ran N             how many of them ran
  refused N         how many of them were refused
  refused A N       how many with answer A, which is 2, 12, 13, 14, 15 or 16
  ringed N          how many ended with at least one recorded ring
  rings L N         how many recorded rings have L processes, L from 2 to 16

docs/SHEET.md explains the form of a packed sheet, and the answers in words.
At a terminal the sheets are counted on standard error while the stream is
read; nothing of that stays. Where a read fails no line is printed.
The exit status of ./chart is 0, or 1 where something could not be read or
written, or an argument is wrong; that is told on standard error.
";

// The stream has ended: the lines of its chart, and nothing else on the page.
fn composed(out: &mut Page, chart: Chart)
    ensures { (out.new.items ≡ chart_lines (ended chart).totals) × (array_vec_len out.new ≤ 65536) }
{
    charted::composed(out, term::ended(chart).totals);
}

fn show(rt: &(impl Print + Errors), chart: Chart) -> Result<(), Told> {
    let mut out = Page::new();
    composed(&mut out, chart);
    program::write(rt, out.as_slice())
}

fn main(rt: HostRuntime) {
    let terminal = screen::found(&rt);
    let mut name = io::buffer();
    let Some(Source { mut from, named }) = program::start(&rt, HELP.as_bytes(), &mut name) else {
        return;
    };
    let _ = match stream::whole(&rt, &mut from, terminal) {
        Ok(chart) => show(&rt, chart),
        Err(broken) => Err(program::read_failed(&rt, named, broken.why)),
    };
}
