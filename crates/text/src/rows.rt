// Several things in a row, parted by commas, and lines that go on below where they would grow too wide. What does not fit the page is cut.
ghost use Rattle.std.specs.Iterator.{IsFinite};

use crate::Page;
use std::io::{Result, Write};

// How many bytes stand on the last line.
fn column(out: &Page) -> usize {
    out.iter()
        .rev()
        .position(|byte| *byte == b'\n')
        .unwrap_or(out.len())
}

// Puts a thing behind a blank; below, where it would not end before the last column of this line. It is put once to see where it ends.
pub fn on_or_below<T: Copy, F: Fn(&mut Page, T) -> Result<()>>(
    out: &mut Page,
    last: usize,
    thing: T,
    put: F,
) -> Result<()>
    requires { F.IsAlwaysCallable put }
{
    let mark = out.len();
    put(out, thing)?;
    let width = column(out);
    let fits = width < last && out.len().saturating_sub(mark) <= width;
    out.truncate(mark);
    out.write_all(if fits { b" " } else { b"\n      " })?;
    put(out, thing)
}

// Things in a row, each put by itself, none past the last column.
pub fn row<I: Iterator + Drop, F: Fn(&mut Page, I::Item) -> Result<()>>(
    out: &mut Page,
    last: usize,
    mut things: I,
    put: F,
) -> Result<()>
where
    I::Item: Copy,
    requires can { I.can_next things }
    requires ends { IsFinite (I.remaining things) }
    requires puts { F.IsAlwaysCallable put }
{
    let Some(first) = things.next() else {
        return Ok(());
    };
    put(out, first)?;
    for thing in things {
        out.write_all(b",")?;
        on_or_below(out, last, thing, &put)?;
    }
    Ok(())
}

// The numbers of processes, or of objects, in a row, each behind its letter.
pub fn numbers<I: Iterator<Item = u8> + Drop>(
    out: &mut Page,
    last: usize,
    letter: char,
    things: I,
) -> Result<()>
    requires can { I.can_next things }
    requires ends { IsFinite (I.remaining things) }
{
    row(out, last, things, |out, k| write!(out, "{letter}{k}"))
}
