// Runs the sheets that the file `names` lists, one name to a line, and prints under each name what `board` prints for that sheet.
#![tactic(auto)]

ghost use Rattle.std.specs.Prelude.{◌≡◌, length};

use program::{Errors, Told, failed, file_of, write};
use std::fs::Files;

// How a sheet is run: all its commands in one call, or each by a call of its own. An enum, since a program says which and hands no
// function in.
#[derive(Clone, Copy, PartialEq, Eq)]
pub enum Way {
    AtOnce,
    BySteps,
}

fn heading(rt: &(impl Print + Errors), name: &[u8]) -> Result<(), Told> {
    write(rt, b"== ")?;
    write(rt, name)?;
    write(rt, b"\n")
}

// How many bytes a file has, of which the first are put into the lent buffer. What fails is told under its name.
fn bytes_of<R: Files + Errors>(rt: &R, name: &[u8], bytes: &mut [u8; 65536]) -> Result<usize, Told>
    ensures { 65536 ≡ length bytes.new }
{
    let read = match file_of(rt, name) {
        Ok(mut file) => input::whole(&mut file, bytes).map_err(|broken| broken.why),
        Err(why) => Err(why),
    };
    read.map_err(|why| failed(rt, name, why))
}

// One sheet under its name. A file that could not be read is told, and passed over; it is an error that the name or what came of the sheet
// could not be written.
fn sheet<R: Files + Print + Errors>(rt: &R, name: &[u8], way: Way) -> Result<(), Told> {
    heading(rt, name)?;
    let mut bytes = io::large_buffer();
    let Ok(count) = bytes_of(rt, name, &mut bytes) else {
        return Ok(());
    };
    match way {
        Way::AtOnce => report::show(rt, &bytes, count),
        Way::BySteps => {
            steps::show(rt, text::start(&bytes, sheet::kept(count)));
            Ok(())
        }
    }
}

// The names stand on lines; the last line may lack its end.
fn every_sheet<R: Files + Print + Errors>(rt: &R, names: &[u8], way: Way) -> Result<(), Told> {
    for line in names.split_inclusive(|byte| *byte == b'\n') {
        sheet(rt, line.strip_suffix(b"\n").unwrap_or(line), way)?;
    }
    Ok(())
}

// Every sheet that `names` lists, in its order, until one could not be written.
pub fn show<R: Files + Print + Errors>(rt: &R, way: Way) {
    let mut names = io::large_buffer();
    let _ = bytes_of(rt, b"names", &mut names).and_then(|count| every_sheet(
        rt,
        text::start(&names, count),
        way,
    ));
}
