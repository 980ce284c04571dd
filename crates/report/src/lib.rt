// Runs a packed sheet and prints each command's answer, the objects, the rings and the counts. What a program prints for a sheet is here alone.
#![tactic(auto)]

ghost use Rattle.std.specs.Prelude.{◌≡◌, ◌≤◌, take};
ghost use Rattle.arrayvec.specs.ArrayVec.{array_vec_len};
ghost use Rattle.sheet.specs.Kept.{kept_of};
ghost use Rattle.printed.specs.Lines.{printed_sheet};

use program::{Errors, Told, write};
use rules::Ran;
use text::{Page, start};

mod lines;

// Runs the sheet of which the first bytes are given, and the length of the whole: what is printed for it is on the page then, and nothing
// else. No sheet that is accepted has more than 8,206 bytes, so 8,208 first bytes always do.
pub fn composed(out: &mut Page, first: &[u8], whole: usize)
    ensures { (out.new.items ≡ printed_sheet (take (kept_of whole) first.now)) × (array_vec_len out.new ≤ 65536) }
{
    let mut answers = [0u8; 4096];
    let ran = sheet::run(start(first, sheet::kept(whole)), &mut answers);
    lines::report(out, &ran, &answers);
}

// Prints that. Where it could not be written it has been told.
pub fn show(rt: &(impl Print + Errors), first: &[u8], whole: usize) -> Result<(), Told> {
    let mut out = Page::new();
    composed(&mut out, first, whole);
    write(rt, out.as_slice())
}

// For a sheet that was run in two ways: prints what came of the second, and a line if the first would print something else. A write that
// fails is told.
pub fn show_both(
    rt: &(impl Print + Errors),
    first: Ran,
    first_room: &[u8; 4096],
    second: Ran,
    second_room: &[u8; 4096],
) {
    let mut one = Page::new();
    lines::report(&mut one, &first, first_room);
    let mut other = Page::new();
    lines::report(&mut other, &second, second_room);
    let _ = write(rt, other.as_slice());
    if one != other {
        let _ = write(rt, b"the two ways differ\n");
    }
}
