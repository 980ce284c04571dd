// What is said of an undo.
use std::io::{Result, Write};
use text::Page;
use typed::Typed;
use undo::Kept;

// The command that made the last change, or that no change is kept.
pub fn tell(out: &mut Page, k: Kept, command: Typed) -> Result<()> {
    if k.count != 0 {
        write!(out, "undone: ")?;
        replies::command(out, command);
        writeln!(out)
    } else if k.dropped {
        writeln!(out, "nothing is left to undo: the last 64 changes are kept")
    } else {
        writeln!(out, "nothing to undo")
    }
}
