// Where the input is no terminal each command is printed before its answer, so that a session kept in a file reads as a transcript. A typed
// line may hold bytes that are no text.
use std::io::{Result, Write};
use text::{Page, start};

// The line that was read. One with no command, which is empty or a comment, stands as it is. One that is longer than the room is known by
// its first bytes.
pub fn tell(out: &mut Page, room: &[u8], count: usize, blank: bool) -> Result<()> {
    if room.len() < count {
        write!(out, "> ")?;
        out.write_all(start(room, 60))?;
        return writeln!(out, " ...");
    }
    if !blank {
        write!(out, "> ")?;
    }
    out.write_all(start(room, count))?;
    writeln!(out)
}
