// The input, line by line: read in pieces, so that a typed line is answered at once.
#![tactic(auto)]

ghost use Rattle.std.specs.Prelude.{◌≤◌};

use std::io::{Read, Result};

// A reader, and the piece of it that is in hand: where that is read on, and where it ends.
#[derive(Drop)]
pub struct Lines<R> {
    from: R,
    piece: [u8; 4096],
    at: usize,
    end: usize,
    ghost within: { (at ≤ end) × (end ≤ 4096) },
}

impl<R: Read> Lines<R> {
    pub fn of(from: R) -> Lines<R> {
        Lines {
            from,
            piece: [0; 4096],
            at: 0,
            end: 0,
        }
    }

    // One byte of the input; none at its end.
    fn next_byte(&mut self) -> Result<Option<u8>> {
        if self.at < self.end {
            let byte = self.piece[self.at];
            self.at += 1;
            return Ok(Some(byte));
        }
        let read = program::read_some(&mut self.from, &mut self.piece)?;
        self.at = read.min(1);
        self.end = read;
        Ok(self.piece[..read].first().copied())
    }

    // The next line, without its line feed: how many bytes it has, of which the first are in the room. None where the input is over; a last
    // line may have no line feed. A proved loop has to end, so its turns are counted, up to a number that no input reaches.
    pub fn next_line(&mut self, room: &mut [u8; 1000]) -> Result<Option<usize>> {
        for count in 0..usize::MAX {
            match self.next_byte()? {
                None if count == 0 => return Ok(None),
                None | Some(b'\n') => return Ok(Some(count)),
                Some(byte) => {
                    // A byte past the room is not kept.
                    if let Some(place) = room.get_mut(count) {
                        *place = byte;
                    }
                }
            }
        }
        Ok(Some(usize::MAX))
    }
}
