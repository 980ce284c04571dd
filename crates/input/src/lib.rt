// Reads an input to its end: its first bytes are kept in a lent buffer, and all of its bytes are counted. No sheet fills the buffer, but
// whether the length of a longer input is odd decides how it is refused.
#![tactic(auto)]

ghost use Rattle.std.specs.Prelude.{◌≡◌, List, ℕ, length, IsOk};
ghost use Rattle.std.specs.Io.KnownBytes.{Consumes, IsAtEnd};
ghost use Rattle.input.specs.Input.{Pieces};
ghost use Rattle.input.specs.Read.{count_read};

use program::read_some;
use std::io::{Error, ErrorKind};
use text::keep;

// A read failed: how many bytes had come, and why it failed. A type of its own, as stream has one: what had come differs, and the
// definition `count_read` takes it.
#[derive(Clone, Copy)]
pub struct Broken {
    pub count: usize,
    pub why: Error,
}

// Piece by piece, until the input ends or a read fails; how many bytes came. Its contract says that pieces were taken in and nothing else was
// done; of a reader whose bytes are known (no file is one) also that they were those bytes, and, where no read failed, all of them. A proved
// loop has to end, so it counts its turns, up to a number that no input reaches; one that did would count as failed, since its end was not
// read; below it the count of bytes fits its type. That count may pass the buffer's length, so what came is no slice of it. A loop of its own,
// as stream has one: what a piece does to what was lent stands in each contract (`Pieces`, `chart_of`).
pub fn whole<R: std::io::Read>(from: &mut R, first: &mut [u8; 65536]) -> Result<usize, Broken>
    ensures size { 65536 ≡ length first.new }
    ensures pieces { (w : List ℕ) × Pieces first.old w first.new (count_read result) × Consumes (R.remaining from.old) (R.remaining from.new) w }
    ensures end { IsOk result → IsAtEnd (R.remaining from.new) }
{
    let mut piece = io::large_buffer();
    let mut count: usize = 0;
    for _ in 0..70368744177664u64 {
        match read_some(from, &mut piece) {
            Ok(0) => return Ok(count),
            Ok(n) => {
                keep(first, count, &piece[..n]);
                count += n;
            }
            Err(why) => return Err(Broken { count, why }),
        }
    }
    Err(Broken {
        count,
        why: Error::from(ErrorKind::FileTooLarge),
    })
}

#[cfg(test)]
mod tests {
    use super::whole;
    use std::io::{Error, ErrorKind, Result};

    // Gives a byte at each read, but is broken off by a signal at the second, and ends at the fourth or fails there.
    #[derive(Drop)]
    struct Faulty {
        turn: u8,
        fails: bool,
    }

    impl std::io::Read for Faulty {
        fn read(&mut self, buf: &mut [u8]) -> Result<usize> {
            self.turn = self.turn.saturating_add(1);
            if self.turn == 2 {
                return Err(Error::from(ErrorKind::Interrupted));
            }
            if self.turn > 3 && self.fails {
                return Err(Error::from(ErrorKind::ConnectionReset));
            }
            if self.turn > 3 || buf.is_empty() {
                return Ok(0);
            }
            buf[0] = b'a' + (self.turn - 1);
            Ok(1)
        }
    }

    #[test]
    fn a_signal_loses_nothing(rt: HostRuntime) {
        let mut first = [0u8; 65536];
        let mut from = Faulty {
            turn: 0,
            fails: false,
        };
        match whole(&mut from, &mut first) {
            Ok(count) => assert_eq!(rt; count, 2),
            Err(_) => assert!(rt; false),
        }
        assert_eq!(rt; first[0], b'a');
        assert_eq!(rt; first[1], b'c');
    }

    #[test]
    fn a_failure_is_handed_on(rt: HostRuntime) {
        let mut first = [0u8; 65536];
        let mut from = Faulty {
            turn: 0,
            fails: true,
        };
        match whole(&mut from, &mut first) {
            Ok(_) => assert!(rt; false),
            Err(broken) => {
                assert_eq!(rt; broken.count, 2);
                assert!(rt; broken.why.kind() == ErrorKind::ConnectionReset);
            }
        }
    }
}
