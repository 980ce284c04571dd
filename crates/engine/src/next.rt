// Where the engine takes its commands from: a slice, or the messages in flight.
ghost use Rattle.std.specs.Prelude.{◌≡◌, ℕ, List, [], Bool, true, false, ◌+◌, ◌*◌, ◌<◌, length, get_or};
ghost use Rattle.rules.specs.Tables.{pick};
ghost use Rattle.engine.specs.Next.{Gives};

// A source of commands, of two bytes each.
pub trait Source {
    // Whether it is a drain.
    ghost drains: { Self → Bool };

    // The commands of one that is no drain.
    ghost commands: { Self → List ℕ };

    // The two bytes of command `i`, on a board with these numbers in flight; none where a drain is over.
    fn command(&self, i: usize, occupied: u64) -> Option<(u8, u8)>
        requires { drains self.now ≡ false → 2 * i + 1 < length (commands self.now) }
        ensures { Gives (drains self.now) (commands self.now) i occupied result };

    // The byte of the room that takes the answer of a turn.
    fn place(&self, turn: usize) -> usize
        ensures { result ≡ pick (drains self.now) 0 turn };
}

// The two bytes at place `i` of a slice of commands.
fn pair_at(s: &[u8], i: usize) -> (u8, u8)
    requires { 2 * i + 1 < length s.now }
    ensures { (result.0 ≡ get_or s.now (2 * i) 0) × (result.0 < 256) × (result.1 ≡ get_or s.now (2 * i + 1) 0) × (result.1 < 256) }
{
    (s[2 * i], s[2 * i + 1])
}

// The commands of a slice, one after another; each has a byte of the room.
impl<'a> Source for &'a [u8] {
    ghost drains = { λ _. false };

    ghost commands = { λ s. s.now };

    fn command(&self, i: usize, _occupied: u64) -> Option<(u8, u8)> {
        Some(pair_at(self, i))
    }

    fn place(&self, turn: usize) -> usize {
        turn
    }
}

// A drain: the delivery of the lowest number in flight, again and again, until none is left. Each answer goes into the room's first byte.
#[derive(Clone, Copy)]
pub struct Lowest;

impl Source for Lowest {
    ghost drains = { λ _. true };

    ghost commands = { λ _. [] };

    fn command(&self, _i: usize, occupied: u64) -> Option<(u8, u8)> {
        let lowest = values::bits::lowest(occupied);
        if lowest < 64 {
            Some((192 + lowest as u8, 0))
        } else {
            None
        }
    }

    fn place(&self, _turn: usize) -> usize {
        0
    }
}
