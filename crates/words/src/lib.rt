// What words are made of that tell of a set or of several things: the numbers of a set one by one, how many it has, and the word for one
// thing or for several.
#![tactic(auto)]

ghost use Rattle.rules.specs.Bits.{taken, lowest_taken, without_bit};
ghost use Rattle.rules.specs.Book.{mode_if};
ghost use Rattle.rules.specs.Tables.{pick};
ghost use Rattle.std.specs.Prelude.{◌≡◌, ◌<◌, ◌≤◌, MatchOption, ◌&&◌, ltb, eqb};
ghost use Rattle.std.specs.Iterator.{at_most};

use rules::Mode;
use values::bits::{has, lowest, without};
use values::mode::mode_if;

// The numbers in a set, by rising number.
#[derive(Clone, Copy)]
pub struct Members {
    left: u64,
}

impl Members {
    pub fn of(set: u64) -> Members
        ensures { result.left ≡ set }
    {
        Members { left: set }
    }
}

// The lowest number of the set, which is left without it; none of an empty set.
impl Iterator for Members {
    type Item = u8;

    ghost remaining = { λ s. at_most s.left };

    ghost next_gives = { λ s r t. MatchOption r ((s.left ≡ 0) × (t.left ≡ 0)) (λ k. (k < 64) × (k ≡ lowest_taken s.left) × (t.left ≡ without_bit s.left k)) };

    fn next(&mut self) -> Option<u8> {
        let left = self.left;
        if left == 0 {
            return None;
        }
        let k = lowest(left) as u8;
        self.left = without(left, k);
        Some(k)
    }
}

// How many numbers a set has.
pub fn size(set: u64) -> usize
    ensures { result ≤ 64 }
{
    set.count_ones() as usize
}

// The mode of a number, where the set has those that are exclusive.
pub fn mode_in(exclusive: u64, k: u8) -> Mode
    ensures { result ≡ mode_if (ltb k 64 && taken exclusive k) }
{
    mode_if(k < 64 && has(exclusive, k))
}

// The word for one thing, or for several.
pub fn counted<'a>(n: usize, one: &'a str, several: &'a str) -> &'a str
    ensures { result.now ≡ pick (eqb n 1) one.now several.now }
{
    if n == 1 { one } else { several }
}
