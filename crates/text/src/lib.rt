// Text, put piece by piece at the end of one page: a byte, a word, a number. What a program prints is built of these, and each is an equation
// with its definition in specs/. The module `placed` puts them at any place of a lent buffer.
#![tactic(auto)]

pub mod rows;

ghost use Rattle.std.specs.Prelude.{◌≡◌, [], ◌∷◌, ◌+◌, ◌<◌, ◌≤◌, length, take};
ghost use Rattle.arrayvec.specs.ArrayVec.{array_vec_len, Extends};
ghost use Rattle.text.specs.Text.{decimal, at_most, behind};

use arrayvec::ArrayVec;
use itoa::Buffer;

pub mod placed;

// What is printed at once: a text of at most 65,536 bytes.
pub type Page = ArrayVec<u8, 65536>;

// One byte.
pub fn put(out: &mut Page, x: u8)
    requires { array_vec_len out.old < 65536 }
    ensures { Extends out.old (x ∷ []) out.new × (array_vec_len out.new ≡ array_vec_len out.old + 1) }
{
    out.push(x);
}

// Bytes one after another.
pub fn word(out: &mut Page, letters: &[u8])
    requires { array_vec_len out.old + length letters.now ≤ 65536 }
    ensures { Extends out.old letters.now out.new × (array_vec_len out.new ≡ array_vec_len out.old + length letters.now) }
{
    out.try_extend_from_slice(letters).unwrap();
}

fn digit(out: &mut Page, d: u64)
    requires { (array_vec_len out.old < 65536) × (d < 10) }
    ensures { Extends out.old ((48 + d) ∷ []) out.new × (array_vec_len out.new ≡ array_vec_len out.old + 1) }
{
    put(out, b'0' + d as u8);
}

// A number in decimal, with room for four digits or, where it has more, for twenty.
pub fn number(out: &mut Page, n: u64)
    requires { (n < 10000 → array_vec_len out.old + 4 ≤ 65536) × (10000 ≤ n → array_vec_len out.old + 20 ≤ 65536) }
    ensures { Extends out.old (decimal n) out.new
        × (n < 10000 → array_vec_len out.new ≤ array_vec_len out.old + 4)
        × (array_vec_len out.new ≤ array_vec_len out.old + 20) }
{
    if n < 10 {
        digit(out, n);
    } else {
        higher(out, n / 10);
        digit(out, n % 10);
    }
}

// The digits before the last, of a number with so many tens.
fn higher(out: &mut Page, tens: u64)
    requires { array_vec_len out.old + length (decimal tens) ≤ 65536 }
    ensures { Extends out.old (decimal tens) out.new × (array_vec_len out.new ≡ array_vec_len out.old + length (decimal tens)) }
{
    if tens < 10 {
        digit(out, tens);
    } else if tens < 1000 {
        highest(out, tens / 10);
        digit(out, tens % 10);
    } else {
        long(out, tens);
    }
}

// The first one or two of three or four digits, of a number with so many hundreds.
fn highest(out: &mut Page, hundreds: u64)
    requires { (array_vec_len out.old + length (decimal hundreds) ≤ 65536) × (hundreds < 100) }
    ensures { Extends out.old (decimal hundreds) out.new × (array_vec_len out.new ≡ array_vec_len out.old + length (decimal hundreds)) }
{
    if hundreds < 10 {
        digit(out, hundreds);
    } else {
        digit(out, hundreds / 10);
        digit(out, hundreds % 10);
    }
}

// Any number, as the library writes it. Few have more than four digits: kept apart, it leaves `number` small enough to be put into its callers.
#[inline(never)]
fn long(out: &mut Page, n: u64)
    requires { array_vec_len out.old + length (decimal n) ≤ 65536 }
    ensures { Extends out.old (decimal n) out.new × (array_vec_len out.new ≡ array_vec_len out.old + length (decimal n)) }
{
    word(out, Buffer::new().format(n).as_bytes());
}

// A count that is above its limit counts as the limit.
pub fn at_most(top: usize, n: usize) -> usize
    ensures { (result ≡ at_most top n) × (result ≤ top) }
{
    n.min(top)
}

// The first n bytes of a text; all of it where it has fewer.
pub fn start(s: &[u8], n: usize) -> &[u8]
    ensures { result.now ≡ take n s.now }
{
    &s[..n.min(s.len())]
}

// Bytes behind the `held` bytes that a buffer holds, as many of them as it has room for.
pub fn keep<const N: usize>(buffer: &mut [u8; N], held: usize, bytes: &[u8])
    ensures { buffer.new ≡ behind N buffer.old held bytes.now }
{
    if held < N {
        let kept = start(bytes, N - held);
        let room = &mut buffer[..];
        room[held..held + kept.len()].copy_from_slice(kept);
    }
}
