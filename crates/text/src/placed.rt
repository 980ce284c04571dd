// Text at any place of a lent buffer: each function puts something there and hands back the place after it. Every other byte stays.
ghost use Rattle.std.specs.Prelude.{◌≡◌, [], ◌∷◌, ◌+◌, ◌<◌, ◌≤◌, length};
ghost use Rattle.text.specs.Text.{decimal, Wrote};

// One byte.
pub fn put(out: &mut [u8; 65536], at: usize, x: u8) -> usize
    requires { at < 65536 }
    ensures { (Wrote out.old at (x ∷ []) out.new result) × (result ≡ at + 1) }
{
    out[at] = x;
    at + 1
}

// Bytes one after another.
pub fn word(out: &mut [u8; 65536], at: usize, letters: &[u8]) -> usize
    requires { at + length letters.now ≤ 65536 }
    ensures { (Wrote out.old at letters.now out.new result) × (result ≡ at + length letters.now) }
{
    let end = at + letters.len();
    let room = &mut out[..];
    room[at..end].copy_from_slice(letters);
    end
}

fn digit(out: &mut [u8; 65536], at: usize, d: usize) -> usize
    requires { (at < 65536) × (d < 10) }
    ensures { (Wrote out.old at ((48 + d) ∷ []) out.new result) × (result ≡ at + 1) }
{
    put(out, at, b'0' + d as u8)
}

fn below_hundred(out: &mut [u8; 65536], at: usize, n: usize) -> usize
    requires { (at + 2 ≤ 65536) × (n < 100) }
    ensures { (Wrote out.old at (decimal n) out.new result) × (result ≤ at + 2) }
{
    if n < 10 {
        digit(out, at, n)
    } else {
        let tens = digit(out, at, n / 10);
        digit(out, tens, n % 10)
    }
}

// A number below 10,000, in decimal.
pub fn number(out: &mut [u8; 65536], at: usize, n: usize) -> usize
    requires { (at + 4 ≤ 65536) × (n < 10000) }
    ensures { (Wrote out.old at (decimal n) out.new result) × (result ≤ at + 4) }
{
    if n < 100 {
        below_hundred(out, at, n)
    } else {
        let hundreds = below_hundred(out, at, n / 100);
        let tens = digit(out, hundreds, n / 10 % 10);
        digit(out, tens, n % 10)
    }
}

// Any number of 64 bits, in decimal: the last digit behind the others, which are a smaller number.
pub fn total(out: &mut [u8; 65536], at: usize, n: u64) -> usize
    requires { at + 20 ≤ 65536 }
    ensures { (Wrote out.old at (decimal n) out.new result) × (result ≤ at + 20) }
{
    if n < 10 {
        digit(out, at, n as usize)
    } else {
        let higher = total(out, at, n / 10);
        digit(out, higher, (n % 10) as usize)
    }
}
