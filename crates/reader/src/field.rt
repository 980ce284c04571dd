// Fields of a sheet, most significant bit first. Past the sheet's end there are zeros.
ghost use Rattle.std.specs.Prelude.{◌≡◌, ◌+◌, ◌*◌, ◌<◌, ◌≤◌, ◌^◌, get_or};
ghost use Rattle.rules.specs.Sheet as Rules;
ghost use Rattle.reader.specs.Place as Place;

// Byte i of a sheet. One call of the library's own, as `desk` and `messages` have it: a function in a lower crate would say no more.
fn byte(s: &[u8], i: usize) -> u8
    ensures { result ≡ get_or s.now i 0 }
{
    s.get(i).copied().unwrap_or(0)
}

// The number that n bits from bit `at` on stand for: they lie in the three bytes from that bit's byte on.
pub fn field(s: &[u8], at: usize, n: usize) -> usize
    requires { (at + n < 2 ^ 64) × (n ≤ 16) }
    ensures { (result ≡ Rules.field s.now at n) × (result < 2 ^ n) }
{
    let first = at / 8;
    let high = usize::from(byte(s, first));
    let middle = usize::from(byte(s, first + 1));
    let low = usize::from(byte(s, first + 2));
    let three = 65536 * high + 256 * middle + low;
    (three >> (24 - at % 8 - n)) % (1 << n)
}

// How much of n is read at a bit: all of it, or none where n is above 16 or the bit far past any sheet.
pub fn within(at: usize, n: usize) -> usize
    ensures { (result ≡ Place.within at n) × (result ≤ 16) × (at + 3 * result < 2 ^ 64) }
{
    if 16 < n || 4294967296 < at { 0 } else { n }
}
