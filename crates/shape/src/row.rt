// Rows of sixteen numbers: the first so many lie below a limit, and the rest are zero.
// Every place is looked at and what is wrong is gathered, so that a row is tested as one.
ghost use Rattle.std.specs.Prelude.{◌≡◌, ◌&&◌, ltb};
ghost use Rattle.rules.specs.Tables.{pick};
ghost use Rattle.rules.specs.Shape.{row_fits};

use values::bits::wide;

// 1 where a number is not below its limit.
pub fn over(x: u8, limit: u8) -> u8
    ensures { result ≡ pick (ltb x limit) 0 1 }
{
    if x < limit { 0 } else { 1 }
}

// The limit at place k of a row of n numbers below c: past them stands zero, which alone is below 1.
// Like `up_to` and `lead_limit` but for a constant: each is a clause of the rules, of one line.
fn limit_at(k: usize, n: usize, c: u8) -> u8
    ensures { result ≡ pick (ltb k n) c 1 }
{
    if k < n { c } else { 1 }
}

// "unused places hold zero": the first n numbers are below c, and the rest zero. A row with its count, as the rules have
// it, and no slice: what stands past the count is tested too.
pub fn row_fits(row: [u8; 16], n: u8, c: u8) -> bool
    ensures { result ≡ row_fits row n c }
{
    let end = wide(n);
    let mut wrong = 0;
    for (k, x) in row.iter().enumerate() {
        wrong |= over(*x, limit_at(k, end, c));
    }
    wrong == 0
}

// "unused places hold zero": both rows. They are gathered together, since most numbers have no list.
pub fn are_zero(row: [u8; 16], other: [u8; 16]) -> bool
    ensures { result ≡ row_fits row 0 0 && row_fits other 0 0 }
{
    let mut any = 0;
    for x in &row {
        any |= *x;
    }
    for y in &other {
        any |= *y;
    }
    any == 0
}
