// The homes that an opening types, as the board takes numbers.
ghost use Rattle.std.specs.Prelude.{◌≡◌};
ghost use Rattle.typed.specs.Homes as Homes;

use std::array;

// A number as the board takes it: one above 255 is outside every limit, as 255 is.
pub fn cut(n: u16) -> u8
    ensures { result ≡ Homes.cut n }
{
    n.min(255) as u8
}

// The number at a place of a row; 0 past the row's end.
fn number_at(row: [u16; 35], at: usize) -> u8
    ensures { result ≡ Homes.number_at row at }
{
    row.get(at).map_or(0, |n| cut(*n))
}

// The 16 homes of a row behind its three counts and so many other homes.
pub fn homes(row: [u16; 35], others: u8) -> [u8; 16]
    ensures { result ≡ Homes.homes row others }
{
    array::from_fn(|k| number_at(row, 3 + usize::from(others) + k))
}
