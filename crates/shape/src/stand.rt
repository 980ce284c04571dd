// Who stands somewhere, and whether one stands twice: in a list, in a ring, in the lines and the requests. Those who stand are a set of
// numbers, and there is none once one of them stands twice.
ghost use Rattle.std.specs.Prelude.{◌≡◌, ◌<◌, is_some, option_and_then};
ghost use Rattle.rules.specs.Shape as Rules;
ghost use Rattle.shape.specs.Stand.{noted, noted_row, noted_kind, noted_requests, noted_lines, AskerFits, RowFits, AskersFit, LinesFit};

use rules::{Flight, Kind, Object};
use values::bits::{has, wide, with};

// Process p stands too.
fn note(standing: u64, p: u8) -> Option<u64>
    requires { p < 16 }
    ensures { result ≡ noted standing p }
{
    if has(standing, p) {
        None
    } else {
        Some(with(standing, p))
    }
}

// The first n of a row stand too. Row and count are apart, as in the definitions `different` and `noted_row`, and as the callers have them.
fn note_row(mut standing: u64, row: [u8; 16], n: u8) -> Option<u64>
    requires { RowFits row n }
    ensures { result ≡ noted_row standing row n }
{
    for p in &row[..wide(n)] {
        standing = note(standing, *p)?;
    }
    Some(standing)
}

// The first n of a row are different. Row and count, as `different` of the rules takes them.
pub fn different(row: [u8; 16], n: u8) -> bool
    requires { RowFits row n }
    ensures { result ≡ Rules.different row n }
{
    note_row(0, row, n).is_some()
}

// The process of a request stands too; no other message has one that does.
fn note_kind(standing: u64, kind: Kind) -> Option<u64>
    requires { AskerFits kind }
    ensures { result ≡ noted_kind standing kind }
{
    match kind {
        Kind::Request(p, _, _) => note(standing, p),
        _ => Some(standing),
    }
}

fn note_requests(flights: [Flight; 64]) -> Option<u64>
    requires { AskersFit flights }
    ensures { result ≡ noted_requests flights 64 }
{
    let mut standing = 0;
    for flight in &flights {
        standing = note_kind(standing, flight.kind)?;
    }
    Some(standing)
}

fn note_lines(mut standing: u64, books: [Object; 16]) -> Option<u64>
    requires { LinesFit books }
    ensures { result ≡ noted_lines standing books 16 }
{
    for book in &books {
        standing = note_row(standing, book.line, book.line_count)?;
    }
    Some(standing)
}

// "no process stands twice over all lines and request messages taken together"
pub fn stand_once(flights: [Flight; 64], books: [Object; 16]) -> bool
    requires { AskersFit flights × LinesFit books }
    ensures { result ≡ is_some (option_and_then (λ s. noted_lines s books 16) (noted_requests flights 64)) }
{
    match note_requests(flights) {
        Some(standing) => note_lines(standing, books).is_some(),
        None => false,
    }
}
