// The homes of a sheet: three bits for each.
ghost use Rattle.std.specs.Prelude.{◌≡◌, ◌+◌, ◌*◌, ◌<◌, ◌≤◌, ◌^◌};
ghost use Rattle.rules.specs.Sheet.{homes_from};

use crate::field::field;

// n homes from bit `at` on; the places past them hold zero.
pub fn homes(s: &[u8], at: usize, n: usize) -> [u8; 16]
    requires { (at + 3 * n < 2 ^ 64) × (n ≤ 16) }
    ensures { result ≡ homes_from s.now at n }
{
    let mut row = [0; 16];
    for (k, home) in row[..n].iter_mut().enumerate() {
        *home = field(s, at + 3 * k, 3) as u8;
    }
    row
}
