// The recorded rings.
ghost use Rattle.std.specs.Prelude.{◌≡◌, ◌≤◌, get_or};
ghost use Rattle.rules.specs.Tables.{all};
ghost use Rattle.rules.specs.Lists.{no_ring};
ghost use Rattle.rules.specs.Shape.{ring_fits};

use crate::row::row_fits;
use crate::stand::different;
use rules::Ring;
use values::bits::wide;

// "each recorded ring has 2 to 16 different processes, its starter first"; an empty place holds zero
#[tactic(auto, using(crate::proofs::Tests::row_below), unfolding(rules::specs::Shape::ring_fits))]
fn ring_fits(ring: Ring, s: usize, pc: u8) -> bool
    requires { pc ≤ 16 }
    ensures { result ≡ ring_fits ring s pc }
{
    let Ring { processes, count } = ring;
    row_fits(processes, count, pc)
        && (count == 0
            || 1 < count && count <= 16 && wide(processes[0]) == s && different(processes, count))
}

// By `for`, as lib.rt says.
pub fn rings_fit(rings: [Ring; 16], pc: u8) -> bool
    requires { pc ≤ 16 }
    ensures { result ≡ all 16 (λ s. ring_fits (get_or rings s no_ring) s pc) }
{
    for (s, ring) in rings.iter().enumerate() {
        if !ring_fits(*ring, s, pc) {
            return false;
        }
    }
    true
}
