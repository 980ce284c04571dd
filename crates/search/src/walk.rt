// Ways along waits, given as a set for each process: who comes to p in so many waits, in how many p comes round, and the way.
ghost use Rattle.std.specs.Prelude.{◌≡◌, true, ◌&&◌, suc, ◌<◌, ◌≤◌, get_or, MatchOption};
ghost use Rattle.rules.specs.Bits.{taken};
ghost use Rattle.rules.specs.Lists.{ring_of, no_ring};
ghost use Rattle.search.specs.Numbers.{first, any, set_of};
ghost use Rattle.search.specs.Waiting.{arc};
ghost use Rattle.search.specs.Ways as Ways;

use rules::Ring;
use values::bits::wide;

// No ring: a count of zero, as the rules' `no_ring` has it, and no Option. It is the default, by the name that the rules have for it.
#[tactic(auto, using(values::proofs::Defaults::ring_default))]
pub fn no_ring() -> Ring
    ensures { result ≡ no_ring }
{
    Ring::default()
}

// Those who wait for one of a set.
fn waiters(sets: [u64; 16], set: u64) -> u64
    requires { set < 65536 }
    ensures { result ≡ set_of 16 (λ x. any 16 (λ q. arc sets x q && taken set q)) }
{
    let mut found = 0;
    for (x, waited) in sets.iter().enumerate() {
        found = values::bits::marked(found, x as u8, *waited & set != 0);
    }
    found
}

// Those who come to p in no wait, in one, and so on to 16.
pub fn comers(sets: [u64; 16], p: u8) -> [u64; 17]
    requires { p < 16 }
    ensures { result ≡ Ways.comers (arc sets) p }
{
    let mut all = [0; 17];
    let mut set = values::bits::with(0, p);
    for after in &mut all {
        *after = set;
        set = waiters(sets, set);
    }
    all
}

// In how many waits, one at least, p comes round first; none where it does not come round in 16.
pub fn round(comers: [u64; 17], p: u8) -> Option<usize>
    requires { p < 16 }
    ensures { MatchOption result (suc (first 16 (λ k. taken (get_or comers (suc k) 0) p)) ≡ 17) (λ n. (n ≡ suc (first 16 (λ k. taken (get_or comers (suc k) 0) p))) × (n ≤ 16)) }
{
    // By number: the definition `first` counts so, and the number is handed back.
    for k in 1..17 {
        if values::bits::has(comers[k], p) {
            return Some(k);
        }
    }
    None
}

// The way of n waits from p round to p, each going on to the lowest number that comes to p in as many waits as are left.
pub fn way(sets: [u64; 16], comers: [u64; 17], p: u8, n: usize) -> Ring
    requires { (p < 16) × (n ≤ 16) × (comers ≡ Ways.comers (arc sets) p) × (Ways.comes (arc sets) p n p ≡ true) }
    ensures { result ≡ ring_of (Ways.way (arc sets) p n p) }
{
    let mut processes: [u8; 16] = [0; 16];
    let mut x = p;
    // By number: the way is written from its first on while the waits that are left fall, and the law of it (`Walked`) is said of both.
    for i in 0..n {
        processes[i] = x;
        let waited = sets[wide(x)];
        let coming = comers[n - 1 - i];
        x = values::bits::lowest(waited & coming) as u8;
    }
    Ring {
        processes,
        count: n as u8,
    }
}
