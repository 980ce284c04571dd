// Sets of numbers below 64, as the binary digits of a u64; and a number as a place. The sets are numbers, and no type of their own, since
// they are that on the board, in its records and in the definitions of the rules (`taken`, `with_bit`, `without_bit`); nor has a number below
// 64, which a record of the board hands over as it is.
ghost use Rattle.std.specs.Prelude.{◌≡◌, ℕ, ◌<◌, ◌≤◌, false, length, slice_index_or};
ghost use Rattle.std.specs.Fn.{FnReturnsAt};
ghost use Rattle.rules.specs.Bits as Bits;

// A number as a place in a table. Its clause says that a place is below 256, which `usize::from` does not.
pub fn wide(x: u8) -> usize
    ensures { (result ≡ x) × (result < 256) }
{
    usize::from(x)
}

// Number k is in the set.
pub fn has(set: u64, k: u8) -> bool
    requires { k < 64 }
    ensures { result ≡ Bits.taken set k }
{
    (set >> k) % 2 == 1
}

// The set with number k in it.
pub fn with(set: u64, k: u8) -> u64
    requires { k < 64 }
    ensures { result ≡ Bits.with_bit set k }
{
    set | (1 << k)
}

// The set without number k.
pub fn without(set: u64, k: u8) -> u64
    requires { k < 64 }
    ensures { result ≡ Bits.without_bit set k }
{
    set & !(1 << k)
}

// The set with number k in it, or not: one function for both, as the rules' `marked`, which takes `to`.
pub fn marked(set: u64, k: u8, to: bool) -> u64
    requires { k < 64 }
    ensures { result ≡ Bits.marked set k to }
{
    if to { with(set, k) } else { without(set, k) }
}

// The lowest number that is not in the set: the trailing zeros of its complement. 64 where the set has all, and no Option: the rules'
// `lowest_free` is this number, and `put_first` sends a message under it only if it is below 64.
pub fn lowest_free(set: u64) -> usize
    ensures { (result ≡ Bits.lowest_free set) × (result ≤ 64) }
{
    (!set).trailing_zeros() as usize
}

// The lowest number in the set; 64 where it has none, and no Option: the rules' `lowest_taken` is this number, and `draining` ends at 64.
pub fn lowest(set: u64) -> usize
    ensures { (result ≡ Bits.lowest_taken set) × (result ≤ 64) }
{
    set.trailing_zeros() as usize
}

// The set of the places of a row where a test holds: at each place what the test gave there, and no number past the row.
pub fn places<T, F: Fn(&T) -> bool>(row: &[T], test: F) -> u64
    requires short { length row.now ≤ 64 }
    requires tests { F.IsAlwaysCallable test }
    ensures at { (k : ℕ) (x : T) → k < length row.now → FnReturnsAt F.Fn test (slice_index_or row.now k x) (Bits.taken result k) }
    ensures past { (k : ℕ) → length row.now ≤ k → Bits.taken result k ≡ false }
{
    let mut set = 0;
    for (k, thing) in row.iter().enumerate() {
        set = marked(set, k as u8, test(thing));
    }
    set
}
