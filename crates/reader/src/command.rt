// The commands of a sheet: 16 bits for each, from a whole byte on.
ghost use Rattle.std.specs.Prelude.{◌≡◌, ◌+◌, ◌-◌, ◌*◌, ◌/◌, ◌%◌, ◌<◌, ◌≤◌, ◌^◌, length, drop};
ghost use Rattle.rules.specs.Sheet.{field, any_spare};
ghost use Rattle.reader.specs.Place.{spare_in, commands_within};

// The 16 bits from byte i on, which the sheet has whole: what `field` finds there, without a look at the sheet's end for each byte.
fn sixteen(s: &[u8], i: usize) -> usize
    requires { i + 1 < length s.now }
    ensures { result ≡ field s.now (8 * i) 16 }
{
    256 * usize::from(s[i]) + usize::from(s[i + 1])
}

// "Kinds 0 to 2 go on with process 4, object 4, six spare; kind 3 with message number 6, eight spare."
// Kinds are numbers in a sheet, and are matched as such (docs/DECISIONS.md, forms).
fn spare(command: usize) -> u8
    ensures { result ≡ spare_in command }
{
    match command / 16384 {
        0..=2 => (command % 64) as u8,
        _ => (command % 256) as u8,
    }
}

// A spare bit is set in one of n commands, which the sheet has whole from byte `first` on. All of them are gathered before the answer, in one
// byte, so no command waits for the test of the one before it.
pub fn any_spare(s: &[u8], first: usize, n: usize) -> bool
    requires { 2 * n ≤ length s.now - first }
    ensures { result ≡ any_spare (drop first s.now) n }
{
    let set = (0..n).fold(0, |set, k| set | spare(sixteen(s, first + 2 * k)));
    set != 0
}

// How many of n commands are read at a bit of a sheet of so many bytes.
pub fn within(bytes: usize, at: usize, n: usize) -> usize
    ensures { (result ≡ commands_within bytes at n) × (at + 16 * result < 2 ^ 64) × (2 * result ≤ bytes - at / 8) }
{
    if 4096 < n || 4294967296 < at || at % 8 != 0 {
        return 0;
    }
    n.min(bytes.saturating_sub(at / 8) / 2)
}
