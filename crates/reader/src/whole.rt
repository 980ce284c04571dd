// Whole bytes of a sheet: the bits left to a byte's end, and the bytes after a position.
ghost use Rattle.std.specs.Prelude.{◌≡◌, drop};
ghost use Rattle.reader.specs.Place.{left_at, byte_up};

// How many bits are left to the byte's end; none where the position is a byte's first bit.
pub fn left(at: usize) -> usize
    ensures { result ≡ left_at at }
{
    (8 - at % 8) % 8
}

// The bytes after a position, from the next whole byte on.
pub fn tail_at(s: &[u8], at: usize) -> &[u8]
    ensures { result.now ≡ drop (byte_up at) s.now }
{
    let from = at / 8 + (at % 8 + 7) / 8;
    &s[from.min(s.len())..]
}
