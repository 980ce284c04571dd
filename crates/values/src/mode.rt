// Modes as tests. No `From<bool>`, which would not say that true is exclusive.
ghost use Rattle.std.specs.Prelude.{◌≡◌};
ghost use Rattle.rules.specs.Book as Book;

use rules::Mode;

pub fn is_exclusive(m: Mode) -> bool
    ensures { result ≡ Book.is_exclusive m }
{
    m == Mode::Exclusive
}

pub fn mode_if(exclusive: bool) -> Mode
    ensures { result ≡ Book.mode_if exclusive }
{
    if exclusive {
        Mode::Exclusive
    } else {
        Mode::Shared
    }
}
