// Counts of nodes, processes and objects.
ghost use Rattle.std.specs.Prelude.{◌≡◌};
ghost use Rattle.rules.specs.Commands.{count_fits};

// At least one, and at most so many.
pub fn count_fits(n: u8, top: u8) -> bool
    ensures { result ≡ count_fits n top }
{
    0 < n && n <= top
}
