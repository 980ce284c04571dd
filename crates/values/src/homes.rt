// A row of homes: the node of each process, or of each object.
ghost use Rattle.std.specs.Prelude.{◌≡◌, ◌≤◌};
ghost use Rattle.rules.specs.Commands.{home_outside};

// One of the first `count` homes is no node below the count of nodes. Row and count are apart, as in the definition: a caller has a whole
// row, and would slice it only to say by a law that the test of the slice is that of the row.
pub fn home_outside(homes: [u8; 16], count: usize, nodes: usize) -> bool
    requires { count ≤ 16 }
    ensures { result ≡ home_outside nodes count homes }
{
    homes[..count]
        .iter()
        .any(|home| nodes <= usize::from(*home))
}
