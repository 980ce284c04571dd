// A command from its two bytes.
ghost use Rattle.std.specs.Prelude.{◌≡◌, [], ◌∷◌, ◌+◌, ◌*◌, ◌<◌, length};
ghost use Rattle.rules.specs.Sheet.{command_at};

use rules::Command;

// The numbers of a command out of its two bytes, as the engine takes them too: apart from it, since what is run here is held against it.
// Kinds are numbers in a sheet, and are matched as such (docs/DECISIONS.md, forms).
fn command_of(hi: u8, lo: u8) -> Command
    ensures { result ≡ command_at (hi ∷ lo ∷ []) 0 }
{
    let p = hi / 4 % 16;
    let o = hi % 4 * 4 + lo / 64;
    match hi / 64 {
        0..=1 => Command::Request(p, o, hi / 64),
        2 => Command::Release(p, o),
        _ => Command::Deliver(hi % 64),
    }
}

// Command i of the part of a sheet that holds the commands.
pub fn command_at(part: &[u8], i: usize) -> Command
    requires { 2 * i + 1 < length part.now }
    ensures { result ≡ command_at part.now i }
{
    command_of(part[2 * i], part[2 * i + 1])
}
