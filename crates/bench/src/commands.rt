// One command, packed for the engine.
ghost use Rattle.std.specs.Prelude.{◌≡◌, ◌≤◌, ◌<◌, ◌+◌, ◌*◌, ◌/◌, ◌%◌, [], ◌∷◌, MatchResult};
ghost use Rattle.bench.specs.Packed.{Packs, Outside};

use rules::{Answer, Command};

// A process and an object that the board has; or the answer that refuses them.
fn known(p: u8, o: u8, pc: u8, oc: u8) -> Result<(), Answer>
    ensures { MatchResult result (λ _. (p < pc) × (o < oc)) (Outside p o pc oc) }
{
    if pc <= p {
        return Err(Answer::NoProcess);
    }
    if oc <= o {
        return Err(Answer::NoObject);
    }
    Ok(())
}

// The bytes of a request or a release: the kind's number, the process and the object.
fn at_home(kind: u8, p: u8, o: u8) -> [u8; 2]
    requires { (kind < 3) × (p < 16) × (o < 16) }
    ensures { result ≡ (kind * 64 + p * 4 + o / 4) ∷ (o % 4 * 64) ∷ [] }
{
    [kind * 64 + p * 4 + o / 4, (o % 4) * 64]
}

// The two bytes that stand for the command on a board with so many processes and objects; or the answer that refuses it. A number at or
// above its count, or no mode, is refused at once; what is left fits the packed fields.
pub fn pack(c: Command, pc: u8, oc: u8) -> Result<[u8; 2], Answer>
    requires { (pc ≤ 16) × (oc ≤ 16) }
    ensures { Packs pc oc c result }
{
    match c {
        Command::Request(p, o, m) => {
            known(p, o, pc, oc)?;
            if 1 < m {
                return Err(Answer::NoMode);
            }
            Ok(at_home(m, p, o))
        }
        Command::Release(p, o) => {
            known(p, o, pc, oc)?;
            Ok(at_home(2, p, o))
        }
        Command::Deliver(n) if n < 64 => Ok([192 + n, 0]),
        Command::Deliver(_) => Err(Answer::NoMessage),
    }
}
