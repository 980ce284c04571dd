// A session, line by line: what a line that was read does to the desk, and what is said of it.
#![tactic(auto)]

mod echo;
mod talk;
mod undone;

ghost use Rattle.std.specs.Prelude.{◌≡◌};
ghost use Rattle.typed.specs.Reading.{reading};
ghost use Rattle.desk.specs.Desks.{acted};
ghost use Rattle.session.specs.Heard.{heard};

use desk::{Acted, Desk};
pub use talk::Talk;
use typed::Typed;

// A line as it is understood: so many bytes of its room. One that is longer than the room is not understood: it does as much as an empty
// one. The count stands beside the room, since `heard` says what one above its length does, which no slice could say.
#[tactic(auto, unfolding(crate::specs::Heard::heard))]
fn hears(room: &[u8], count: usize) -> Typed
    ensures { result ≡ reading (heard room.now count) }
{
    typed::read(room.get(..count).unwrap_or(b""))
}

// What a line does to the desk.
pub fn answered(desk: Desk, room: &[u8; 1000], count: usize) -> Acted
    ensures { result ≡ acted desk (reading (heard room.now count)) }
{
    desk::act(desk, hears(room, count))
}
