// Who sent the messages in flight: no message says it, and only the whole board shows it.
ghost use Rattle.std.specs.Prelude.{◌≡◌, get_or};
ghost use Rattle.desk.specs.Senders as Senders;

use crate::messages::{arrives_at, sent};
use rules::{Board, Command};
use std::array;
use values::bits::has;

// The number at a place of a row of 16; 0 past its end, as the definition `goes_to` has it (get_or), so no Option. One call of the
// library's own, as messages and reader have it too: a function in a crate below would say no more.
pub fn at(row: [u8; 16], k: u8) -> u8
    ensures { result ≡ get_or row k 0 }
{
    row.get(usize::from(k)).copied().unwrap_or(0)
}

// ---- where a command acts
// The node that acts, and the message number that is freed; None where nothing arrives.
#[derive(Clone, Copy, PartialEq, Eq)]
pub struct Site {
    pub node: u8,
    pub freed: Option<usize>,
}

fn home(b: Board, p: u8) -> Site
    ensures { result ≡ Senders.at_home b p }
{
    Site {
        node: at(b.process_home, p),
        freed: None,
    }
}

// A delivery acts where the message arrives.
pub fn delivery(b: Board, n: usize) -> Site
    ensures { result ≡ Senders.delivery b n }
{
    Site {
        node: arrives_at(b, n),
        freed: Some(n),
    }
}

// A request and a release act at the home of the process.
#[tactic(auto, unfolding(crate::specs::Senders::acts_at))]
pub fn acts_at(b: Board, c: Command) -> Site
    ensures { result ≡ Senders.acts_at b c }
{
    match c {
        Command::Request(p, _, _) | Command::Release(p, _) => home(b, p),
        Command::Deliver(n) => delivery(b, usize::from(n)),
    }
}

// ---- the senders
// The senders, where those of a set are one node.
fn marked(senders: [u8; 64], set: u64, node: u8) -> [u8; 64]
    ensures { result ≡ Senders.marked senders set node }
{
    array::from_fn(|k| if has(set, k as u8) { node } else { senders[k] })
}

// The senders after a command that acted at a site: it sent what it put in flight, and the others are as they were.
pub fn after(senders: [u8; 64], before: u64, after: u64, site: Site) -> [u8; 64]
    ensures { result ≡ Senders.after senders before after site }
{
    marked(senders, sent(before, after, site.freed), site.node)
}
