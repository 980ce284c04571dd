// A message in words: its kind, what it carries, and its way.
#![tactic(auto)]

ghost use Rattle.std.specs.Prelude.{◌≡◌, get_or};
ghost use Rattle.laws.specs.Local.{destination};

use desk::Desk;
use desk::messages::arrives_at;
use rules::{Board, Entries, Kind, Message};
use std::io::{Result, Write};
use text::Page;
use text::rows::{on_or_below, row};
use values::bits::wide;
use words::Members;

// ---- what a message carries
// The message under a number; none where the number is above 63.
pub fn under(b: &Board, n: usize) -> Option<Message> {
    let flight = b.flights.get(n)?;
    let list = b.lists.get(n)?;
    Some(Message {
        kind: flight.kind,
        list: *list,
    })
}

pub fn is_list(m: &Message) -> bool {
    matches!(m.kind, Kind::ListToHome | Kind::ListToObject(_))
}

// The process at a place of a list's entries; p0 behind the last place: a list in shape has none there, and no word is said of one.
fn at(row: &[u8; 16], k: u8) -> u8
    ensures { result ≡ get_or row.now k 0 }
{
    row.get(wide(k)).copied().unwrap_or(0)
}

// The process that a list asks next.
pub fn asked(l: &Entries) -> u8
    ensures { result ≡ get_or l.now.who l.now.next 0 }
{
    at(&l.who, l.next)
}

// The node that sent the message under a number, and the node where it arrives.
pub fn way(desk: &Desk, n: usize) -> (u8, u8)
    ensures { (result.0 ≡ get_or desk.now.senders n 0) × (result.1 ≡ destination desk.now.board n) }
{
    let from = desk.senders.get(n).copied().unwrap_or(0);
    (from, arrives_at(desk.board, n))
}

// ---- a message in words
// What it is: its kind, and what it is about.
pub fn named(out: &mut Page, m: &Message) -> Result<()> {
    match m.kind {
        Kind::Free => write!(out, ":"),
        Kind::Request(p, o, mode) => write!(out, ": request of p{p} for o{o} {mode}"),
        Kind::Grant(p, o, mode) => write!(out, ": grant to p{p} of o{o} {mode}"),
        Kind::Release(p, o) => write!(out, ": release by p{p} of o{o}"),
        Kind::ListToHome | Kind::ListToObject(_) => write!(out, ": list of p{}", m.list.who[0]),
    }
}

// Where a list goes.
fn heading(out: &mut Page, m: &Message) -> Result<()> {
    match m.kind {
        Kind::ListToHome => write!(out, " to the home of p{}", asked(&m.list)),
        Kind::ListToObject(o) => write!(out, " to o{o}"),
        _ => Ok(()),
    }
}

// One entry; each but the first names the earlier one that led to it.
fn entry(out: &mut Page, l: &Entries, i: u8) -> Result<()> {
    let lead = at(&l.leads, i);
    write!(out, "p{}", at(&l.who, i))?;
    if lead < i {
        write!(out, " (led by p{})", at(&l.who, lead))?;
    }
    Ok(())
}

// What a list is to do where it arrives: ask a process at its home, or look for it in an object's line.
fn to_do(out: &mut Page, m: &Message) -> Result<()> {
    let p = asked(&m.list);
    match m.kind {
        Kind::ListToObject(o) => write!(out, "looks for p{p} in the line of o{o}"),
        _ => write!(out, "asks p{p} next"),
    }
}

// The entries of a list with their leads, and what it is to do, on lines of their own. A message that is no list has none.
fn entries(out: &mut Page, m: &Message) -> Result<()> {
    let l = &m.list;
    if l.count == 0 {
        return Ok(());
    }
    write!(out, "\n      entries ")?;
    row(out, 99, 0..l.count.min(16), |out, i| entry(out, l, i))?;
    write!(out, ";")?;
    on_or_below(out, 100, m, to_do)
}

// The message under a number, behind a word or two.
pub fn tell(out: &mut Page, before: &[u8], desk: &Desk, n: usize) {
    let _full = put(out, before, desk, n);
}

fn put(out: &mut Page, before: &[u8], desk: &Desk, n: usize) -> Result<()> {
    let Some(m) = under(&desk.board, n) else {
        return Ok(());
    };
    let (from, to) = way(desk, n);
    out.write_all(before)?;
    write!(out, "{n}")?;
    named(out, &m)?;
    heading(out, &m)?;
    write!(out, ", from node {from} to node {to}")?;
    entries(out, &m)?;
    writeln!(out)
}

// Each message of a set, one to a line.
pub fn tell_each(out: &mut Page, before: &[u8], desk: &Desk, set: u64) {
    for n in Members::of(set) {
        tell(out, before, desk, wide(n));
    }
}

// ---- the messages in flight
pub fn in_flight(out: &mut Page, desk: &Desk) {
    let set = desk.board.occupied;
    tell_each(out, b"  message ", desk, set);
    if set == 0 {
        let _full = writeln!(out, "  no message in flight");
    }
}

// Those that are on their way to a node.
pub fn in_flight_to(out: &mut Page, desk: &Desk, node: u8) {
    let b = &desk.board;
    let begun = out.len();
    for n in Members::of(b.occupied) {
        if arrives_at(*b, wide(n)) == node {
            tell(out, b"  message ", desk, wide(n));
        }
    }
    if out.len() == begun {
        let _full = writeln!(out, "  no message on its way to node {node}");
    }
}
