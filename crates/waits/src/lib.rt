// Who waits for whom, why, and at which node: each wait stands in a line, and the home of the object has the line. Only lines count, not
// requests still travelling. Whom a process waits for is asked of the tests that the handlers themselves go by.
#![tactic(auto)]

ghost use Rattle.std.specs.Prelude.{◌<◌, ◌≤◌};

use arrayvec::ArrayVec;
use objects::{bars, mode_at, rivals};
use rules::{Board, Mode, Object};
use std::io::{Result, Write};
use text::Page;
use text::rows::{numbers, on_or_below};
use values::bits::{has, wide};
use words::{Members, counted, size};

// Those who stand ahead of place k in conflict with process p in the mode, and are not among the holders that it waits for.
fn in_conflict(o: &Object, p: u8, m: Mode, k: usize, holders: u64) -> ArrayVec<u8, 16>
    requires { k ≤ 16 }
{
    let mut who = ArrayVec::new();
    for (j, q) in o.line[..k].iter().enumerate() {
        if *q < 16 && bars(*q, o.line_exclusive, p, m, j as u8) && !has(holders, *q) {
            let _ = who.try_push(*q);
        }
    }
    who
}

// ---- whom a process waits for, in a row that ends early enough for the words behind it
fn hold(out: &mut Page, set: u64) -> Result<()> {
    numbers(out, 84, 'p', Members::of(set))?;
    let verb = counted(size(set), "holds", "hold");
    write!(out, ", which {verb} it")
}

fn stand_ahead(out: &mut Page, who: &[u8]) -> Result<()> {
    numbers(out, 81, 'p', who.iter().copied())?;
    let verb = counted(who.len(), "stands", "stand");
    write!(out, ", which {verb} ahead")
}

// Those whom a process waits for: first who holds, then who stands ahead.
fn named(out: &mut Page, holders: u64, ahead: &[u8]) -> Result<()> {
    match (holders, ahead) {
        (0, []) => write!(out, "nobody"),
        (0, _) => stand_ahead(out, ahead),
        (_, []) => hold(out, holders),
        _ => {
            hold(out, holders)?;
            write!(out, ";")?;
            on_or_below(out, 100, ahead, stand_ahead)
        }
    }
}

// Whom the process at place k of the line waits for. In the lines of a board in shape every number is below 16.
fn at_place(out: &mut Page, o: &Object, k: u8) -> Result<()>
    requires { k < 16 }
{
    let place = wide(k);
    let p = o.line[place];
    if 16 <= p {
        return Ok(());
    }
    let mode = mode_at(*o, k);
    let holders = rivals(*o, p, mode);
    let ahead = in_conflict(o, p, mode, place, holders);
    write!(out, "  p{p} ({mode}) waits for ")?;
    named(out, holders, ahead.as_slice())?;
    writeln!(out)
}

// Each who stands in the line.
fn in_line(out: &mut Page, number: usize, home: u8, o: &Object) -> Result<()> {
    writeln!(out, "at node {home}, in the line of o{number}")?;
    for k in 0..o.line_count.min(16) {
        at_place(out, o, k)?;
    }
    Ok(())
}

// The lines of the objects that live on a node.
fn at_node(out: &mut Page, b: &Board, node: u8) -> Result<()> {
    for (i, (o, home)) in b.objects.iter().zip(&b.object_home).enumerate() {
        if *home == node && o.line_count != 0 {
            in_line(out, i, node, o)?;
        }
    }
    Ok(())
}

// Who waits at one node.
pub fn one(out: &mut Page, b: &Board, node: u8) {
    let _full = put_one(out, b, node);
}

fn put_one(out: &mut Page, b: &Board, node: u8) -> Result<()> {
    let begun = out.len();
    at_node(out, b, node)?;
    if out.len() == begun {
        writeln!(
            out,
            "  nobody waits at node {node}: nobody stands in a line there"
        )?;
    }
    Ok(())
}

pub fn all(out: &mut Page, b: &Board) {
    let _full = put_all(out, b);
}

fn put_all(out: &mut Page, b: &Board) -> Result<()> {
    let begun = out.len();
    for node in 0..8 {
        at_node(out, b, node)?;
    }
    if out.len() == begun {
        writeln!(out, "  nobody waits: nobody stands in a line")?;
    }
    Ok(())
}
