// One delivery in one line: what arrived, from where to where, and what was sent on, so that the journey of a list is seen.
#![tactic(auto)]

pub mod follow;

use desk::Desk;
use desk::messages::{arrives_at, sent};
use messages::{asked, is_list, named, under, way};
use rules::{Board, Kind, Message};
use std::io::{Result, Write};
use text::Page;
use text::rows::row;
use values::bits::{lowest, wide};
use words::Members;

// What arrived, and its way.
fn arrival(out: &mut Page, n: usize, m: &Message, way: (u8, u8)) -> Result<()> {
    let (from, to) = way;
    let p = asked(&m.list);
    write!(out, "  {n}")?;
    named(out, m)?;
    write!(out, ", node {from} to node {to}")?;
    match m.kind {
        Kind::ListToHome => write!(out, ", asks p{p}"),
        Kind::ListToObject(o) => write!(out, ", looks for p{p} in the line of o{o}"),
        _ => Ok(()),
    }
}

// To whom a message grants.
fn grantee(out: &mut Page, m: Option<Message>) -> Result<()> {
    match m {
        Some(
            Message {
                kind: Kind::Grant(p, _, _),
                ..
            },
        ) => write!(out, "p{p}"),
        _ => Ok(()),
    }
}

// What was sent: one list, or grants.
fn sent_on(out: &mut Page, m: &Message, b: &Board, set: u64) -> Result<()> {
    let n = lowest(set);
    let Some(list) = under(b, n).filter(is_list) else {
        write!(out, "; granted to ")?;
        return row(out, 99, Members::of(set), |out, k| {
            grantee(out, under(b, wide(k)))
        });
    };
    let begun = if is_list(m) {
        "sent on to"
    } else {
        "joins the line, list to"
    };
    write!(out, "; {begun} ")?;
    match list.kind {
        Kind::ListToObject(o) => write!(out, "o{o}")?,
        _ => write!(out, "p{}", asked(&list.list))?,
    }
    write!(out, ", node {}", arrives_at(*b, n))
}

// Nothing was sent. A list that recorded no ring has ended.
fn came_to_rest(out: &mut Page, m: &Message, old: &Board, new: &Board) -> Result<()> {
    if !is_list(m) {
        return Ok(());
    }
    if sums::tally(*new) == sums::tally(*old) {
        write!(out, "; ends")
    } else {
        write!(out, "; closes a ring")
    }
}

// What arrived under a number, what was sent, and that a list came to its end.
pub fn tell(out: &mut Page, before: &Desk, after: &Desk, n: usize) {
    let _full = put(out, before, after, n);
}

fn put(out: &mut Page, before: &Desk, after: &Desk, n: usize) -> Result<()> {
    let old = &before.board;
    let new = &after.board;
    let Some(m) = under(old, n) else {
        return Ok(());
    };
    arrival(out, n, &m, way(before, n))?;
    match sent(old.occupied, new.occupied, Some(n)) {
        0 => came_to_rest(out, &m, old, new)?,
        set => sent_on(out, &m, new, set)?,
    }
    writeln!(out)
}
