// The rings of a board, in words: those that lists have recorded, and those that exist now, which only the whole board shows.
#![tactic(auto)]

mod exists;
mod turns;

use rules::{Board, Ring};
use std::io::{Result, Write};
use text::{Page, rows};

// The processes of a ring, starter first.
fn named(out: &mut Page, r: &Ring) -> Result<()> {
    rows::numbers(out, 99, 'p', turns::processes(r).iter().copied())
}

// The ring in each place that was empty before, on a line behind a word or two.
fn since(out: &mut Page, old: &[Ring; 16], before: &[u8], now: &[Ring; 16]) -> Result<()> {
    for (past, ring) in old.iter().zip(now) {
        if past.count == 0 && ring.count != 0 {
            out.write_all(before)?;
            named(out, ring)?;
            writeln!(out)?;
        }
    }
    Ok(())
}

// The rings that were recorded between two boards, each on a line behind a word or two.
pub fn recorded_since(out: &mut Page, before: &[u8], old: &Board, new: &Board) {
    let _full = since(out, &old.rings, before, &new.rings);
}

// How many places for a ring are filled, and the ring in each.
pub fn recorded(out: &mut Page, b: &Board) {
    let _full = put_recorded(out, b);
}

fn put_recorded(out: &mut Page, b: &Board) -> Result<()> {
    let none = [Ring::default(); 16];
    writeln!(out, "  rings recorded: {}", sums::tally(*b))?;
    since(out, &none, b"    ring ", &b.rings)
}

// The rings that exist now, recorded or not. Every process that stands in a ring is in one that is told.
pub fn existing(out: &mut Page, b: &Board) {
    let _full = put_existing(out, b);
}

fn put_existing(out: &mut Page, b: &Board) -> Result<()> {
    writeln!(out, "only the whole board shows")?;
    let headed = out.len();
    exists::recorded(out, b)?;
    exists::not_recorded(out, b)?;
    if out.len() == headed {
        writeln!(out, "  no ring of waits exists")?;
    }
    Ok(())
}
