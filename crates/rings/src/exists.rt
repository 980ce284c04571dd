// The rings that exist now, one to a line: a recorded one once, with all who recorded it, and one that is not recorded through each process
// that is in no ring told before. A recorded ring stays a ring of waits, so all of these exist.
use crate::{named, turns};
use rules::{Board, Kind, Ring};
use std::io::{Result, Write};
use text::Page;
use text::rows::{numbers, on_or_below};
use values::bits::{has, lowest, wide};
use words::Members;

// A ring, and what is said of it behind.
fn line<F: Fn(&mut Page, u64) -> Result<()>>(
    out: &mut Page,
    r: &Ring,
    set: u64,
    said: F,
) -> Result<()>
    requires { F.IsAlwaysCallable said }
{
    write!(out, "  a ring exists: ")?;
    named(out, r)?;
    write!(out, ";")?;
    on_or_below(out, 100, set, said)?;
    writeln!(out)
}

fn recorded_by(out: &mut Page, recorders: u64) -> Result<()> {
    write!(out, "recorded by ")?;
    numbers(out, 99, 'p', Members::of(recorders))
}

// Some of a ring may have recorded another, and then their places are filled.
fn not_by(out: &mut Page, filled: u64) -> Result<()> {
    if filled == 0 {
        return write!(out, "not recorded yet");
    }
    write!(out, "not recorded, but ")?;
    numbers(out, 77, 'p', Members::of(filled))?;
    write!(out, " of it recorded another")
}

// Each ring in the first of the places that have it.
pub fn recorded(out: &mut Page, b: &Board) -> Result<()> {
    for (place, r) in b.rings.iter().enumerate() {
        let recorders = turns::recorders(&b.rings, r);
        if lowest(recorders) == place {
            line(out, r, recorders, recorded_by)?;
        }
    }
    Ok(())
}

// Those whose lists are in flight.
fn starters(b: &Board) -> u64 {
    let mut set = 0;
    for n in Members::of(b.occupied) {
        let n = wide(n);
        if let Kind::ListToHome | Kind::ListToObject(_) = b.flights[n].kind {
            set = turns::marked(set, b.lists[n].who[0]);
        }
    }
    set
}

// The filled places of a ring that is not recorded, where no list may record it. All who are in it stand in lines, so each has started a
// list, which is in flight or has ended. One in flight may record the ring yet, where its starter's place is empty.
fn without_list(ring: u64, seeking: u64, filled: u64) -> u64 {
    if seeking & ring == 0 {
        filled & ring
    } else {
        0
    }
}

pub fn not_recorded(out: &mut Page, b: &Board) -> Result<()> {
    let filled = turns::filled(&b.rings);
    let seeking = starters(b) & !filled;
    let sets = search::arcs(*b);
    let mut told = turns::in_recorded(&b.rings);
    for p in 0..16 {
        let r = search::along(sets, p);
        if !has(told, p) && r.count != 0 {
            let ring = turns::members(&r);
            line(out, &r, without_list(ring, seeking, filled), not_by)?;
            told |= ring;
        }
    }
    Ok(())
}
