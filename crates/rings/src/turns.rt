// Rings as sets and as arcs: who is in one, and which are the same ring told from another process on.
use rules::Ring;
use text::start;
use values::bits::{places, wide, with};

// The processes of a ring, starter first.
pub fn processes(r: &Ring) -> &[u8] {
    start(&r.processes, wide(r.count))
}

// The set with a process in it; there is none above 15.
pub fn marked(set: u64, p: u8) -> u64 {
    if p < 16 { with(set, p) } else { set }
}

// Those who are in a ring.
pub fn members(r: &Ring) -> u64 {
    processes(r).iter().fold(0, |set, p| marked(set, *p))
}

// Whom each process waits for in a ring: the next, and the last for the first.
fn arcs(r: &Ring) -> [Option<u8>; 16] {
    let ring = processes(r);
    let mut next = [None; 16];
    for (p, q) in ring.iter().zip(ring.iter().cycle().skip(1)) {
        if *p < 16 {
            next[wide(*p)] = Some(*q);
        }
    }
    next
}

// The places that are filled.
pub fn filled(rings: &[Ring; 16]) -> u64 {
    places(rings, |r| r.count != 0)
}

// The places that are filled with a ring or with a turn of it: those who recorded it.
pub fn recorders(rings: &[Ring; 16], ring: &Ring) -> u64 {
    let waits = arcs(ring);
    places(rings, |r| arcs(r) == waits) & filled(rings)
}

// Those who are in some recorded ring.
pub fn in_recorded(rings: &[Ring; 16]) -> u64 {
    rings.iter().fold(0, |set, r| set | members(r))
}
