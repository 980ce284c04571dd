// Those that a process waits for, added to a list: holders by rising number, then those ahead in the line.
ghost use Rattle.std.specs.Prelude.{◌≡◌, ◌<◌, false, length};
ghost use Rattle.rules.specs.Bits as Bits;
ghost use Rattle.rules.specs.Tables as Tables;
ghost use Rattle.rules.specs.Book as Book;
ghost use Rattle.rules.specs.Lists as Lists;
ghost use Rattle.rules.specs.Ranges.{ListRanged};
ghost use Rattle.lists.specs.Growing.{list_in};
ghost use Rattle.lists.specs.Sets.{Marks, Fresh};

use crate::standing::Standing;
use rules::Entries;
use values::bits::{has, lowest, wide, with, without};

// Those who stand in the list, as a set.
pub fn listed(l: &Entries) -> u64
    requires { ListRanged l.now }
    ensures { Marks l.now result }
{
    let n = wide(l.count);
    let mut seen = 0;
    for &p in &l.who[..n] {
        seen = with(seen, p);
    }
    seen
}

// The rows of a list while it grows: they are written here, and its record is made of them at the end (docs/DECISIONS.md, What a handler
// hands back). How many entries there are is handed along beside them, since a count in memory would be read back for each entry.
#[derive(Clone, Copy)]
pub struct Rows {
    pub who: [u8; 16],
    pub leads: [u8; 16],
}

// One more entry at the list's end, which the entry at the lead led to; how many there are then. A list of 16 does not grow.
fn add_entry(rows: &mut Rows, count: u8, q: u8, lead: u8) -> u8
    requires { count < 16 → Lists.listed (list_in rows.old count) q ≡ false }
    ensures { list_in rows.new result ≡ Lists.add_one (list_in rows.old count) lead q }
{
    if 16 <= count {
        return count;
    }
    let end = wide(count);
    rows.who[end] = q;
    rows.leads[end] = lead;
    count + 1
}

// The processes of a set are added, by rising number. None of them is listed yet. The set empties here, without
// `words::Members`, which goes over a set too and stands in a crate above this one.
fn add_set(rows: &mut Rows, start: u8, fresh: u64, lead: u8) -> u8
    requires { (length rows.old.who ≡ 16) × Fresh (list_in rows.old start) fresh }
    ensures { list_in rows.new result ≡ Lists.add_all (list_in rows.old start) lead (Tables.collect (Bits.taken fresh) (λ q. q) 16) }
{
    let mut count = start;
    let mut left = fresh;
    while left != 0 {
        let q = lowest(left) as u8;
        left = without(left, q);
        count = add_entry(rows, count, q, lead);
    }
    count
}

// Those who stand ahead of it in conflict are added. Those listed already are marked. Loops over those ahead stand in `is_behind`, in
// `search` and in `waits` too: here entries are added, there one is looked for, or a set or a row gathered; they share `objects::bars`.
fn add_ahead(rows: &mut Rows, start: u8, marks: u64, at: Standing, lead: u8) -> u8
    requires { (length rows.old.who ≡ 16) × (start < 16 → Marks (list_in rows.old start) marks) }
    ensures { list_in rows.new result ≡ Lists.add_all (list_in rows.old start) lead (Book.ahead at.book at.process at.mode at.place) }
{
    let ahead = wide(at.place);
    let mut count = start;
    let mut seen = marks;
    for (i, &q) in at.book.line[..ahead].iter().enumerate() {
        if at.is_barred(q, i as u8) && !has(seen, q) {
            seen = with(seen, q);
            count = add_entry(rows, count, q, lead);
        }
    }
    count
}

// Those that it waits for are added: holders by rising number, then those ahead. Those listed already are marked.
pub fn add_waited(rows: &mut Rows, start: u8, marks: u64, at: Standing, lead: u8) -> u8
    requires { (length rows.old.who ≡ 16) × Marks (list_in rows.old start) marks }
    ensures { list_in rows.new result ≡ Lists.add_all (list_in rows.old start) lead (Book.waited_for at.book at.process at.mode at.place) }
{
    let fresh = at.rivals() & !marks;
    let held = add_set(rows, start, fresh, lead);
    add_ahead(rows, held, marks | fresh, at, lead)
}
