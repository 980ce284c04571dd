// The print of a chart: a line for each total, put on one page. Each function says what room its text needs: the numbers differ, so no type
// holds them.
#![tactic(auto)]

ghost use Rattle.std.specs.Prelude.{◌≡◌, ◌+◌, ◌<◌, ◌≤◌, length};
ghost use Rattle.arrayvec.specs.ArrayVec.{array_vec_len, Extends};
ghost use Rattle.charted.specs.Lines.{total_line, place_line, refused_lines, ring_lines, chart_lines};

use text::{Page, number, put, word};
use totals::Totals;

// A name and a number.
fn total_line(out: &mut Page, name: &[u8], n: u64)
    requires { (array_vec_len out.old + 40 ≤ 65536) × (length name.now ≤ 8) }
    ensures text { Extends out.old (total_line name.now n) out.new }
    ensures room { array_vec_len out.new ≤ array_vec_len out.old + 40 }
{
    word(out, name);
    put(out, b' ');
    number(out, n);
    put(out, b'\n');
}

// A name, a place of a table, and the number there.
fn place_line(out: &mut Page, name: &[u8], table: &[u64; 17], k: usize)
    requires { (array_vec_len out.old + 40 ≤ 65536) × (length name.now ≤ 8) × (k < 17) }
    ensures text { Extends out.old (place_line name.now table.now k) out.new }
    ensures room { array_vec_len out.new ≤ array_vec_len out.old + 40 }
{
    word(out, name);
    put(out, b' ');
    number(out, k as u64);
    put(out, b' ');
    number(out, table[k]);
    put(out, b'\n');
}

// The numbers that a sheet is refused with, rising: each is printed too, so it is a number and no place of the table alone.
fn refused_lines(out: &mut Page, table: &[u64; 17])
    requires { array_vec_len out.old + 240 ≤ 65536 }
    ensures text { Extends out.old (refused_lines table.now) out.new }
    ensures room { array_vec_len out.new ≤ array_vec_len out.old + 240 }
{
    for k in [2, 12, 13, 14, 15, 16] {
        place_line(out, b"refused", table, k);
    }
}

// The lengths that a ring can have, rising: a length is printed too, so it is a number and no place of the table alone.
fn ring_lines(out: &mut Page, table: &[u64; 17])
    requires { array_vec_len out.old + 600 ≤ 65536 }
    ensures text { Extends out.old (ring_lines table.now) out.new }
    ensures room { array_vec_len out.new ≤ array_vec_len out.old + 600 }
{
    for k in 2..17 {
        place_line(out, b"rings", table, k);
    }
}

// All 25 lines, and nothing else on the page.
pub fn composed(out: &mut Page, t: Totals)
    ensures { (out.new.items ≡ chart_lines t) × (array_vec_len out.new ≤ 65536) }
{
    out.clear();
    total_line(out, b"sheets", t.sheets);
    total_line(out, b"ran", t.ran);
    total_line(out, b"refused", t.refused);
    refused_lines(out, &t.refused_with);
    total_line(out, b"ringed", t.ringed);
    ring_lines(out, &t.rings);
}
