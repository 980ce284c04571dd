// The totals of a chart, and what one sheet more makes of them.
#![tactic(auto)]

ghost use Rattle.std.specs.Prelude.{◌≡◌, [], eqb, ltb, get_or};
ghost use Rattle.rules.specs.Tables.{pick, rows};
ghost use Rattle.rules.specs.Board.{tally_of, rings_of_length};
ghost use Rattle.totals.specs.Totals as Chart;

use rules::{Answer, Ring};

// How many sheets there were, how many of them ran and how many were refused; how many were refused with each number; how many ended with a
// recorded ring; and how many recorded rings there were of each length.
#[derive(Clone, Copy, PartialEq, Eq, Default)]
pub struct Totals {
    pub sheets: u64,
    pub ran: u64,
    pub refused: u64,
    // By the number of the answer, which is the place (`ByNumber` of term); places that no sheet is refused with stay 0.
    pub refused_with: [u64; 17],
    pub ringed: u64,
    pub rings: [u64; 17],
}

// What a sheet comes to: its answer, and the rings that are recorded on its final board. No Result: the definitions `came` and `noted` take
// the answer and the rings beside it, none where the sheet was refused.
#[derive(Clone, Copy, PartialEq, Eq)]
pub struct Came {
    pub answer: Answer,
    pub rings: [Ring; 16],
}

// No sheet yet: the default, by the name that stands for the chart of no sheets (`totals_of`).
pub fn none() -> Totals
    ensures { result ≡ Chart.totals_of [] }
{
    Totals::default()
}

// One more, up to the largest number.
fn one_more(total: u64) -> u64
    ensures { result ≡ Chart.more total 1 }
{
    total.saturating_add(1)
}

// One more at place i of a table, if it has that place. What `get_mut` lends of an array is not followed back into it by the library's
// clauses: the length is known after it and no element, so the place is tested and written.
fn one_more_at(table: &mut [u64; 17], i: usize)
    ensures { table.new ≡ rows 17 (λ k. Chart.more (get_or table.old k 0) (pick (eqb k i) 1 0)) }
{
    if i < table.len() {
        table[i] = one_more(table[i]);
    }
}

// The rings that are recorded on a board, each at its length.
fn with_rings(table: [u64; 17], rings: [Ring; 16]) -> [u64; 17]
    ensures { result ≡ rows 17 (λ l. Chart.more (get_or table l 0) (rings_of_length rings l)) }
{
    let mut next = table;
    for (s, ring) in rings.iter().enumerate() {
        if sums::counts(rings, s) {
            one_more_at(&mut next, usize::from(ring.count));
        }
    }
    next
}

// A sheet that was refused with this number: the place of the table (`ByNumber` of term), so no Answer.
fn refused(t: Totals, code: usize) -> Totals
    ensures { result ≡ Chart.plus t 0 1 (λ n. pick (eqb n code) 1 0) 0 (λ l. 0) }
{
    let mut refused_with = t.refused_with;
    one_more_at(&mut refused_with, code);
    Totals {
        sheets: one_more(t.sheets),
        refused: one_more(t.refused),
        refused_with,
        ..t
    }
}

// A sheet that ran, with these rings recorded on its final board.
fn ran(t: Totals, recorded: [Ring; 16]) -> Totals
    ensures { result ≡ Chart.plus t 1 0 (λ n. 0) (pick (ltb 0 (tally_of recorded)) 1 0) (rings_of_length recorded) }
{
    let ringed = 0 < sums::tally_of(recorded);
    Totals {
        sheets: one_more(t.sheets),
        ran: one_more(t.ran),
        ringed: if ringed { one_more(t.ringed) } else { t.ringed },
        rings: with_rings(t.rings, recorded),
        ..t
    }
}

// A sheet that is refused without being run.
pub fn refused_as(answer: Answer) -> Came
    ensures { result ≡ Chart.refused_as answer }
{
    Came {
        answer,
        rings: [Ring::default(); 16],
    }
}

// One sheet more, by what it came to.
pub fn noted(t: Totals, sheet: Came) -> Totals
    ensures { result ≡ Chart.noted t sheet }
{
    match sheet.answer {
        Answer::Done => ran(t, sheet.rings),
        refusal => refused(t, usize::from(u8::from(refusal))),
    }
}
