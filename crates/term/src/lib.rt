// The sheets of a term, taken in as a stream of pieces of any size: a chart by value, and a lent buffer that holds one sheet.
#![tactic(auto)]

ghost use Rattle.std.specs.Prelude.{◌≡◌, ◌<◌, ◌≤◌, true, false, length, MatchOption};
ghost use Rattle.text.specs.Text.{behind};
ghost use Rattle.totals.specs.Stream as Stream;
ghost use Rattle.totals.specs.declared.Totals.{Totals as TotalsOf};
ghost use Rattle.totals.specs.Totals as Count;
ghost use Rattle.term.specs.Feed as Feed;

use rules::Answer;
use totals::{Came, Totals};

// Where a stream stands: before the length of a sheet, between the two bytes of a length, inside a sheet, or at its end. Of a sheet it is
// said how many of its bytes came, counted up to 8,207, one more than the buffer holds, and how many are to come. It is a count that stops
// (`byte` of specs/Feed.antt), as a total does, and so no Option beside it. The buffer is lent
// beside it (docs/DECISIONS.md, The lent buffer of one sheet).
#[derive(Clone, Copy, PartialEq, Eq)]
pub enum Place {
    Between,
    Length(u8),
    Inside(usize, usize),
    Ended,
}

#[derive(Clone, Copy, PartialEq, Eq)]
pub struct Chart {
    pub totals: Totals,
    pub place: Place,
}

// Nothing has come.
pub fn new() -> Chart
    ensures { result ≡ Feed.new }
{
    Chart {
        totals: totals::none(),
        place: Place::Between,
    }
}

// What a sheet of so many bytes comes to, of which those that there was room for stand in the buffer.
fn came(sheet: &[u8; 8206], held: usize) -> Came
    ensures { result ≡ Count.came (Stream.sized held sheet.now) }
{
    if sheet.len() < held {
        return totals::refused_as(Answer::TooManyCommands);
    }
    let mut room = [0u8; 4096];
    let ran = sheet::run(&sheet[..held], &mut room);
    let rings = ran.board.rings;
    Came {
        answer: ran.answer,
        rings,
    }
}

impl Place {
    // How many bytes can be taken at once: inside a sheet all that are to come.
    fn at_once(self) -> usize
        ensures { (result ≡ Feed.at_once self) × (0 < result) }
    {
        match self {
            Place::Inside(_, left) => left.max(1),
            _ => 1,
        }
    }

    // Where the stream stands after some bytes, not more than can be taken at once.
    fn moved(self, sheet: &mut [u8; 8206], bytes: &[u8]) -> Place
        requires { (0 < length bytes.now) × (length bytes.now ≤ Feed.at_once self) }
        ensures { (t : TotalsOf) → Feed.fed (Feed.at t self sheet.old) bytes.now ≡ Feed.settled t result sheet.new }
    {
        match self {
            Place::Between => Place::Length(bytes[0]),
            Place::Length(high) => Place::Inside(
                0,
                256 * usize::from(high) + usize::from(bytes[0]),
            ),
            Place::Inside(held, left) => {
                text::keep(sheet, held, bytes);
                let n = bytes.len();
                Place::Inside(held.saturating_add(n).min(8207), left.saturating_sub(n))
            }
            Place::Ended => Place::Ended,
        }
    }

    // How many bytes of its sheet came, where the sheet is whole: where no byte of it is to come.
    fn whole(self) -> Option<usize>
        ensures { MatchOption result (Feed.is_whole self ≡ false) (λ n. (Feed.is_whole self ≡ true) × (n ≡ Feed.held_in self)) }
    {
        match self {
            Place::Inside(held, 0) => Some(held),
            _ => None,
        }
    }
}

// A piece of any size is taken in. The totals are handed on for a whole sheet alone: they are dearer to hand on than a place.
pub fn feed(c: Chart, sheet: &mut [u8; 8206], piece: &[u8]) -> Chart
    ensures { (result ≡ (Feed.fed (Feed.beside c sheet.old) piece.now).chart) × (sheet.new ≡ (Feed.fed (Feed.beside c sheet.old) piece.now).sheet) }
{
    let mut totals = c.totals;
    let mut place = c.place;
    let mut rest = piece;
    while !rest.is_empty() {
        let (now, later) = rest.split_at(rest.len().min(place.at_once()));
        place = place.moved(sheet, now);
        rest = later;
        if let Some(held) = place.whole() {
            totals = totals::noted(totals, came(sheet, held));
            place = Place::Between;
        }
    }
    Chart { totals, place }
}

// The stream has ended. A sheet that it ended in is counted as cut off.
pub fn ended(c: Chart) -> Chart
    ensures { result ≡ Feed.ended c }
{
    let totals = match c.place {
        Place::Between | Place::Ended => c.totals,
        Place::Length(_) | Place::Inside(_, _) => totals::noted(
            c.totals,
            totals::refused_as(Answer::SheetCut),
        ),
    };
    Chart {
        totals,
        place: Place::Ended,
    }
}
