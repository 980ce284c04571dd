// What a list meets: how it is started, what the home of a process does with it, and what the home of an object does with it. One list,
// and one book or one noted wait.
// That a list and a line are ranged is asked of each call and stands in no type: both come from a board, which may hold them out of range.
#![tactic(auto)]

ghost use Rattle.std.specs.Prelude.{◌≡◌, ◌<◌, ◌≤◌};
ghost use Rattle.rules.specs.Book as Book;
ghost use Rattle.rules.specs.Lists as Lists;
ghost use Rattle.rules.specs.Ranges.{LineRanged, ListRanged};
ghost use Rattle.lists.specs.Onwards as Onwards;

use gather::Rows;
use rules::{Entries, Kind, Mode, Object, Wait};
use standing::Standing;
use values::bits::{wide, with};

mod gather;
pub mod ring;
mod standing;

// One leg of the way of a list: what it is sent as, and the place of the entry asked next; Free and 0 where the list ends. That is no None:
// `asks_next` and `onward` of specs/Onwards.antt say Free, the rules' word for nothing sent.
#[derive(Clone, Copy)]
pub struct Leg {
    pub kind: Kind,
    pub next: u8,
}

// The list goes to the home of the entry at the next place, or ends where it has none there.
pub fn asks_next(next: u8, count: u8) -> Kind
    ensures { result ≡ Onwards.asks_next next count }
{
    if next < count {
        Kind::ListToHome
    } else {
        Kind::Free
    }
}

// A list arrives at the home of its next entry: it goes to the object that the process waits for; otherwise the entry is done.
pub fn onward(next: u8, count: u8, w: Wait) -> Leg
    requires { next < 16 }
    ensures { result ≡ Onwards.onward next count w }
{
    match w {
        Wait::NotWaiting if next + 1 < count => Leg {
            kind: Kind::ListToHome,
            next: next + 1,
        },
        Wait::NotWaiting => Leg {
            kind: Kind::Free,
            next: 0,
        },
        Wait::Waiting(o, _) => Leg {
            kind: Kind::ListToObject(o),
            next,
        },
    }
}

// The list that p starts on joining the line at place k in the mode; the book is that before it joined. It has one entry where p waits for
// nobody.
pub fn started(o: Object, p: u8, m: Mode, k: u8) -> Entries
    requires { LineRanged o × (p < 16) × (k ≤ 16) }
    ensures { result ≡ Lists.add_all (Lists.starter p) 0 (Book.waited_for o p m k) }
{
    let mut who = [0; 16];
    who[0] = p;
    let mut rows = Rows {
        who,
        leads: [0; 16],
    };
    let joining = Standing {
        book: o,
        process: p,
        mode: m,
        place: k,
    };
    let count = gather::add_waited(&mut rows, 1, with(0, p), joining, 0);
    let Rows { who, leads } = rows;
    Entries {
        who,
        leads,
        count,
        next: 1,
    }
}

// The process asked next stands at place k of the line.
fn asked_at(l: Entries, o: Object, k: u8) -> Standing
    requires { ListRanged l × LineRanged o × (k < o.line_count) }
    ensures { (result.book ≡ o) × (result.process ≡ Lists.asked_of l) × (result.mode ≡ Book.mode_at o k) × (result.place ≡ k) }
{
    Standing {
        book: o,
        process: l.who[wide(l.next)],
        mode: objects::mode_at(o, k),
        place: k,
    }
}

// The process asked next stands at place k of the line, and waits for the starter: the list closes a ring.
pub fn closes(l: Entries, o: Object, k: u8) -> bool
    requires { ListRanged l × LineRanged o }
    ensures { result ≡ Onwards.closes l o k }
{
    k < o.line_count && asked_at(l, o, k).waits_for(l.who[0])
}

// The list after its next entry is done, with those that the process waits for at place k of the line; with nobody more where it does
// not stand there.
pub fn grown(l: Entries, o: Object, k: u8) -> Entries
    requires { ListRanged l × LineRanged o }
    ensures { result ≡ Onwards.grown l o k }
{
    let who = l.who;
    let leads = l.leads;
    let mut rows = Rows { who, leads };
    let count = if k < o.line_count {
        gather::add_waited(
            &mut rows,
            l.count,
            gather::listed(&l),
            asked_at(l, o, k),
            l.next,
        )
    } else {
        l.count
    };
    let Rows { who, leads } = rows;
    Entries {
        who,
        leads,
        count,
        next: l.next + 1,
    }
}
