// A process at a place of an object's line, and whom it waits for.
ghost use Rattle.std.specs.Prelude.{◌≡◌, ◌<◌, ◌≤◌, not, ◌&&◌, eqb};
ghost use Rattle.rules.specs.Tables as Tables;
ghost use Rattle.rules.specs.Book as Book;
ghost use Rattle.rules.specs.Ranges.{LineRanged};
ghost use Rattle.objects.specs.Sets.{SetOf};

use rules::{Mode, Object};
use values::bits::{has, wide};

// A process that stands in the mode at a place of the line in the book, or that comes to stand there.
#[derive(Clone, Copy)]
pub struct Standing {
    pub book: Object,
    pub process: u8,
    pub mode: Mode,
    pub place: u8,
    ghost in_range: { LineRanged book × (process < 16) × (place ≤ 16) },
}

impl Standing {
    // Those who hold in conflict with it, as a set.
    pub fn rivals(self) -> u64
        ensures { SetOf (Book.rival self.book self.process self.mode) result }
    {
        objects::rivals(self.book, self.process, self.mode)
    }

    // Process q, at place i of the line, is in its way.
    pub fn is_barred(self, q: u8, i: u8) -> bool
        requires { i < 16 }
        ensures { result ≡ (not (eqb q self.process) && Book.conflict self.mode (Book.mode_at self.book i)) }
    {
        objects::bars(q, self.book.line_exclusive, self.process, self.mode, i)
    }

    // It stands behind process s, in conflict. What this and the loops of `gather`, `search` and `waits` share is the test `objects::bars`.
    fn is_behind(self, s: u8) -> bool
        ensures { result ≡ Tables.among s (Book.ahead self.book self.process self.mode self.place) }
    {
        let ahead = wide(self.place);
        self.book.line[..ahead]
            .iter()
            .enumerate()
            .any(|(i, &q)| q == s && self.is_barred(q, i as u8))
    }

    // It waits for process s.
    pub fn waits_for(self, s: u8) -> bool
        requires { s < 16 }
        ensures { result ≡ Tables.among s (Book.waited_for self.book self.process self.mode self.place) }
    {
        has(self.rivals(), s) || self.is_behind(s)
    }
}
