// The engine of the board: one loop that holds the board as a local. It makes every write itself but those of the second and later grants
// of one release. Each handler is shown one book. Only the bench calls it, on a board that was tested for shape or on an opening.
#![tactic(auto)]

ghost use Rattle.std.specs.Prelude.{◌≡◌};
ghost use Rattle.rules.specs.Board as Boards;
ghost use Rattle.engine.specs.Ready.{Ready};
ghost use Rattle.engine.specs.Work.{Reach, Worked};

pub use crate::next::{Lowest, Source};
use crate::packed::home_answer;
use rules::{Answer, Board, Flight, Kind, Ran};
use values::bits::wide;

mod grants;
mod next;
mod packed;

// Each command that the source gives, on the board; each answer's number into the room. At most so many turns. The caller says the load at
// the start. It is a call of its own for a drain too: put into its one caller it would have room for one more board made ready each time.
#[inline(never)]
pub fn turns<S: Source + Copy>(
    start: Board,
    source: S,
    most: usize,
    room: &mut [u8],
    loaded: usize,
) -> Ran
    requires { Ready start × Reach (S.drains source) (S.commands source) most room.old × (loaded ≡ Boards.load start) }
    ensures { Worked (S.drains source) start (S.commands source) most room.old result room.new }
{
    let mut b = start;
    let free = Flight { kind: Kind::Free };
    let none = values::message::no_entries();
    let mut load = loaded;
    // A loop with a count of its own: how many turns were made is handed back, also where a drain ends before the last.
    let mut i: usize = 0;
    while i < most {
        let (hi, lo) = match source.command(i, b.occupied) {
            Some(bytes) => bytes,
            None => break,
        };
        let at_room = source.place(i);
        if crate::packed::is_at_home(hi) {
            let pi = wide((hi / 4) % 16);
            let book = b.processes[pi];
            let answer = home_answer(hi, lo, b.process_count, b.object_count, book, load);
            room[at_room] = u8::from(answer);
            i += 1;
            if !answer.is_done() {
                continue;
            }
            let process = crate::packed::book_after(hi, lo, book);
            b.processes[pi] = process;
            let to = values::bits::lowest_free(b.occupied);
            let out = crate::packed::kind_sent(hi, lo);
            load += values::message::kind_load(out);
            let flight = Flight { kind: out };
            b.flights[to] = flight;
            b.lists[to] = none;
            b.occupied = values::bits::with(b.occupied, to as u8);
            continue;
        }
        let num = hi % 64;
        let answer = crate::packed::delivery_answer(b.occupied, num);
        room[at_room] = u8::from(answer);
        i += 1;
        if !answer.is_done() {
            continue;
        }
        let at = wide(num);
        let arrived = b.flights[at];
        let list = b.lists[at];
        let sort = arrived.kind;
        load -= values::message::kind_load(sort);
        b.flights[at] = free;
        b.lists[at] = none;
        b.occupied = values::bits::without(b.occupied, num);
        let to = values::bits::lowest_free(b.occupied);
        // Each arm sends for itself: arms that meet at one send cost 4 to 9 parts in a hundred more time (docs/DECISIONS.md, One engine).
        match sort {
            Kind::Free => {}
            Kind::Request(q, x, mode) => {
                let xi = wide(x);
                let old = b.objects[xi];
                if objects::is_welcome(old, q, mode) {
                    let held = objects::hold(old, q, mode);
                    b.objects[xi] = held;
                    load += 1;
                    let flight = Flight {
                        kind: Kind::Grant(q, x, mode),
                    };
                    b.flights[to] = flight;
                    b.lists[to] = none;
                    b.occupied = values::bits::with(b.occupied, to as u8);
                    continue;
                }
                let joined = objects::join(old, q, mode);
                b.objects[xi] = joined;
                load = load + wide(joined.line_count) - wide(old.line_count);
                let entries = lists::started(old, q, mode, old.line_count);
                let out = lists::asks_next(entries.next, entries.count);
                let more = values::message::kind_load(out);
                if more == 0 {
                    continue;
                }
                load += more;
                let flight = Flight { kind: out };
                b.flights[to] = flight;
                b.lists[to] = entries;
                b.occupied = values::bits::with(b.occupied, to as u8);
            }
            Kind::Grant(q, x, mode) => {
                let qi = wide(q);
                let process = processes::granted(b.processes[qi], x, mode);
                b.processes[qi] = process;
            }
            Kind::Release(q, x) => {
                let xi = wide(x);
                let struck = objects::strike(b.objects[xi], q);
                if !objects::front_goes(struck) {
                    b.objects[xi] = struck;
                    continue;
                }
                let book = objects::let_in(struck);
                b.objects[xi] = book;
                let flight = Flight {
                    kind: crate::grants::grant_at(struck, 0, x),
                };
                b.flights[to] = flight;
                b.lists[to] = none;
                b.occupied = values::bits::with(b.occupied, to as u8);
                let granted = struck.line_count - book.line_count;
                if granted == 1 {
                    continue;
                }
                b = crate::grants::grant_rest(b, struck, x, granted);
                load = sums::load(b);
            }
            Kind::ListToHome => {
                let qi = wide(crate::packed::asked_of(list));
                let process = b.processes[qi];
                let wait = process.wait;
                let onward = lists::onward(list.next, list.count, wait);
                let out = onward.kind;
                let more = values::message::kind_load(out);
                if more == 0 {
                    continue;
                }
                load += more;
                let mut entries = list;
                entries.next = onward.next;
                let flight = Flight { kind: out };
                b.flights[to] = flight;
                b.lists[to] = entries;
                b.occupied = values::bits::with(b.occupied, to as u8);
            }
            Kind::ListToObject(x) => {
                let book = b.objects[wide(x)];
                let place = objects::place_in(book, crate::packed::asked_of(list));
                if lists::closes(list, book, place) {
                    let si = wide(crate::packed::starter_of(list));
                    let ring = lists::ring::along_leads(list, wide(list.next));
                    let kept = lists::ring::keeping(b.rings[si], ring);
                    b.rings[si] = kept;
                    continue;
                }
                let entries = lists::grown(list, book, place);
                let out = lists::asks_next(entries.next, entries.count);
                let more = values::message::kind_load(out);
                if more == 0 {
                    continue;
                }
                load += more;
                let flight = Flight { kind: out };
                b.flights[to] = flight;
                b.lists[to] = entries;
                b.occupied = values::bits::with(b.occupied, to as u8);
            }
        }
    }
    Ran {
        answer: Answer::Done,
        commands: i,
        board: b,
    }
}
