// What the home of an object does on a request and on a release: one message, one object's book.
// That a process's number is below 16, and that a line is ranged, is asked of each call and stands in no type: both come from records with
// public fields, a message's kind and a board's book, which any board may hold out of range (`shape` tells), and every call would wrap them.
#![tactic(auto)]

ghost use Rattle.std.specs.Prelude.{◌≡◌, ◌<◌, [], ◌∷◌, ◌++◌, not, ◌&&◌, eqb, drop};
ghost use Rattle.rules.specs.Bits as Bits;
ghost use Rattle.rules.specs.Book as Book;
ghost use Rattle.rules.specs.Ranges.{LineRanged};
ghost use Rattle.objects.specs.Fronts as Fronts;
ghost use Rattle.objects.specs.Sets.{SetOf};

use rules::{Mode, Object};
use std::array;
use values::bits::{has, marked, without};
use values::mode::{is_exclusive, mode_if};

// Those who hold in conflict with process p in the mode, as a set.
pub fn rivals(o: Object, p: u8, m: Mode) -> u64
    requires { p < 16 }
    ensures { SetOf (Book.rival o p m) result }
{
    let against = match m {
        Mode::Shared => o.exclusive,
        Mode::Exclusive => o.shared | o.exclusive,
    };
    without(against % 65536, p)
}

// No holder conflicts with process p in the mode.
pub fn is_clear(o: Object, p: u8, m: Mode) -> bool
    requires { p < 16 }
    ensures { result ≡ Book.clear o p m }
{
    rivals(o, p, m) == 0
}

// The mode of the one at a place of the line.
pub fn mode_at(o: Object, k: u8) -> Mode
    requires { k < 16 }
    ensures { result ≡ Book.mode_at o k }
{
    mode_if(has(o.line_exclusive, k))
}

// The place of p in the line; the line's length where it is not there, and no Option: the rules' `place_in` is this number, and what a list
// does next (`lists::closes`, `lists::grown`) is said of it, with `place < line_count` for 'it stands there'.
pub fn place_in(o: Object, p: u8) -> u8
    requires { LineRanged o }
    ensures { result ≡ Book.place_in o p }
{
    let n = usize::from(o.line_count);
    o.line[..n].iter().position(|q| *q == p).unwrap_or(n) as u8
}

// Process q, at place i of a line whose exclusive places are given, is in the way of p: it is another, and the modes conflict.
pub fn bars(q: u8, exclusive: u64, p: u8, m: Mode, i: u8) -> bool
    requires { i < 16 }
    ensures { result ≡ (not (eqb q p) && Book.conflict m (Book.mode_if (Bits.taken exclusive i))) }
{
    q != p && (is_exclusive(m) || has(exclusive, i))
}

// The process becomes a holder, which replaces any hold that it has there. `processes::granted` and `dropping` do with a process's book as
// this and `strike` do with an object's: the two books have two fields of one name, and no type, in common.
pub fn hold(o: Object, p: u8, m: Mode) -> Object
    requires { p < 16 }
    ensures { result ≡ Book.held o p m }
{
    let exclusive = is_exclusive(m);
    Object {
        shared: marked(o.shared, p, !exclusive),
        exclusive: marked(o.exclusive, p, exclusive),
        ..o
    }
}

// The holder, if it is there, is struck.
pub fn strike(o: Object, p: u8) -> Object
    requires { p < 16 }
    ensures { result ≡ Book.struck o p }
{
    Object {
        shared: without(o.shared, p),
        exclusive: without(o.exclusive, p),
        ..o
    }
}

// The process joins the end of the line; a line of 16 does not grow.
pub fn join(o: Object, p: u8, m: Mode) -> Object
    ensures { result ≡ Book.joined o p m }
{
    let n = o.line_count;
    if 16 <= n {
        return o;
    }
    let mut line = o.line;
    line[usize::from(n)] = p;
    Object {
        line,
        line_exclusive: marked(o.line_exclusive, n, is_exclusive(m)),
        line_count: n + 1,
        ..o
    }
}

// The line is empty and no holder conflicts.
pub fn is_welcome(o: Object, p: u8, m: Mode) -> bool
    requires { p < 16 }
    ensures { result ≡ Book.welcome o p m }
{
    o.line_count == 0 && is_clear(o, p, m)
}

// The front of the line conflicts with no holder.
pub fn front_clear(o: Object) -> bool
    requires { LineRanged o }
    ensures { result ≡ Book.front_clear o }
{
    is_clear(o, o.line[0], mode_at(o, 0))
}

// The places of a line after its front has left: each has what stood one place on. Written whole: turned in place, by `rotate_left`, it
// took 22 instructions in place of 10.
fn shifted(line: [u8; 16]) -> [u8; 16]
    ensures { result ≡ drop 1 line ++ 0 ∷ [] }
{
    array::from_fn(|i| line.get(i + 1).copied().unwrap_or(0))
}

// The front becomes a holder and leaves the line.
pub fn front_granted(o: Object) -> Object
    requires { LineRanged o }
    ensures { result ≡ Book.front_granted o }
{
    let held = hold(o, o.line[0], mode_at(o, 0));
    Object {
        line: shifted(o.line),
        line_exclusive: o.line_exclusive >> 1,
        line_count: o.line_count.saturating_sub(1),
        ..held
    }
}

// There is a front, and it conflicts with no holder.
pub fn front_goes(o: Object) -> bool
    requires { LineRanged o }
    ensures { result ≡ Fronts.front_goes o }
{
    0 < o.line_count && front_clear(o)
}

// The front is let in, one after another, while it conflicts with no holder. Nothing is counted here: the book says when it ends.
pub fn let_in(o: Object) -> Object
    requires { LineRanged o }
    ensures { result ≡ Fronts.let_in o }
{
    let mut book = o;
    while front_goes(book) {
        book = front_granted(book);
    }
    book
}
