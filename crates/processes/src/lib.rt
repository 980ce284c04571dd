// What the home of a process does on a command and on a grant: one process's book.
// That an object's number is below 16 is asked of each call and stands in no type: it comes from a packed command or from a message's kind, a
// record with public fields, and every call would wrap it.
#![tactic(auto)]

ghost use Rattle.std.specs.Prelude.{◌≡◌, ◌<◌};
ghost use Rattle.rules.specs.Answers as Answers;
ghost use Rattle.rules.specs.Home as Home;
ghost use Rattle.processes.specs.Tests as Tests;

use rules::{Answer, Mode, Process, Wait};
use values::bits::{has, marked, without};
use values::mode::is_exclusive;

pub fn is_waiting(w: Wait) -> bool
    ensures { result ≡ Home.is_waiting w }
{
    matches!(w, Wait::Waiting(..))
}

pub fn holds(p: Process, o: u8) -> bool
    requires { o < 16 }
    ensures { result ≡ Home.holding p o }
{
    has(p.shared | p.exclusive, o)
}

// The home notes the wait.
pub fn asking(p: Process, o: u8, m: Mode) -> Process
    ensures { result ≡ Home.asking p o m }
{
    Process {
        wait: Wait::Waiting(o, m),
        ..p
    }
}

// The home drops the hold and notes that the process has released. `objects::strike` and `hold` do with an object's book as this and
// `granted` do with a process's: the two books have two fields of one name, and no type, in common.
pub fn dropping(p: Process, o: u8) -> Process
    requires { o < 16 }
    ensures { result ≡ Home.dropping p o }
{
    Process {
        shared: without(p.shared, o),
        exclusive: without(p.exclusive, o),
        released: true,
        ..p
    }
}

// A grant arrives: it ends any wait, and the hold is noted in its mode.
pub fn granted(p: Process, o: u8, m: Mode) -> Process
    requires { o < 16 }
    ensures { result ≡ Home.granted p o m }
{
    let exclusive = is_exclusive(m);
    Process {
        shared: marked(p.shared, o, !exclusive),
        exclusive: marked(p.exclusive, o, exclusive),
        wait: Wait::NotWaiting,
        ..p
    }
}

// The refusals that a request and a release have in common, in their order. The numbers come one by one and in no record: they are locals
// of the engine's loop, which would put a record together for each command only to have it taken apart here.
#[inline]
fn common_refusal(p: u8, o: u8, processes: u8, objects: u8, book: Process) -> Option<Answer>
    ensures { result ≡ Tests.refusal_of (Tests.common_tests p o processes objects book) }
{
    if processes <= p {
        Some(Answer::NoProcess)
    } else if objects <= o {
        Some(Answer::NoObject)
    } else if is_waiting(book.wait) {
        Some(Answer::ProcessWaits)
    } else {
        None
    }
}

// The refusals of a request, in their order, but those of the mode and of the load.
pub fn request_answer(p: u8, o: u8, processes: u8, objects: u8, book: Process) -> Answer
    requires { o < 16 }
    ensures { result ≡ Answers.first_of (Tests.home_request_tests p o processes objects book) }
{
    if let Some(refusal) = common_refusal(p, o, processes, objects, book) {
        refusal
    } else if book.released {
        Answer::HasReleased
    } else if holds(book, o) {
        Answer::HoldsAlready
    } else {
        Answer::Done
    }
}

// The refusals of a release, in their order, but that of the load.
pub fn release_answer(p: u8, o: u8, processes: u8, objects: u8, book: Process) -> Answer
    requires { o < 16 }
    ensures { result ≡ Answers.first_of (Tests.home_release_tests p o processes objects book) }
{
    if let Some(refusal) = common_refusal(p, o, processes, objects, book) {
        refusal
    } else if holds(book, o) {
        Answer::Done
    } else {
        Answer::HoldsNot
    }
}
