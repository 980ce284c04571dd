// The board's types: books, messages, lists, rings, commands and answers.
// What the commands do to a board is defined in specs/, a sentence of the paper beside each rule; beside the types stand the numbers and the
// words of answers and modes alone.
#![tactic(auto)]

mod named;

#[derive(Clone, Copy, PartialEq, Eq)]
pub enum Mode {
    Shared,
    Exclusive,
}

// What the home of a process notes of its wait: the object and the mode, or none. Document 01 asks for 'a process record holding an enum for
// its wait', so it is no Option.
#[derive(Clone, Copy, PartialEq, Eq, Default)]
pub enum Wait {
    #[default]
    NotWaiting,
    Waiting(u8, Mode),
}

// The book of a process, kept by its home: the objects that it holds, as one set for each mode.
#[derive(Clone, Copy, PartialEq, Eq, Default)]
pub struct Process {
    pub shared: u64,
    pub exclusive: u64,
    pub wait: Wait,
    pub released: bool,
}

// The book of an object, kept by its home: the holders, as one set for each mode, and the line, oldest first.
// Digit k of `line_exclusive` is the mode of place k of the line. An array with its count beside it: the rules (`who_at`, `place_in`, `joined`)
// speak of sixteen places on any board, and of those past the count too (`object_fits`).
#[derive(Clone, Copy, PartialEq, Eq, Default)]
pub struct Object {
    pub shared: u64,
    pub exclusive: u64,
    pub line: [u8; 16],
    pub line_exclusive: u64,
    pub line_count: u8,
}

// What a message is. A list is on its way to the home of its next entry, or to an object. An unused number is Free.
#[derive(Clone, Copy, PartialEq, Eq, Default)]
pub enum Kind {
    #[default]
    Free,
    Request(u8, u8, Mode),
    Grant(u8, u8, Mode),
    Release(u8, u8),
    ListToHome,
    ListToObject(u8),
}

// The entries of a list: the process of each and the place of the entry that led to it; and the place of the entry asked next. Two rows and not
// one of pairs: the rules (`add_all`, `along_leads`, `list_fits`) read each by itself, past the count too.
#[derive(Clone, Copy, PartialEq, Eq, Default)]
pub struct Entries {
    pub who: [u8; 16],
    pub leads: [u8; 16],
    pub count: u8,
    pub next: u8,
}

// A message as the rules take and send it: its kind, with a list's entries beside it.
#[derive(Clone, Copy, PartialEq, Eq, Default)]
pub struct Message {
    pub kind: Kind,
    pub list: Entries,
}

// The kind of the message that is in flight under a number. Its list stands under the same number in `lists`.
#[derive(Clone, Copy, PartialEq, Eq, Default)]
pub struct Flight {
    pub kind: Kind,
}

// A recorded ring, starter first; a count of zero is an empty place, and so says what is promised of rings (`Demand3`, of filled places): it
// is no Option.
#[derive(Clone, Copy, PartialEq, Eq, Default)]
pub struct Ring {
    pub processes: [u8; 16],
    pub count: u8,
}

// What an object's home makes of a request: its book, and the grant or the list that it sends.
#[derive(Clone, Copy)]
pub struct Arrived {
    pub object: Object,
    pub sent: Message,
}

// What an object's home makes of a list: the list that goes on, and the ring that was found; no ring (the empty
// ring, as `Ring` has it) where none was.
#[derive(Clone, Copy)]
pub struct Looked {
    pub sent: Message,
    pub ring: Ring,
}

// Books and homes are rows of their own, and the lists stand beside the kinds, as document 01 has it ('the list's entries stand in an array
// beside it'): a command that sends no list reads none.
#[derive(Clone, Copy)]
pub struct Board {
    pub nodes: u8,
    pub process_count: u8,
    pub object_count: u8,
    pub process_home: [u8; 16],
    pub object_home: [u8; 16],
    pub processes: [Process; 16],
    pub objects: [Object; 16],
    pub occupied: u64,
    pub flights: [Flight; 64],
    pub lists: [Entries; 64],
    pub rings: [Ring; 16],
}

// Process, object and mode of a request; process and object of a release; the message number of a delivery. The mode is a number, since a
// caller can give any: `NoMode` refuses it.
#[derive(Clone, Copy, PartialEq, Eq)]
pub enum Command {
    Request(u8, u8, u8),
    Release(u8, u8),
    Deliver(u8),
}

// Done, then one case for each row of the table of answer numbers, in its order. Done is a row of that table (`number`, and the bytes of an
// answer room), so an answer is no Result.
#[derive(Clone, Copy, PartialEq, Eq)]
pub enum Answer {
    Done,
    CountOutside,
    HomeOutside,
    NoProcess,
    NoObject,
    NoMode,
    ProcessWaits,
    HasReleased,
    HoldsAlready,
    HoldsNot,
    LoadTooHigh,
    NoMessage,
    SheetCut,
    WrongForm,
    SpareBit,
    OddByte,
    TooManyCommands,
    OutOfShape,
    RoomTooShort,
}

// What an opening, and a call on a board, hands back. The board comes back with a refusal too, as it was or all zeros (`answered`): so it is no
// Result.
#[derive(Clone, Copy)]
pub struct Stepped {
    pub answer: Answer,
    pub board: Board,
}

// What a drain hands back: how many deliveries were made, and the board, with a refusal too. So it is no Result, as `Stepped` is none.
#[derive(Clone, Copy)]
pub struct Drained {
    pub answer: Answer,
    pub made: usize,
    pub board: Board,
}

// What running commands into lent room hands back: how many commands were run, and the board, with a refusal too. So it is no Result, as
// `Stepped` is none.
#[derive(Clone, Copy)]
pub struct Ran {
    pub answer: Answer,
    pub commands: usize,
    pub board: Board,
}
