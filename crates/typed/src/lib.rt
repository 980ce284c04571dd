// What a line typed at a terminal says. `read` is total: every line of bytes says something.
#![tactic(auto)]

pub mod homes;
mod names;
mod number;
mod words;

ghost use Rattle.std.specs.Prelude.{◌≡◌, ◌+◌, ◌<◌, ◌^◌, length};
ghost use Rattle.typed.specs.Numbers as Numbers;
ghost use Rattle.typed.specs.Reading as Reading;
ghost use Rattle.typed.specs.Spans.{words_left};

use words::Words;

// What the first word of a line names. A line with no word is Blank.
#[derive(Clone, Copy, PartialEq, Eq)]
pub enum Verb {
    Blank,
    Open,
    Request,
    Release,
    Deliver,
    Drain,
    Follow,
    Show,
    Messages,
    Waits,
    Rings,
    Undo,
    Help,
    Quit,
    Unknown,
}

// A line as it is understood: the verb, the numbers after it, how many words came after it, and the place of the first of these that is
// not understood, counted from 1. Three counts and the homes of 16 processes and 16 objects are the longest row. The count is no length
// of it: words that are not understood and those past the row are counted too, as `with_odd` and `with_number` say.
#[derive(Clone, Copy, PartialEq, Eq)]
pub struct Typed {
    pub verb: Verb,
    pub numbers: [u16; 35],
    pub count: usize,
    pub odd: Option<usize>,
}

// A verb asks for a mode behind so many words: a request, behind its process and its object.
#[tactic(auto, using(crate::proofs::Verbs::same_is), unfolding(crate::specs::Numbers::asks_mode))]
pub fn asks_mode(verb: Verb, before: usize) -> bool
    ensures { result ≡ Numbers.asks_mode verb before }
{
    verb == Verb::Request && before == 2
}

impl Typed {
    // A verb, and no word after it.
    fn begun(verb: Verb) -> Typed
        ensures { result ≡ Reading.begun verb }
    {
        Typed {
            verb,
            numbers: [0; 35],
            count: 0,
            odd: None,
        }
    }

    // One word more. A number past the row's end is counted and not kept.
    fn with_number(self, n: u16) -> Typed
        requires { self.count + 1 < 2 ^ 64 }
        ensures { result ≡ Reading.with_number n self }
    {
        let mut numbers = self.numbers;
        if self.count < numbers.len() {
            numbers[self.count] = n;
        }
        Typed {
            numbers,
            count: self.count + 1,
            ..self
        }
    }

    // One word more, which is not understood.
    fn with_odd(self) -> Typed
        requires { self.count + 1 < 2 ^ 64 }
        ensures { result ≡ Reading.with_odd self }
    {
        let count = self.count + 1;
        Typed {
            count,
            odd: self.odd.or(Some(count)),
            ..self
        }
    }
}

// The words of a line, after the verb.
fn arguments(words: Words, begun: Typed) -> Typed
    requires { begun.count + length (words_left words) < 2 ^ 64 }
    ensures { result ≡ Reading.with_words begun (words_left words.entry) }
{
    let mut t = begun;
    for word in words {
        t = match number::meaning(t.verb, t.count, word) {
            Some(n) => t.with_number(n),
            None => t.with_odd(),
        };
    }
    t
}

// What a line says, whose comment is not read: the verb that the first of its words names, and the numbers that the later ones stand for.
pub fn read(line: &[u8]) -> Typed
    ensures { result ≡ Reading.reading line.now }
{
    let mut words = Words::new(words::uncommented(line));
    match words.next() {
        Some(first) => arguments(words, Typed::begun(names::verb_of(first))),
        None => Typed::begun(Verb::Blank),
    }
}
