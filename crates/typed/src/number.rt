// What a word after the verb stands for.
ghost use Rattle.std.specs.Prelude.{◌≡◌};
ghost use Rattle.typed.specs.Numbers as Numbers;

use crate::Verb;

// A decimal number, the largest where it is above that: digits alone, one or more. No parse, which refuses a number that is too large.
fn decimal(word: &[u8]) -> Option<u16>
    ensures { result ≡ Numbers.decimal word.now }
{
    if word.is_empty() {
        return None;
    }
    let mut n: u16 = 0;
    for c in word {
        if !c.is_ascii_digit() {
            return None;
        }
        n = n.saturating_mul(10).saturating_add(u16::from(*c - b'0'));
    }
    Some(n)
}

// The number of the mode that a word names, or a number: a line's words all stand for numbers (`meaning`).
#[tactic(auto, using(crate::proofs::Decimals::mode_is))]
fn mode(word: &[u8]) -> Option<u16>
    ensures { result ≡ Numbers.mode word.now }
{
    crate::names::mode_of(word).or(decimal(word))
}

// The letters of a process and an object, which stand behind no word and behind one.
#[tactic(auto, unfolding(crate::specs::Numbers::letter_at))]
fn letter_at(before: usize) -> Option<u8>
    ensures { result ≡ Numbers.letter_at before }
{
    b"po".get(before).copied()
}

// The letter that may stand before a number of a verb, with so many words before it: p before a process, o before an object.
#[tactic(auto, unfolding(crate::specs::Numbers::letter))]
fn letter(verb: Verb, before: usize) -> Option<u8>
    ensures { result ≡ Numbers.letter verb before }
{
    match verb {
        Verb::Request | Verb::Release => letter_at(before),
        _ => None,
    }
}

// A word without the letter that may stand before its number.
#[tactic(auto, using(crate::proofs::Decimals::digits_none))]
fn digits(letter: Option<u8>, word: &[u8]) -> &[u8]
    ensures { result.now ≡ Numbers.digits letter word.now }
{
    match word.split_first() {
        Some((first, rest)) if Some(first.to_ascii_lowercase()) == letter => rest,
        _ => word,
    }
}

// What a word of a verb stands for, with so many words before it; None where it is not understood.
#[tactic(auto, unfolding(crate::specs::Numbers::meaning))]
pub fn meaning(verb: Verb, before: usize, word: &[u8]) -> Option<u16>
    ensures { result ≡ Numbers.meaning verb before word.now }
{
    if crate::asks_mode(verb, before) {
        mode(word)
    } else {
        decimal(digits(letter(verb, before), word))
    }
}
