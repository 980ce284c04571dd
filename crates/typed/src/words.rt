// What is read of a line, and the words of a line, taken one after another.
ghost use Rattle.std.specs.Prelude.{◌≡◌, not, eqb, position};
ghost use Rattle.typed.specs.Words.{uncommented, blank, words};
ghost use Rattle.std.specs.Iterator.{YieldsFirstRef, item_count};
ghost use Rattle.typed.specs.Spans.{NextWord, words_left};

// The place of the first `#` of a line, which begins a comment; None where the line has no comment.
fn comment_at(line: &[u8]) -> Option<usize>
    ensures { result ≡ position (λ c. eqb c 35) line.now }
{
    line.iter().position(|c| *c == b'#')
}

// A line up to its comment.
pub fn uncommented(line: &[u8]) -> &[u8]
    ensures { result.now ≡ uncommented line.now }
{
    &line[..comment_at(line).unwrap_or(line.len())]
}

// A blank parts words: a space, a tab or a carriage return.
#[tactic(auto, unfolding(crate::specs::Words::blank))]
fn is_blank(c: u8) -> bool
    ensures { result ≡ blank c }
{
    matches!(c, b' ' | b'\t' | b'\r')
}

// Where the first word of a line starts; None where the line has no word.
fn word_start(line: &[u8]) -> Option<usize>
    ensures { result ≡ position (λ c. not (blank c)) line.now }
{
    line.iter().position(|c| !is_blank(*c))
}

// Where the word that a line starts with ends; None where it ends with the line.
fn word_end(line: &[u8]) -> Option<usize>
    ensures { result ≡ position (λ c. blank c) line.now }
{
    line.iter().position(|c| is_blank(*c))
}

// The first word of a line, and the line behind it; None where the line has no word.
fn next_word(line: &[u8]) -> Option<(&[u8], &[u8])>
    ensures { NextWord line.now result }
{
    let rest = &line[word_start(line)?..];
    Some(rest.split_at(word_end(rest).unwrap_or(rest.len())))
}

// The words of a line, one after another: the line that is left.
#[derive(Clone, Copy)]
pub struct Words<'a> {
    left: &'a [u8],
}

impl<'a> Words<'a> {
    pub fn new(line: &'a [u8]) -> Words<'a>
        ensures { words_left result ≡ words line.now }
    {
        Words { left: line }
    }
}

impl<'a> Iterator for Words<'a> {
    type Item = &'a [u8];

    ghost next_gives = { YieldsFirstRef words_left };

    ghost remaining = { item_count words_left };

    fn next(&mut self) -> Option<&'a [u8]> {
        let (word, left) = next_word(self.left)?;
        self.left = left;
        Some(word)
    }
}
