// The names of the verbs and of the modes.
ghost use Rattle.std.specs.Prelude.{◌≡◌, None, Some};
ghost use Rattle.std.specs.Str.{str_eq_ignore_ascii_case};
ghost use Rattle.typed.specs.Names as Names;
ghost use Rattle.typed.specs.Numbers.{mode_or};
ghost use Rattle.typed.specs.Words.{words};

use crate::Verb;
use std::fmt;

// A word is a name, upper and lower case letters alike.
fn is_name(word: &[u8], name: &str) -> bool
    ensures { result ≡ str_eq_ignore_ascii_case word.now name.now }
{
    word.eq_ignore_ascii_case(name.as_bytes())
}

// What a word stands for among names, each in a long and a short form.
#[tactic(auto, unfolding(crate::specs::Names::named))]
fn named<T: Copy>(word: &[u8], names: &[(&str, &str, T)]) -> Option<T>
    ensures { result ≡ Names.named word.now names.now }
{
    names
        .iter()
        .find(|(long, short, _)| is_name(word, long) || is_name(word, short))
        .map(|(_, _, means)| *means)
}

// The verb that a word names. Help and quit have two pairs of names.
pub fn verb_of(word: &[u8]) -> Verb
    ensures { result ≡ Names.verb_of word.now }
{
    named(
        word,
        &[
            ("open", "o", Verb::Open),
            ("request", "r", Verb::Request),
            ("release", "re", Verb::Release),
            ("deliver", "d", Verb::Deliver),
            ("drain", "dr", Verb::Drain),
            ("follow", "f", Verb::Follow),
            ("show", "s", Verb::Show),
            ("messages", "m", Verb::Messages),
            ("waits", "w", Verb::Waits),
            ("rings", "ri", Verb::Rings),
            ("undo", "u", Verb::Undo),
            ("help", "h", Verb::Help),
            ("?", "?", Verb::Help),
            ("quit", "q", Verb::Quit),
            ("exit", "e", Verb::Quit),
        ],
    )
    .unwrap_or(Verb::Unknown)
}

// The number of the mode that a word names: a line's words all stand for numbers (`meaning`), and a board takes a mode as one.
pub fn mode_of(word: &[u8]) -> Option<u16>
    ensures { result ≡ mode_or (Names.place_in word.now (words Names.mode_names)) None }
{
    named(word, &[("shared", "s", 0), ("exclusive", "x", 1)])
}

// A verb by its long form; one that names no command is 'the command'.
impl fmt::Display for Verb {
    ghost output = { λ v. Some (Names.verb_name v) };

    fn fmt<W: fmt::Write>(&self, f: &mut fmt::Formatter<W>) -> fmt::Result {
        f.write_str(match self {
            Verb::Open => "open",
            Verb::Request => "request",
            Verb::Release => "release",
            Verb::Deliver => "deliver",
            Verb::Drain => "drain",
            Verb::Follow => "follow",
            Verb::Show => "show",
            Verb::Messages => "messages",
            Verb::Waits => "waits",
            Verb::Rings => "rings",
            Verb::Undo => "undo",
            Verb::Help => "help",
            Verb::Quit => "quit",
            Verb::Blank | Verb::Unknown => "the command",
        })
    }
}
