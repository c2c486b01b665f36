//! The words that ask for a text about the program, and these texts.
ghost use Rattle.std.specs.Prelude.{◌≡◌, map, string_bytes};
ghost use Rattle.pulselink.specs.About.{about_text, word_asks, words_ask};

use crate::help::HELP;

/// A text about the program.
#[derive(Clone, Copy, Debug, PartialEq, Eq)]
pub enum About {
    /// Its commands, its input and its statuses.
    Help,
    /// Its name and version.
    Version,
}

/// The name of the program and its version, with an LF.
pub const VERSION: &str = "pulselink 0.1.0\n";

impl About {
    /// The text, with an LF at its end.
    pub fn text(self) -> &'static str
        ensures { result.now ≡ about_text self }
    {
        match self {
            About::Help => HELP,
            About::Version => VERSION,
        }
    }
}

/// The text that a word asks for.
#[tactic(auto, unfolding(crate::specs::About::word_asks))]
fn word_asks(word: &[u8]) -> Option<About>
    ensures { result ≡ word_asks word.now }
{
    if word == b"--help".as_slice() || word == b"-h".as_slice() {
        return Some(About::Help);
    }
    if word == b"--version".as_slice() || word == b"-V".as_slice() {
        return Some(About::Version);
    }
    None
}

/// The text that the words ask for, which only one word alone does.
#[tactic(auto, unfolding(crate::specs::About::words_ask))]
pub fn words_ask(words: &[String]) -> Option<About>
    ensures { result ≡ words_ask (map string_bytes words.now) }
{
    match words.split_first() {
        Some((word, [])) => word_asks(word.as_bytes()),
        _ => None,
    }
}
