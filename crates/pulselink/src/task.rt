//! What the program's words ask it to do.
ghost use Rattle.std.specs.Prelude.{◌≡◌, MatchResult, map, string_bytes};
ghost use Rattle.std.specs.IoError.{error_kind};
ghost use Rattle.pulselink.specs.About.{words_ask};
ghost use Rattle.pulselink.specs.Tasks.{reason_without_words, task_asked};

use crate::about::{About, words_ask};
use line_base::{Reason, WordFault};
use std::io;
use std::io::ErrorKind;

/// What the program does.
#[derive(Debug, Drop)]
pub enum Task {
    /// Writes a text about itself.
    Show(About),
    /// Runs the command that these words name.
    Run(Vec<String>),
    /// Ends at once.
    End(Reason),
}

/// Why the program ends where its words can't be had: for want of memory, or since one isn't UTF-8.
fn without_words(kind: ErrorKind) -> Reason
    ensures { result ≡ reason_without_words kind }
{
    match kind {
        ErrorKind::OutOfMemory => Reason::OutOfMemory,
        _ => Reason::Words {
            place: 1,
            fault: WordFault::Command,
        },
    }
}

/// What the words behind the program's name ask for, or what is done where they can't be had.
pub fn task_of(words: io::Result<Vec<String>>) -> Task
    ensures { MatchResult words (λ words. result ≡ task_asked words (words_ask (map string_bytes words.items))) (λ error. result ≡ Task.End (reason_without_words (error_kind error))) }
{
    match words {
        Err(error) => Task::End(without_words(error.kind())),
        Ok(words) => match words_ask(&words) {
            Some(about) => Task::Show(about),
            None => Task::Run(words),
        },
    }
}
