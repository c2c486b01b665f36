//! The reader of lines, which is fed one byte at a time.
ghost use Rattle.std.specs.Prelude.{◌≡◌, ℕ};

use crate::content::content_of;
use crate::line_bytes::{LINE_LIMIT, LineBytes};
use line_base::LineFault;

/// How many bytes of an input may stand in lines: 2^36 - 1.
pub const INPUT_LIMIT: u64 = 68_719_476_735;

/// Cuts bytes into lines of at most 512 bytes, of which a CR at the end is one.
///
/// Contracts say which bytes a reader stands for: the lines that it gives are those of these bytes. Behind a
/// fault or the end nothing more is answered.
#[derive(Drop)]
pub struct LineReader {
    /// The bytes of the line that was begun last.
    line: LineBytes,
    /// Whether the next byte begins a line.
    fresh: bool,
    /// Whether there was a fault, or the end.
    closed: bool,
    /// How many bytes may still stand in lines.
    left: u64,
    /// How many lines were begun.
    number: u64,
}

impl LineReader {
    ghost use Rattle.std.specs.Prelude.{◌∷◌, ◌++◌, [], List, None, false};
    ghost use Rattle.text_lines.specs.Inputs.{lines_of, whole_lines_of, line_number_of};
    ghost use Rattle.text_lines.specs.Readers.{number_in, content_in, lines_in, last_in, StandsFor, GoesOn, IsReady, HasEnded, Takes};

    /// A reader of no bytes.
    pub fn new() -> LineReader
        ensures stands { StandsFor result [] }
    {
        LineReader {
            line: LineBytes::new(),
            fresh: true,
            closed: false,
            left: INPUT_LIMIT,
            number: 0,
        }
    }

    /// Takes the next byte. Says whether it ends a line, which stands in `content` until the next byte, or gives
    /// a fault, which is the last answer: `LineTooLong` at the 513th byte of a line, `InputTooLong` at byte number
    /// 2^36 of the input.
    #[inline]
    pub fn feed(&mut self, byte: u8) -> Option<Result<(), LineFault>>
        ensures stands { (seen : List ℕ) → StandsFor self.old seen → StandsFor self.new (seen ++ byte ∷ []) }
        ensures grows { (seen : List ℕ) → StandsFor self.old seen → lines_of (seen ++ byte ∷ []) ≡ lines_of seen ++ lines_in self.new result }
        ensures ended { (number : ℕ) → HasEnded self.old number → (result ≡ None) × HasEnded self.new number }
    {
        if self.closed {
            return None;
        }
        self.begin();
        self.take(byte)
    }

    /// Begins a line, where the last one has ended.
    #[inline]
    fn begin(&mut self)
        ensures { (seen : List ℕ) → GoesOn self.old seen → IsReady self.new seen }
    {
        if self.fresh {
            self.fresh = false;
            self.line.clear();
            self.number = self.number.saturating_add(1);
        }
    }

    /// Takes the next byte of a line that was begun.
    #[inline]
    fn take(&mut self, byte: u8) -> Option<Result<(), LineFault>>
        ensures { (seen : List ℕ) → IsReady self.old seen → Takes self.new seen byte result }
    {
        if self.left == 0 {
            self.closed = true;
            return Some(Err(LineFault::InputTooLong));
        }
        self.left -= 1;
        if byte == b'\n' {
            self.fresh = true;
            return Some(Ok(()));
        }
        if self.line.len() >= LINE_LIMIT {
            self.closed = true;
            return Some(Err(LineFault::LineTooLong));
        }
        self.line.push(byte);
        None
    }

    /// Ends the input. Says whether it ends a line, which stands in `content` then. This is the last answer.
    pub fn finish(&mut self) -> bool
        ensures whole { (seen : List ℕ) → StandsFor self.old seen → whole_lines_of seen ≡ lines_of seen ++ last_in self.new result }
        ensures ends { (seen : List ℕ) → StandsFor self.old seen → HasEnded self.new (line_number_of seen) }
        ensures ended { (number : ℕ) → HasEnded self.old number → (result ≡ false) × HasEnded self.new number }
    {
        if self.closed {
            return false;
        }
        self.closed = true;
        !self.fresh
    }

    /// The bytes of the line that was begun last, without the CR at its end.
    pub fn content(&self) -> &[u8]
        ensures { result.now ≡ content_in self.now }
    {
        content_of(self.line.as_slice())
    }

    /// The number, from 1, of the line of the last byte taken, or of the fault; 0 before the first byte.
    pub fn line_number(&self) -> u64
        ensures same { result ≡ number_in self.now }
        ensures number { (seen : List ℕ) → StandsFor self.now seen → result ≡ line_number_of seen }
        ensures ended { (number : ℕ) → HasEnded self.now number → result ≡ number }
    {
        self.number
    }
}
