//! The reader of message lines, which is fed one byte at a time.
ghost use Rattle.std.specs.Prelude.{◌≡◌, ℕ};
ghost use Rattle.message_lines.specs.Inputs.{said_in};
ghost use Rattle.message_lines.specs.Readings.{Says, is_fault, last_line};

use crate::line::message_of;
use line_base::LineFault;
use receiver_core::{ChannelSetup, Message};
use text_lines::{LineReader, is_skipped};

/// Reads the messages that a sensor of one channel is told to send.
///
/// Contracts say which bytes a reader stands for: its answers are those that these bytes have. Behind a fault or
/// the end nothing more is answered.
#[derive(Drop)]
pub struct MessageReader {
    setup: ChannelSetup,
    /// The lines, up to the one that was judged last.
    lines: LineReader,
    /// Whether there was a fault, or the end.
    closed: bool,
}

/// What a line says: nothing where it is empty or a comment, else a message or its fault.
fn said(setup: &ChannelSetup, line: &[u8]) -> Option<Result<Message, LineFault>>
    ensures { Says (said_in setup.now line.now) result }
{
    if is_skipped(line) {
        None
    } else {
        Some(message_of(setup, line))
    }
}

/// Whether an answer is a fault.
fn is_fault(answer: &Option<Result<Message, LineFault>>) -> bool
    ensures { result ≡ is_fault answer.now }
{
    match answer {
        Some(Err(_)) => true,
        _ => false,
    }
}

/// A line that has ended, if there is one.
fn last_line(has_ended: bool) -> Option<Result<(), LineFault>>
    ensures { result ≡ last_line has_ended }
{
    if has_ended { Some(Ok(())) } else { None }
}

impl MessageReader {
    ghost use Rattle.std.specs.Prelude.{◌∷◌, ◌++◌, [], List, Some, None, Ok, Err};
    ghost use Rattle.line_base.specs.declared.faults.LineFault.{LineFault as Fault};
    ghost use Rattle.receiver_core.specs.declared.setup.ChannelSetup.{ChannelSetup as Setup};
    ghost use Rattle.receiver_core.specs.Setups.{setup_fault_of};
    ghost use Rattle.message_lines.specs.Inputs.{fault_of, answers_of, whole_fault_of, whole_answers_of, line_number_of};
    ghost use Rattle.message_lines.specs.Readers.{answers_in, StandsFor, HasEnded, Judges};

    /// A reader of no bytes, for a channel of this setup.
    pub fn new(setup: ChannelSetup) -> MessageReader
        requires { setup_fault_of setup ≡ None }
        ensures stands { StandsFor setup result [] }
    {
        MessageReader {
            setup,
            lines: LineReader::new(),
            closed: false,
        }
    }

    /// Takes the next byte. Gives the message of the line that it ends, if that has one, or a fault, which is the
    /// last answer.
    pub fn feed(&mut self, byte: u8) -> Option<Result<Message, LineFault>>
        ensures stands { (setup : Setup) (seen : List ℕ) → StandsFor setup self.old seen → StandsFor setup self.new (seen ++ byte ∷ []) }
        ensures grows { (setup : Setup) (seen : List ℕ) → StandsFor setup self.old seen → answers_of setup (seen ++ byte ∷ []) ≡ answers_of setup seen ++ answers_in result }
        ensures stops { (setup : Setup) (seen : List ℕ) (number : ℕ) (fault : Fault) → StandsFor setup self.old seen → fault_of setup (seen ++ byte ∷ []) ≡ Some (number, fault) → HasEnded self.new number }
        ensures ended { (number : ℕ) → HasEnded self.old number → (result ≡ None) × HasEnded self.new number }
    {
        if self.closed {
            return None;
        }
        let ended = self.lines.feed(byte);
        let answer = self.judge(ended);
        self.closed = is_fault(&answer);
        answer
    }

    /// Ends the input: an unfinished last line counts as ended. This is the last answer.
    pub fn finish(&mut self) -> Option<Result<Message, LineFault>>
        ensures whole { (setup : Setup) (seen : List ℕ) → StandsFor setup self.old seen → whole_answers_of setup seen ≡ answers_of setup seen ++ answers_in result }
        ensures ends { (setup : Setup) (seen : List ℕ) → StandsFor setup self.old seen → HasEnded self.new (line_number_of setup seen) }
        ensures stops { (setup : Setup) (seen : List ℕ) (number : ℕ) (fault : Fault) → StandsFor setup self.old seen → whole_fault_of setup seen ≡ Some (number, fault) → HasEnded self.new number }
        ensures ended { (number : ℕ) → HasEnded self.old number → (result ≡ None) × HasEnded self.new number }
    {
        if self.closed {
            return None;
        }
        self.closed = true;
        let ended = last_line(self.lines.finish());
        self.judge(ended)
    }

    /// The number, from 1, of the line of the last byte taken, or of the fault; 0 before the first byte.
    pub fn line_number(&self) -> u64
        ensures number { (setup : Setup) (seen : List ℕ) → StandsFor setup self.now seen → result ≡ line_number_of setup seen }
        ensures ended { (number : ℕ) → HasEnded self.now number → result ≡ number }
    {
        self.lines.line_number()
    }

    /// What a line that has ended says, if there is one, or the fault of a line or an input that is too long.
    fn judge(&self, ended: Option<Result<(), LineFault>>) -> Option<Result<Message, LineFault>>
        ensures { Judges self.now ended result }
    {
        match ended {
            None => None,
            Some(Ok(())) => said(&self.setup, self.lines.content()),
            Some(Err(fault)) => Some(Err(fault)),
        }
    }
}
