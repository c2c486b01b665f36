//! The message of a line.
ghost use Rattle.std.specs.Prelude.{◌≡◌};
ghost use Rattle.report_text.specs.Fields.{fields_of};
ghost use Rattle.report_text.specs.Readings.{left};
ghost use Rattle.message_lines.specs.Lines.{words_of, behind_word, message_spelled, message_in};
ghost use Rattle.message_lines.specs.Readings.{small_message};

use crate::downlink::read_tooth;
use crate::fields::{Rest, next_field};
use crate::fits::message_fits;
use crate::psi5::read_psi5;
use crate::sent::read_sent;
use crate::spc::read_spc;
use line_base::LineFault;
use receiver_core::{ChannelSetup, Message};

/// What stands behind a word of a channel's lines; `Field` for a word that it doesn't have.
fn read_behind(setup: &ChannelSetup, word: &[u8], rest: Rest) -> Result<Message, LineFault>
    ensures { result ≡ small_message (behind_word (words_of setup.now) word.now (left rest.entry)) }
{
    match setup {
        ChannelSetup::Sent { setup, serial, .. } => {
            read_sent(setup.nibbles(), *serial, word, rest)
        }
        ChannelSetup::Spc { setup, .. } => read_spc(setup.sent().nibbles(), word, rest),
        ChannelSetup::Psi5 { slots, .. } => read_psi5(slots.is_some(), word, rest),
        ChannelSetup::Tooth { .. } => read_tooth(word, rest),
    }
}

/// The message that a line spells. A decimal number above 255 is given as 255.
#[tactic(auto, unfolding(crate::specs::Lines::message_spelled))]
fn spelled_message(setup: &ChannelSetup, line: &[u8]) -> Result<Message, LineFault>
    ensures { result ≡ small_message (message_spelled (words_of setup.now) (fields_of line.now)) }
{
    let (word, rest) = next_field(Some(line))?;
    read_behind(setup, word, rest)
}

/// The message of a line, without its end; else its first fault: `Field` for a word that the channel doesn't have
/// or another number of fields, then `Number` for a wrong spelling, then `TooLarge` for a value that doesn't fit.
#[tactic(auto, unfolding(crate::specs::Lines::message_in))]
pub fn message_of(setup: &ChannelSetup, line: &[u8]) -> Result<Message, LineFault>
    ensures { result ≡ message_in setup.now line.now }
{
    let message = spelled_message(setup, line)?;
    if message_fits(setup, &message) {
        Ok(message)
    } else {
        Err(LineFault::TooLarge)
    }
}
