//! The lines of a tooth-gap downlink.
ghost use Rattle.std.specs.Prelude.{◌≡◌};
ghost use Rattle.report_text.specs.Readings.{left};
ghost use Rattle.message_lines.specs.Lines.{down_spelled, tooth_words, behind_word};
ghost use Rattle.message_lines.specs.Readings.{small_message};

use crate::fields::{Rest, expect_fields, read_hex, read_small};
use line_base::LineFault;
use psi5_downlink::Down;
use receiver_core::Message;
use report_text::spells;

/// What stands behind `down`: the address, the function, the register and the value. An address or a function
/// above 255 is given as 255.
#[tactic(auto, unfolding(crate::specs::Lines::down_spelled))]
fn read_down(rest: Rest) -> Result<Message, LineFault>
    ensures { result ≡ small_message (down_spelled (left rest.entry)) }
{
    expect_fields(4, rest)?;
    let (address, rest) = read_small(rest)?;
    let (function, rest) = read_small(rest)?;
    let (register, rest) = read_hex(3, rest)?;
    let (value, _) = read_hex(3, rest)?;
    Ok(Message::Down(Down {
        address,
        function,
        register: register as u16,
        value: value as u16,
    }))
}

/// What stands behind the word of a downlink; `Field` for another word.
#[tactic(auto, unfolding(crate::specs::Lines::behind_word))]
pub(crate) fn read_tooth(word: &[u8], rest: Rest) -> Result<Message, LineFault>
    ensures { result ≡ small_message (behind_word tooth_words word.now (left rest.entry)) }
{
    if spells(word, b"down") {
        read_down(rest)
    } else {
        Err(LineFault::Field)
    }
}
