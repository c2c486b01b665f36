//! The lines of SPC: a trigger with its answer, and one that no sensor answers.
ghost use Rattle.std.specs.Prelude.{◌≡◌};
ghost use Rattle.report_text.specs.Readings.{left};
ghost use Rattle.message_lines.specs.Lines.{answer_spelled, silent_spelled, spc_words, behind_word};
ghost use Rattle.message_lines.specs.Readings.{small_message};

use crate::fields::{Rest, expect_fields, read_hex, read_nibbles, read_small};
use line_base::LineFault;
use receiver_core::Message;
use report_text::spells;
use sent_frame::SentFrame;

/// What stands behind `answer`: the code, the status, and so many data nibbles. A code above 255 is given as 255.
#[tactic(auto, unfolding(crate::specs::Lines::answer_spelled))]
fn read_answer(count: u8, rest: Rest) -> Result<Message, LineFault>
    ensures { result ≡ small_message (answer_spelled count (left rest.entry)) }
{
    expect_fields(3, rest)?;
    let (code, rest) = read_small(rest)?;
    let (status, rest) = read_hex(1, rest)?;
    match read_nibbles(count, rest) {
        Ok((nibbles, _)) => Ok(Message::Answer {
            code,
            frame: SentFrame {
                status: status as u8,
                nibbles,
            },
        }),
        Err(fault) => Err(fault),
    }
}

/// What stands behind `silent`: the code. One above 255 is given as 255.
#[tactic(auto, unfolding(crate::specs::Lines::silent_spelled))]
fn read_silent(rest: Rest) -> Result<Message, LineFault>
    ensures { result ≡ small_message (silent_spelled (left rest.entry)) }
{
    expect_fields(1, rest)?;
    let (code, _) = read_small(rest)?;
    Ok(Message::Silent { code })
}

/// What stands behind a word of SPC with answers of so many nibbles; `Field` for another word.
#[tactic(auto, unfolding(crate::specs::Lines::behind_word))]
pub(crate) fn read_spc(count: u8, word: &[u8], rest: Rest) -> Result<Message, LineFault>
    ensures { result ≡ small_message (behind_word (spc_words count) word.now (left rest.entry)) }
{
    if spells(word, b"answer") {
        read_answer(count, rest)
    } else if spells(word, b"silent") {
        read_silent(rest)
    } else {
        Err(LineFault::Field)
    }
}
