//! The lines of a SENT sensor: frames and serial messages.
ghost use Rattle.std.specs.Prelude.{◌≡◌};
ghost use Rattle.report_text.specs.Readings.{left};
ghost use Rattle.message_lines.specs.Lines.{frame_spelled, short_spelled, narrow_spelled, wide_spelled, serial_words, sent_words, behind_word};
ghost use Rattle.message_lines.specs.Readings.{small_message};

use crate::fields::{Rest, expect_fields, read_hex, read_nibbles};
use line_base::LineFault;
use receiver_core::{Message, Serial};
use report_text::spells;
use sent_frame::SentFrame;

/// What stands behind `frame`: the status, and so many data nibbles.
#[tactic(auto, unfolding(crate::specs::Lines::frame_spelled))]
fn read_frame(count: u8, rest: Rest) -> Result<Message, LineFault>
    ensures { result ≡ small_message (frame_spelled count (left rest.entry)) }
{
    expect_fields(2, rest)?;
    let (status, rest) = read_hex(1, rest)?;
    match read_nibbles(count, rest) {
        Ok((nibbles, _)) => Ok(Message::Frame(SentFrame {
            status: status as u8,
            nibbles,
        })),
        Err(fault) => Err(fault),
    }
}

/// What stands behind `short`: the ID and the value.
#[tactic(auto, unfolding(crate::specs::Lines::short_spelled))]
fn read_short(rest: Rest) -> Result<Message, LineFault>
    ensures { result ≡ small_message (short_spelled (left rest.entry)) }
{
    expect_fields(2, rest)?;
    let (id, rest) = read_hex(1, rest)?;
    let (value, _) = read_hex(2, rest)?;
    Ok(Message::Short {
        id: id as u8,
        value: value as u8,
    })
}

/// What stands behind `enhanced8`: an ID of 8 bits and a value of 12.
#[tactic(auto, unfolding(crate::specs::Lines::narrow_spelled))]
fn read_narrow(rest: Rest) -> Result<Message, LineFault>
    ensures { result ≡ small_message (narrow_spelled (left rest.entry)) }
{
    expect_fields(2, rest)?;
    let (id, rest) = read_hex(2, rest)?;
    let (value, _) = read_hex(3, rest)?;
    Ok(Message::Enhanced {
        id: id as u8,
        value: value as u16,
        wide: false,
    })
}

/// What stands behind `enhanced4`: an ID of 4 bits and a value of 16.
#[tactic(auto, unfolding(crate::specs::Lines::wide_spelled))]
fn read_wide(rest: Rest) -> Result<Message, LineFault>
    ensures { result ≡ small_message (wide_spelled (left rest.entry)) }
{
    expect_fields(2, rest)?;
    let (id, rest) = read_hex(1, rest)?;
    let (value, _) = read_hex(4, rest)?;
    Ok(Message::Enhanced {
        id: id as u8,
        value: value as u16,
        wide: true,
    })
}

/// What stands behind a word of serial messages; `Field` for another word.
#[tactic(auto, unfolding(crate::specs::Lines::behind_word))]
fn read_serial(form: Serial, word: &[u8], rest: Rest) -> Result<Message, LineFault>
    ensures { result ≡ small_message (behind_word (serial_words form) word.now (left rest.entry)) }
{
    match form {
        Serial::Absent => Err(LineFault::Field),
        Serial::Short => {
            if spells(word, b"short") {
                read_short(rest)
            } else {
                Err(LineFault::Field)
            }
        }
        Serial::Enhanced => {
            if spells(word, b"enhanced8") {
                read_narrow(rest)
            } else if spells(word, b"enhanced4") {
                read_wide(rest)
            } else {
                Err(LineFault::Field)
            }
        }
    }
}

/// What stands behind a word of a SENT sensor with frames of so many nibbles; `Field` for another word.
#[tactic(auto, unfolding(crate::specs::Lines::behind_word))]
pub(crate) fn read_sent(
    count: u8,
    form: Serial,
    word: &[u8],
    rest: Rest,
) -> Result<Message, LineFault>
    ensures { result ≡ small_message (behind_word (sent_words count form) word.now (left rest.entry)) }
{
    if spells(word, b"frame") {
        read_frame(count, rest)
    } else {
        read_serial(form, word, rest)
    }
}
