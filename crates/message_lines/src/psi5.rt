//! The lines of a PSI5 bus: sync pulses and bursts.
ghost use Rattle.std.specs.Prelude.{◌≡◌};
ghost use Rattle.report_text.specs.Readings.{left};
ghost use Rattle.message_lines.specs.Lines.{sync_spelled, payload_spelled, burst_spelled, psi5_words, behind_word};
ghost use Rattle.message_lines.specs.Readings.{small_message};

use crate::fields::{Rest, expect_fields, read_hex, read_slot};
use line_base::LineFault;
use psi5_frame::Payload;
use receiver_core::Message;
use report_text::spells;

/// What stands behind `sync`: nothing.
#[tactic(auto, unfolding(crate::specs::Lines::sync_spelled))]
fn read_sync(rest: Rest) -> Result<Message, LineFault>
    ensures { result ≡ small_message (sync_spelled (left rest.entry)) }
{
    expect_fields(0, rest)?;
    Ok(Message::Sync)
}

/// The parts of a frame: messaging, frame control, status, data B and data A.
#[tactic(auto, unfolding(crate::specs::Lines::payload_spelled))]
fn read_payload(rest: Rest) -> Result<Payload, LineFault>
    ensures { result ≡ payload_spelled (left rest.entry) }
{
    let (m, rest) = read_hex(1, rest)?;
    let (f, rest) = read_hex(1, rest)?;
    let (s, rest) = read_hex(1, rest)?;
    let (b, rest) = read_hex(3, rest)?;
    let (a, _) = read_hex(6, rest)?;
    Ok(Payload {
        m: m as u8,
        f: f as u8,
        s: s as u8,
        b: b as u16,
        a,
    })
}

/// What stands behind `burst`: the slot, and the parts of the frame.
#[tactic(auto, unfolding(crate::specs::Lines::burst_spelled))]
fn read_burst(has_slots: bool, rest: Rest) -> Result<Message, LineFault>
    ensures { result ≡ small_message (burst_spelled has_slots (left rest.entry)) }
{
    expect_fields(6, rest)?;
    let (slot, rest) = read_slot(has_slots, rest)?;
    let payload = read_payload(rest)?;
    Ok(Message::Burst { slot, payload })
}

/// What stands behind a word of a PSI5 bus; `Field` for another word.
#[tactic(auto, unfolding(crate::specs::Lines::behind_word))]
pub(crate) fn read_psi5(has_slots: bool, word: &[u8], rest: Rest) -> Result<Message, LineFault>
    ensures { result ≡ small_message (behind_word (psi5_words has_slots) word.now (left rest.entry)) }
{
    if has_slots && spells(word, b"sync") {
        read_sync(rest)
    } else if spells(word, b"burst") {
        read_burst(has_slots, rest)
    } else {
        Err(LineFault::Field)
    }
}
