//! The lines of a PSI5 channel: bursts, and the blocks and the end of an initialisation.
ghost use Rattle.std.specs.Prelude.{◌≡◌, ◌+◌, ◌≤◌, ◌++◌, ◌∷◌, length};
ghost use Rattle.report_text.specs.Fields.{line_of, spaced, value_read};
ghost use Rattle.report_text.specs.Hex.{hex_text};
ghost use Rattle.report_text.specs.Psi5.{slot_text, payload_fields, burst_fields, block_fields, done_fields, slot_in, payload_read, burst_read, init_read, done_read};
ghost use Rattle.report_text.specs.Readings.{Reads, left};

use crate::code::{push_code, read_code};
use crate::decimal::{digit_of, push_decimal, push_small, read_between, read_number};
use crate::fault::TextFault;
use crate::fields::{Rest, next_field};
use crate::hex::{push_hex, read_hex, read_hex_to};
use crate::line::LINE_ROOM;
use arrayvec::ArrayString;
use psi5_frame::Payload;
use psi5_init::Code;
use receiver_core::What;

/// The greatest value of two bits.
const MAX_TWO_BITS: u32 = 3;

/// The greatest ID of a block.
const MAX_BLOCK: u8 = 16;

/// Adds the slot that a burst answers: a hyphen where the channel has no slots.
fn push_slot(out: &mut ArrayString<LINE_ROOM>, slot: Option<u8>)
    requires { length out.old.bytes + 3 ≤ LINE_ROOM }
    ensures bytes { out.new.bytes ≡ out.old.bytes ++ slot_text slot }
    ensures len { length out.new.bytes ≤ length out.old.bytes + 3 }
{
    match slot {
        None => out.push('-'),
        Some(slot) => push_small(out, slot),
    }
}

/// Adds the messaging, frame control and status bits of a frame, without the space before them.
fn push_flags(out: &mut ArrayString<LINE_ROOM>, payload: &Payload)
    requires { length out.old.bytes ≤ 48 }
    ensures bytes { out.new.bytes ≡ out.old.bytes ++ (hex_text 1 payload.now.m ++ 32 ∷ (hex_text 1 payload.now.f ++ 32 ∷ hex_text 1 payload.now.s)) }
    ensures len { length out.new.bytes ≡ length out.old.bytes + 5 }
{
    push_hex(out, 1, u32::from(payload.m));
    out.push(' ');
    push_hex(out, 1, u32::from(payload.f));
    out.push(' ');
    push_hex(out, 1, u32::from(payload.s));
}

/// Adds the parts of a frame, without the space before them.
fn push_payload(out: &mut ArrayString<LINE_ROOM>, payload: &Payload)
    requires { length out.old.bytes ≤ 48 }
    ensures bytes { out.new.bytes ≡ out.old.bytes ++ line_of (payload_fields payload.now) }
    ensures len { length out.new.bytes ≡ length out.old.bytes + 16 }
{
    push_flags(out, payload);
    out.push(' ');
    push_hex(out, 3, u32::from(payload.b));
    out.push(' ');
    push_hex(out, 6, payload.a);
}

/// Adds a burst: its slot, the parts of its frame, and what data A says.
pub(crate) fn push_burst(
    out: &mut ArrayString<LINE_ROOM>,
    slot: Option<u8>,
    payload: &Payload,
    code: &Option<Code>,
)
    requires { length out.old.bytes ≤ 24 }
    ensures bytes { out.new.bytes ≡ out.old.bytes ++ spaced (burst_fields slot payload.now code.now) }
    ensures len { length out.new.bytes ≤ 80 }
{
    out.push_str(" psi5 ");
    push_slot(out, slot);
    out.push(' ');
    push_payload(out, payload);
    push_code(out, code);
}

/// Adds a block of an initialisation: its ID and its value.
pub(crate) fn push_block(out: &mut ArrayString<LINE_ROOM>, id: u8, value: u8)
    requires { length out.old.bytes ≤ 24 }
    ensures bytes { out.new.bytes ≡ out.old.bytes ++ spaced (block_fields id value) }
    ensures len { length out.new.bytes ≤ 56 }
{
    out.push_str(" init ");
    push_small(out, id);
    out.push(' ');
    push_hex(out, 1, u32::from(value));
}

/// Adds the end of an initialisation: how many blocks were told in it.
pub(crate) fn push_done(out: &mut ArrayString<LINE_ROOM>, blocks: u64)
    requires { length out.old.bytes ≤ 24 }
    ensures bytes { out.new.bytes ≡ out.old.bytes ++ spaced (done_fields blocks) }
    ensures len { length out.new.bytes ≤ 56 }
{
    out.push_str(" initdone ");
    push_decimal(out, blocks);
}

/// The slot of a field: a hyphen, or one decimal digit; `Range` from 8 on.
#[tactic(auto, unfolding(crate::specs::Psi5::slot_in))]
fn slot_of(field: &[u8]) -> Result<Option<u8>, TextFault>
    ensures { result ≡ slot_in field.now }
{
    match field {
        [byte] => {
            if *byte == b'-' {
                return Ok(None);
            }
            let slot = digit_of(*byte)?;
            if slot < 8 {
                Ok(Some(slot))
            } else {
                Err(TextFault::Range)
            }
        }
        _ => Err(TextFault::Number),
    }
}

/// The slot of the next field.
#[tactic(auto, unfolding(crate::specs::Fields::value_read))]
fn read_slot<'a>(rest: Rest<'a>) -> Result<(Option<u8>, Rest<'a>), TextFault>
    ensures { Reads result (value_read slot_in (left rest.entry)) }
{
    let (field, rest) = next_field(rest)?;
    Ok((slot_of(field)?, rest))
}

/// The parts of a frame, from the next five fields.
#[tactic(auto, unfolding(crate::specs::Psi5::payload_read))]
fn read_payload<'a>(rest: Rest<'a>) -> Result<(Payload, Rest<'a>), TextFault>
    ensures { Reads result (payload_read (left rest.entry)) }
{
    let (m, rest) = read_hex_to(1, MAX_TWO_BITS, rest)?;
    let (f, rest) = read_hex(1, rest)?;
    let (s, rest) = read_hex_to(1, MAX_TWO_BITS, rest)?;
    let (b, rest) = read_hex(3, rest)?;
    let (a, rest) = read_hex(6, rest)?;
    Ok((
        Payload {
            m: m as u8,
            f: f as u8,
            s: s as u8,
            b: b as u16,
            a,
        },
        rest,
    ))
}

/// What stands behind `psi5`: the slot, the parts of the frame, and what data A says.
#[tactic(auto, unfolding(crate::specs::Psi5::burst_read))]
pub(crate) fn read_burst<'a>(rest: Rest<'a>) -> Result<(What, Rest<'a>), TextFault>
    ensures { Reads result (burst_read (left rest.entry)) }
{
    let (slot, rest) = read_slot(rest)?;
    let (payload, rest) = read_payload(rest)?;
    let (code, rest) = read_code(rest)?;
    Ok((
        What::Burst {
            slot,
            payload,
            code,
        },
        rest,
    ))
}

/// What stands behind `init`: the ID of a block, and its value.
#[tactic(auto, unfolding(crate::specs::Psi5::init_read))]
pub(crate) fn read_init<'a>(rest: Rest<'a>) -> Result<(What, Rest<'a>), TextFault>
    ensures { Reads result (init_read (left rest.entry)) }
{
    let (id, rest) = read_between(1, MAX_BLOCK, rest)?;
    let (value, rest) = read_hex(1, rest)?;
    Ok((
        What::Block {
            id,
            value: value as u8,
        },
        rest,
    ))
}

/// What stands behind `initdone`: how many blocks were told.
#[tactic(auto, unfolding(crate::specs::Psi5::done_read))]
pub(crate) fn read_done<'a>(rest: Rest<'a>) -> Result<(What, Rest<'a>), TextFault>
    ensures { Reads result (done_read (left rest.entry)) }
{
    let (blocks, rest) = read_number(rest)?;
    Ok((What::Done { blocks }, rest))
}
