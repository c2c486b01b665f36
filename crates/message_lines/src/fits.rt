//! Which messages fit a channel.
ghost use Rattle.std.specs.Prelude.{◌≡◌, ◌≤◌, ◌^◌, nat_lt};
ghost use Rattle.psi5_downlink.specs.Frames.{wide};
ghost use Rattle.message_lines.specs.Messages.{status_limit, frame_fits, sent_fits, spc_fits, payload_fits, slot_fits, psi5_fits, down_fits, tooth_fits, slot_count, message_fits, IsMade, AreFewSlots, HaveShortParts};

use psi5_downlink::{Down, Form};
use psi5_frame::{Parts, Payload};
use receiver_core::{ChannelSetup, Message, Serial, SyncSlots};
use sent_frame::SentFrame;

/// Whether a value fits a width of at most 24 bits.
fn fits_width(width: u8, value: u32) -> bool
    requires { width ≤ 24 }
    ensures { result ≡ nat_lt value (2 ^ width) }
{
    value < 1 << width
}

/// A frame's own status is below this: below 4 where serial messages use the upper bits.
fn status_limit(form: Serial) -> u8
    ensures { result ≡ status_limit form }
{
    match form {
        Serial::Absent => 16,
        Serial::Short | Serial::Enhanced => 4,
    }
}

/// Whether a frame's status is below this limit, and it has so many nibbles.
fn frame_fits(limit: u8, nibbles: u8, frame: &SentFrame) -> bool
    ensures { result ≡ frame_fits limit nibbles frame.now }
{
    frame.status < limit && frame.nibbles.values().len() == usize::from(nibbles)
}

/// Whether a message is one of a SENT sensor with frames of so many nibbles and such serial messages, and fits.
fn sent_fits(nibbles: u8, form: Serial, message: &Message) -> bool
    ensures { result ≡ sent_fits nibbles form message.now }
{
    match message {
        Message::Frame(frame) => frame_fits(status_limit(form), nibbles, frame),
        Message::Short { id, value } => match form {
            Serial::Short => fits_width(4, u32::from(*id)) && fits_width(8, u32::from(*value)),
            _ => false,
        },
        Message::Enhanced { id, value, wide } => match form {
            Serial::Enhanced => {
                if *wide {
                    fits_width(4, u32::from(*id)) && fits_width(16, u32::from(*value))
                } else {
                    fits_width(8, u32::from(*id)) && fits_width(12, u32::from(*value))
                }
            }
            _ => false,
        },
        _ => false,
    }
}

/// Whether a message is one of SPC with so many windows, and with answers of so many nibbles, and fits.
fn spc_fits(windows: usize, nibbles: u8, message: &Message) -> bool
    ensures { result ≡ spc_fits windows nibbles message.now }
{
    match message {
        Message::Answer { code, frame } => {
            usize::from(*code) < windows && frame_fits(16, nibbles, frame)
        }
        Message::Silent { code } => usize::from(*code) < windows,
        _ => false,
    }
}

/// Whether each value fits the width of its part.
fn payload_fits(parts: Parts, payload: &Payload) -> bool
    requires { HaveShortParts parts }
    ensures { result ≡ payload_fits parts payload.now }
{
    let Parts { m, f, s, b, a } = parts;
    fits_width(m, u32::from(payload.m))
        && fits_width(f, u32::from(payload.f))
        && fits_width(s, u32::from(payload.s))
        && fits_width(b, u32::from(payload.b))
        && fits_width(a, payload.a)
}

/// Whether a burst has a slot where there are windows, and it is the number of one of them.
fn slot_fits(windows: Option<usize>, slot: Option<u8>) -> bool
    ensures { result ≡ slot_fits windows slot }
{
    match (windows, slot) {
        (None, None) => true,
        (Some(windows), Some(slot)) => usize::from(slot) < windows,
        _ => false,
    }
}

/// How many slots a channel has, if it has any.
fn slot_count(slots: &Option<SyncSlots>) -> Option<usize>
    ensures value { result ≡ slot_count slots.now }
    ensures few { AreFewSlots slots.now }
{
    match slots {
        None => None,
        Some(slots) => Some(slots.setup.windows().len()),
    }
}

/// Whether a message is one of a PSI5 bus with these parts and, where it has slots, so many windows, and fits.
fn psi5_fits(parts: Parts, windows: Option<usize>, message: &Message) -> bool
    requires { HaveShortParts parts }
    ensures { result ≡ psi5_fits parts windows message.now }
{
    match message {
        Message::Sync => windows.is_some(),
        Message::Burst { slot, payload } => {
            slot_fits(windows, *slot) && payload_fits(parts, payload)
        }
        _ => false,
    }
}

/// How many bits the register has, and the value too.
fn width_of(form: Form) -> u8
    ensures value { result ≡ wide form }
    ensures few { result ≤ 9 }
{
    match form {
        Form::Short => 0,
        Form::Long => 6,
        Form::XLong => 9,
    }
}

/// Whether each value fits the width of its field.
fn down_fits(form: Form, down: &Down) -> bool
    ensures { result ≡ down_fits form down.now }
{
    let width = width_of(form);
    down.address < 8
        && down.function < 8
        && fits_width(width, u32::from(down.register))
        && fits_width(width, u32::from(down.value))
}

/// Whether a message is a downlink frame of this form, and fits.
fn tooth_fits(form: Form, message: &Message) -> bool
    ensures { result ≡ tooth_fits form message.now }
{
    match message {
        Message::Down(down) => down_fits(form, down),
        _ => false,
    }
}

/// Whether a channel has messages of this kind, and each value fits: a status below 16, or below 4 where serial
/// messages use the upper bits; the setup's number of nibbles; a code or a slot that is the number of a window; a
/// slot where there are slots, and only there; each other value within its bits.
pub fn message_fits(setup: &ChannelSetup, message: &Message) -> bool
    ensures value { result ≡ message_fits setup.now message.now }
    ensures made { IsMade setup.now }
{
    match setup {
        ChannelSetup::Sent { setup, serial, .. } => sent_fits(setup.nibbles(), *serial, message),
        ChannelSetup::Spc { setup, .. } => {
            spc_fits(setup.windows().len(), setup.sent().nibbles(), message)
        }
        ChannelSetup::Psi5 { setup, slots, .. } => psi5_fits(
            setup.parts(),
            slot_count(slots),
            message,
        ),
        ChannelSetup::Tooth { setup, .. } => tooth_fits(setup.form(), message),
    }
}
