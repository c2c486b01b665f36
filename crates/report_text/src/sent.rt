//! The lines of a SENT channel: frames, their values, jumps of the counter and serial messages.
ghost use Rattle.std.specs.Prelude.{◌≡◌, ◌+◌, ◌≤◌, ◌++◌, ◌∷◌, length};
ghost use Rattle.report_text.specs.Fields.{line_of, spaced};
ghost use Rattle.report_text.specs.Hex.{hex_text};
ghost use Rattle.report_text.specs.Readings.{Reads, left};
ghost use Rattle.report_text.specs.Sent.{parts_fields, frame_fields, value_fields, counter_fields, short_fields, enhanced_fields, parts_read, frame_read, one_read, two_read, secure_read, split_read, counter_read, short_read, narrow_read, wide_read};

use crate::fault::TextFault;
use crate::fields::Rest;
use crate::hex::{push_hex, push_nibbles, read_data, read_hex};
use crate::line::LINE_ROOM;
use arrayvec::ArrayString;
use receiver_core::What;
use sent_fast::Fast;
use sent_frame::SentFrame;

/// Adds a keyword with its spaces, and two numbers, each given as how many hexadecimal digits it has and its
/// value.
fn push_two(out: &mut ArrayString<LINE_ROOM>, word: &str, first: (usize, u32), second: (usize, u32))
    requires room { length out.old.bytes ≤ 24 }
    requires word { length word.now ≤ 12 }
    requires first { first.0 ≤ 6 }
    requires second { second.0 ≤ 6 }
    ensures bytes { out.new.bytes ≡ out.old.bytes ++ (word.now ++ (hex_text first.0 first.1 ++ (32 ∷ hex_text second.0 second.1))) }
    ensures len { length out.new.bytes ≤ 56 }
{
    out.push_str(word);
    push_hex(out, first.0, first.1);
    out.push(' ');
    push_hex(out, second.0, second.1);
}

/// Adds a frame's status and its data nibbles, without the space before them.
pub(crate) fn push_parts(out: &mut ArrayString<LINE_ROOM>, frame: &SentFrame)
    requires { length out.old.bytes ≤ 48 }
    ensures bytes { out.new.bytes ≡ out.old.bytes ++ line_of (parts_fields frame.now) }
    ensures len { length out.new.bytes ≤ length out.old.bytes + 8 }
{
    push_hex(out, 1, u32::from(frame.status));
    out.push(' ');
    push_nibbles(out, frame.nibbles.values());
}

/// Adds what a frame says: its status and its data nibbles.
pub(crate) fn push_frame(out: &mut ArrayString<LINE_ROOM>, frame: &SentFrame)
    requires { length out.old.bytes ≤ 24 }
    ensures bytes { out.new.bytes ≡ out.old.bytes ++ spaced (frame_fields frame.now) }
    ensures len { length out.new.bytes ≤ 56 }
{
    out.push_str(" frame ");
    push_parts(out, frame);
}

/// Adds the value of a frame's nibbles; nothing where the nibbles alone are told.
pub(crate) fn push_value(out: &mut ArrayString<LINE_ROOM>, value: &Fast)
    requires { length out.old.bytes ≤ 24 }
    ensures bytes { out.new.bytes ≡ out.old.bytes ++ spaced (value_fields value.now) }
    ensures len { length out.new.bytes ≤ 56 }
{
    match value {
        Fast::Raw => {}
        Fast::One { a } => {
            out.push_str(" one ");
            push_hex(out, 3, u32::from(*a));
        }
        Fast::Two { a, b } => push_two(out, " two ", (3, u32::from(*a)), (3, u32::from(*b))),
        Fast::Secure { a, counter } => {
            push_two(
                out,
                " secure ",
                (3, u32::from(*a)),
                (2, u32::from(*counter)),
            );
        }
        Fast::Split { a, b } => push_two(out, " split ", (4, u32::from(*a)), (2, u32::from(*b))),
    }
}

/// Adds a jump of the counter: the counter before, and this one.
pub(crate) fn push_counter(out: &mut ArrayString<LINE_ROOM>, before: u8, now: u8)
    requires { length out.old.bytes ≤ 24 }
    ensures bytes { out.new.bytes ≡ out.old.bytes ++ spaced (counter_fields before now) }
    ensures len { length out.new.bytes ≤ 56 }
{
    push_two(
        out,
        " counter ",
        (2, u32::from(before)),
        (2, u32::from(now)),
    );
}

/// Adds a short serial message.
pub(crate) fn push_short(out: &mut ArrayString<LINE_ROOM>, id: u8, value: u8)
    requires { length out.old.bytes ≤ 24 }
    ensures bytes { out.new.bytes ≡ out.old.bytes ++ spaced (short_fields id value) }
    ensures len { length out.new.bytes ≤ 56 }
{
    push_two(out, " short ", (1, u32::from(id)), (2, u32::from(value)));
}

/// Adds an enhanced serial message.
pub(crate) fn push_enhanced(out: &mut ArrayString<LINE_ROOM>, id: u8, value: u16, wide: bool)
    requires { length out.old.bytes ≤ 24 }
    ensures bytes { out.new.bytes ≡ out.old.bytes ++ spaced (enhanced_fields id value wide) }
    ensures len { length out.new.bytes ≤ 56 }
{
    if wide {
        push_two(
            out,
            " enhanced4 ",
            (1, u32::from(id)),
            (4, u32::from(value)),
        );
    } else {
        push_two(
            out,
            " enhanced8 ",
            (2, u32::from(id)),
            (3, u32::from(value)),
        );
    }
}

/// The status and the data nibbles of a frame.
#[tactic(auto, unfolding(crate::specs::Sent::parts_read))]
pub(crate) fn read_parts<'a>(rest: Rest<'a>) -> Result<(SentFrame, Rest<'a>), TextFault>
    ensures { Reads result (parts_read (left rest.entry)) }
{
    let (status, rest) = read_hex(1, rest)?;
    match read_data(rest) {
        Ok((nibbles, rest)) => Ok((
            SentFrame {
                status: status as u8,
                nibbles,
            },
            rest,
        )),
        Err(fault) => Err(fault),
    }
}

/// What stands behind `frame`: the status and the data nibbles.
#[tactic(auto, unfolding(crate::specs::Sent::frame_read))]
pub(crate) fn read_frame<'a>(rest: Rest<'a>) -> Result<(What, Rest<'a>), TextFault>
    ensures { Reads result (frame_read (left rest.entry)) }
{
    match read_parts(rest) {
        Ok((frame, rest)) => Ok((What::Frame(frame), rest)),
        Err(fault) => Err(fault),
    }
}

/// What stands behind `one`.
#[tactic(auto, unfolding(crate::specs::Sent::one_read))]
pub(crate) fn read_one<'a>(rest: Rest<'a>) -> Result<(What, Rest<'a>), TextFault>
    ensures { Reads result (one_read (left rest.entry)) }
{
    let (a, rest) = read_hex(3, rest)?;
    Ok((What::Fast(Fast::One { a: a as u16 }), rest))
}

/// What stands behind `two`.
#[tactic(auto, unfolding(crate::specs::Sent::two_read))]
pub(crate) fn read_two<'a>(rest: Rest<'a>) -> Result<(What, Rest<'a>), TextFault>
    ensures { Reads result (two_read (left rest.entry)) }
{
    let (a, rest) = read_hex(3, rest)?;
    let (b, rest) = read_hex(3, rest)?;
    Ok((
        What::Fast(Fast::Two {
            a: a as u16,
            b: b as u16,
        }),
        rest,
    ))
}

/// What stands behind `secure`: the value and the counter.
#[tactic(auto, unfolding(crate::specs::Sent::secure_read))]
pub(crate) fn read_secure<'a>(rest: Rest<'a>) -> Result<(What, Rest<'a>), TextFault>
    ensures { Reads result (secure_read (left rest.entry)) }
{
    let (a, rest) = read_hex(3, rest)?;
    let (counter, rest) = read_hex(2, rest)?;
    Ok((
        What::Fast(Fast::Secure {
            a: a as u16,
            counter: counter as u8,
        }),
        rest,
    ))
}

/// What stands behind `split`.
#[tactic(auto, unfolding(crate::specs::Sent::split_read))]
pub(crate) fn read_split<'a>(rest: Rest<'a>) -> Result<(What, Rest<'a>), TextFault>
    ensures { Reads result (split_read (left rest.entry)) }
{
    let (a, rest) = read_hex(4, rest)?;
    let (b, rest) = read_hex(2, rest)?;
    Ok((
        What::Fast(Fast::Split {
            a: a as u16,
            b: b as u8,
        }),
        rest,
    ))
}

/// What stands behind `counter`: the counter before, and this one.
#[tactic(auto, unfolding(crate::specs::Sent::counter_read))]
pub(crate) fn read_counter<'a>(rest: Rest<'a>) -> Result<(What, Rest<'a>), TextFault>
    ensures { Reads result (counter_read (left rest.entry)) }
{
    let (before, rest) = read_hex(2, rest)?;
    let (now, rest) = read_hex(2, rest)?;
    Ok((
        What::Counter {
            before: before as u8,
            now: now as u8,
        },
        rest,
    ))
}

/// What stands behind `short`: the ID and the value.
#[tactic(auto, unfolding(crate::specs::Sent::short_read))]
pub(crate) fn read_short<'a>(rest: Rest<'a>) -> Result<(What, Rest<'a>), TextFault>
    ensures { Reads result (short_read (left rest.entry)) }
{
    let (id, rest) = read_hex(1, rest)?;
    let (value, rest) = read_hex(2, rest)?;
    Ok((
        What::Short {
            id: id as u8,
            value: value as u8,
        },
        rest,
    ))
}

/// What stands behind `enhanced8`: an ID of 8 bits and a value of 12.
#[tactic(auto, unfolding(crate::specs::Sent::narrow_read))]
pub(crate) fn read_narrow<'a>(rest: Rest<'a>) -> Result<(What, Rest<'a>), TextFault>
    ensures { Reads result (narrow_read (left rest.entry)) }
{
    let (id, rest) = read_hex(2, rest)?;
    let (value, rest) = read_hex(3, rest)?;
    Ok((
        What::Enhanced {
            id: id as u8,
            value: value as u16,
            wide: false,
        },
        rest,
    ))
}

/// What stands behind `enhanced4`: an ID of 4 bits and a value of 16.
#[tactic(auto, unfolding(crate::specs::Sent::wide_read))]
pub(crate) fn read_wide<'a>(rest: Rest<'a>) -> Result<(What, Rest<'a>), TextFault>
    ensures { Reads result (wide_read (left rest.entry)) }
{
    let (id, rest) = read_hex(1, rest)?;
    let (value, rest) = read_hex(4, rest)?;
    Ok((
        What::Enhanced {
            id: id as u8,
            value: value as u16,
            wide: true,
        },
        rest,
    ))
}
