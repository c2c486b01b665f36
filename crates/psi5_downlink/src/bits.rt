//! The bits of a downlink frame, as a control unit sends them.
ghost use Rattle.std.specs.Prelude.{◌≡◌, ◌+◌, ◌*◌, ◌≤◌, ◌++◌, length};
ghost use Rattle.link_math.specs.Division as division;
ghost use Rattle.psi5_downlink.specs.Frames.{Fits, checked, field_bits, frame_of, with_ones};

use crate::down::{Down, Form};
use crate::frame_bits::FrameBits;
use crate::verdict::wide;
use arrayvec::ArrayVec;
use link_math::crc3;

/// Puts the lowest `width` bits of a value, at most 9, at the end, most significant first.
fn push_high(bits: &mut FrameBits, value: u16, width: u8)
    requires few { width ≤ 9 }
    requires room { length bits.old + width ≤ 44 }
    ensures bits { bits.new ≡ bits.old ++ division.bits_of width value }
    ensures longer { length bits.new ≡ length bits.old + width }
{
    for place in 0..width {
        let left = width - 1 - place;
        bits.push((value >> left) % 2 == 1);
    }
}

/// The bits of the fields and of their CRC.
fn data_bits(form: Form, down: &Down) -> FrameBits
    ensures bits { result ≡ checked (field_bits form down.now) }
    ensures few { length result ≤ 27 }
{
    let wide = wide(form);
    let mut bits = FrameBits::new();
    push_high(&mut bits, u16::from(down.address), 3);
    push_high(&mut bits, u16::from(down.function), 3);
    push_high(&mut bits, down.register, wide);
    push_high(&mut bits, down.value, wide);
    let check = crc3(bits.as_slice());
    push_high(&mut bits, u16::from(check), 3);
    bits
}

/// Puts these bits at the end in groups of three, each followed by an inserted 1.
fn push_groups(bits: &mut ArrayVec<bool, 40>, ungrouped: &[bool])
    requires { 3 * length bits.old.items + 4 * length ungrouped.now ≤ 120 }
    ensures { bits.new.items ≡ bits.old.items ++ with_ones ungrouped.now }
{
    let mut rest = ungrouped;
    'groups: while rest.len() >= 3 {
        let (group, others) = rest.split_at(3);
        bits.push(group[0]);
        bits.push(group[1]);
        bits.push(group[2]);
        bits.push(true);
        rest = others;
    }
}

/// The bits of the frame of this form that says this: the start's last 0 and its inserted 1, and then address,
/// function, register and value, each with its most significant bit first, and their CRC-3, in groups of three
/// bits, each followed by an inserted 1. Each value fits its field: 3 bits for address and function; 0, 6 or 9
/// for register and value.
pub fn down_bits(form: Form, down: &Down) -> ArrayVec<bool, 40>
    requires { Fits form down.now }
    ensures { result.items ≡ frame_of form down.now }
{
    let mut bits = ArrayVec::new();
    bits.push(false);
    bits.push(true);
    let data = data_bits(form, down);
    push_groups(&mut bits, data.as_slice());
    bits
}
