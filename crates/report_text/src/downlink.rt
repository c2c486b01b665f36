//! The line of a downlink frame.
ghost use Rattle.std.specs.Prelude.{◌≡◌, ◌≤◌, ◌++◌, length};
ghost use Rattle.report_text.specs.Downlink.{down_fields, down_read};
ghost use Rattle.report_text.specs.Fields.{spaced};
ghost use Rattle.report_text.specs.Readings.{Reads, left};

use crate::decimal::{push_small, read_between};
use crate::fault::TextFault;
use crate::fields::Rest;
use crate::hex::{push_hex, read_hex_to};
use crate::line::LINE_ROOM;
use arrayvec::ArrayString;
use psi5_downlink::Down;
use receiver_core::What;

/// The greatest address, and the greatest function code.
const MAX_ADDRESS: u8 = 7;

/// The greatest register, and the greatest value: 9 bits.
const MAX_VALUE: u32 = 0x1FF;

/// Adds a downlink frame: the address, the function, the register and the value.
pub(crate) fn push_down(out: &mut ArrayString<LINE_ROOM>, down: &Down)
    requires { length out.old.bytes ≤ 24 }
    ensures bytes { out.new.bytes ≡ out.old.bytes ++ spaced (down_fields down.now) }
    ensures len { length out.new.bytes ≤ 56 }
{
    out.push_str(" down ");
    push_small(out, down.address);
    out.push(' ');
    push_small(out, down.function);
    out.push(' ');
    push_hex(out, 3, u32::from(down.register));
    out.push(' ');
    push_hex(out, 3, u32::from(down.value));
}

/// What stands behind `down`: the address, the function, the register and the value.
#[tactic(auto, unfolding(crate::specs::Downlink::down_read))]
pub(crate) fn read_down<'a>(rest: Rest<'a>) -> Result<(What, Rest<'a>), TextFault>
    ensures { Reads result (down_read (left rest.entry)) }
{
    let (address, rest) = read_between(0, MAX_ADDRESS, rest)?;
    let (function, rest) = read_between(0, MAX_ADDRESS, rest)?;
    let (register, rest) = read_hex_to(3, MAX_VALUE, rest)?;
    let (value, rest) = read_hex_to(3, MAX_VALUE, rest)?;
    Ok((
        What::Down(Down {
            address,
            function,
            register: register as u16,
            value: value as u16,
        }),
        rest,
    ))
}
