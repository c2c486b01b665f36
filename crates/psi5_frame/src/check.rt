//! The check of a frame, and the payload of its bits.
ghost use Rattle.std.specs.Prelude.{◌≡◌, ◌+◌, ◌<◌, ◌≤◌, ◌^◌, length};
ghost use Rattle.link_math.specs.Division.{number_of};
ghost use Rattle.psi5_frame.specs.Setup.{bit_count, payload_width};
ghost use Rattle.psi5_frame.specs.Frames.{low_number, check_number, payload_of};
ghost use Rattle.psi5_frame.specs.Bursts.{checked};

use crate::burst::{Burst, Payload};
use crate::setup::{Check, Parts, Psi5Setup};
use line_base::Rule;
use link_math::{crc3, parity};

/// The check of these payload bits as a number: 0 or 1 for a parity bit, 0 to 7 for a CRC.
pub fn check_of(check: Check, payload: &[bool]) -> u8
    ensures value { result ≡ check_number check payload.now }
    ensures is_three_bits { result < 8 }
{
    match check {
        Check::Parity => u8::from(parity(payload)),
        Check::Crc => crc3(payload),
    }
}

/// The number that up to three bits write, most significant first.
fn high_number(bits: &[bool]) -> u8
    requires { length bits.now ≤ 3 }
    ensures value { result ≡ number_of bits.now }
    ensures few { result < 2 ^ length bits.now }
{
    let mut number = 0;
    for bit in bits {
        number = 2 * number + u8::from(*bit);
    }
    number
}

/// The number that up to 24 bits write, least significant first.
fn value_of(bits: &[bool]) -> u32
    requires { length bits.now ≤ 24 }
    ensures value { result ≡ low_number bits.now }
    ensures few { result < 2 ^ length bits.now }
{
    let mut number = 0;
    for (place, bit) in bits.iter().enumerate() {
        number += u32::from(*bit) << place;
    }
    number
}

/// The payload that these bits begin with.
fn payload(parts: Parts, bits: &[bool]) -> Payload
    requires in_range { payload_width parts ≤ length bits.now }
    requires m { parts.m ≤ 2 }
    requires f { parts.f ≤ 4 }
    requires s { parts.s ≤ 2 }
    requires b { parts.b ≤ 12 }
    requires a { parts.a ≤ 24 }
    ensures { result ≡ payload_of parts bits.now }
{
    let (m, bits) = bits.split_at(usize::from(parts.m));
    let (f, bits) = bits.split_at(usize::from(parts.f));
    let (s, bits) = bits.split_at(usize::from(parts.s));
    let (b, bits) = bits.split_at(usize::from(parts.b));
    let (a, _) = bits.split_at(usize::from(parts.a));
    Payload {
        m: value_of(m) as u8,
        f: value_of(f) as u8,
        s: value_of(s) as u8,
        b: value_of(b) as u16,
        a: value_of(a),
    }
}

/// What a burst says whose last edge has this number, where its edges violate no rule and these are its bits
/// behind the two start bits.
pub fn checked_frame(setup: &Psi5Setup, place: u64, bits: &[bool]) -> Burst
    requires { length bits.now + 2 ≡ bit_count setup.now }
    ensures { result ≡ checked setup.now place bits.now }
{
    let (front, check) = bits.split_at(usize::from(setup.payload_width()));
    if high_number(check) != check_of(setup.check(), front) {
        let rule = Rule::Psi5Check;
        return Burst::Bad { place, rule };
    }
    Burst::Good {
        place,
        payload: payload(setup.parts(), bits),
    }
}
