//! The bits of a frame, and where its waveform changes, as a sensor sends them.
ghost use Rattle.std.specs.Prelude.{◌≡◌, ◌+◌, ◌≤◌, ◌<◌, ◌++◌, [], ◌∷◌, if◌then◌else◌, length};
ghost use Rattle.link_math.specs.Division as division;
ghost use Rattle.psi5_frame.specs.Frames.{Fits, payload_bits, frame_of, low_bits, waveform};
ghost use Rattle.psi5_frame.specs.Setup.{check_width, payload_width};

use crate::burst::Payload;
use crate::check::check_of;
use crate::setup::{Check, Parts, Psi5Setup};
use arrayvec::ArrayVec;

/// Puts the lowest `width` bits of a value at the end, least significant first.
fn push_low(bits: &mut ArrayVec<bool, 33>, value: u32, width: u8)
    requires { length bits.old.items + width ≤ 33 }
    ensures bits { bits.new.items ≡ bits.old.items ++ low_bits width value }
    ensures longer { length bits.new.items ≡ length bits.old.items + width }
{
    let mut rest = value;
    for _ in 0..width {
        bits.push(rest % 2 == 1);
        rest /= 2;
    }
}

/// Puts the bits of a payload at the end.
fn push_payload(bits: &mut ArrayVec<bool, 33>, parts: Parts, payload: &Payload)
    requires { length bits.old.items + payload_width parts ≤ 33 }
    ensures bits { bits.new.items ≡ bits.old.items ++ payload_bits parts payload.now }
    ensures longer { length bits.new.items ≡ length bits.old.items + payload_width parts }
{
    push_low(bits, u32::from(payload.m), parts.m);
    push_low(bits, u32::from(payload.f), parts.f);
    push_low(bits, u32::from(payload.s), parts.s);
    push_low(bits, u32::from(payload.b), parts.b);
    push_low(bits, payload.a, parts.a);
}

/// Puts a check at the end, most significant bit first.
#[tactic(auto, unfolding(link_math::specs::Division::bits_of))]
fn push_check(bits: &mut ArrayVec<bool, 33>, check: Check, value: u8)
    requires { length bits.old.items ≤ 30 }
    ensures { bits.new.items ≡ bits.old.items ++ division.bits_of (check_width check) value }
{
    match check {
        Check::Parity => bits.push(value % 2 == 1),
        Check::Crc => {
            bits.push(value / 4 % 2 == 1);
            bits.push(value / 2 % 2 == 1);
            bits.push(value % 2 == 1);
        }
    }
}

/// The bits of a payload's frame (PSI5 V2.1): two start bits 0, then messaging, frame control, status, data B
/// and data A, each with its least significant bit first, and then the check. Each value fits the width of
/// its part.
pub fn bits_of(setup: &Psi5Setup, payload: &Payload) -> ArrayVec<bool, 33>
    requires { Fits setup.now.parts payload.now }
    ensures { result.items ≡ frame_of setup.now payload.now }
{
    let mut bits = ArrayVec::new();
    bits.push(false);
    bits.push(false);
    push_payload(&mut bits, setup.parts(), payload);
    let check = check_of(setup.check(), &bits.as_slice()[2..]);
    push_check(&mut bits, setup.check(), check);
    bits
}

/// Puts a place at the end, where the line changes there.
fn push_change(places: &mut ArrayVec<u8, 68>, changes: bool, place: u8)
    requires { length places.old.items < 68 }
    ensures { places.new.items ≡ places.old.items ++ (if changes then place ∷ [] else []) }
{
    if changes {
        places.push(place);
    }
}

// place  0   1   2   3   4
//        |___|‾‾‾|___|‾‾‾|    the two start bits: a 0 is low and then high

/// The places, in half-bits from the frame's start, at which the waveform of up to 33 bits changes (the
/// Manchester code): 0 is low and then high, 1 is high and then low, and the line is low before and after.
pub fn edges_of(bits: &[bool]) -> ArrayVec<u8, 68>
    requires { length bits.now ≤ 33 }
    ensures { result.items ≡ waveform bits.now }
{
    let mut places = ArrayVec::new();
    let mut level = false;
    let mut place = 0;
    for bit in bits {
        push_change(&mut places, *bit != level, place);
        places.push(place + 1);
        level = !*bit;
        place += 2;
    }
    push_change(&mut places, level, place);
    places
}
