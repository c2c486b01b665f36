//! The checks of a PSI5 frame (PSI5 V2.1, base standard): a parity bit, or a 3-bit CRC, which is the
//! remainder by x³ + x + 1, from 111.
//!
//! Three 0 bits are taken in after the frame's bits. A register of three bits does one step of the division
//! for each bit.

ghost use Rattle.std.specs.Prelude.{◌≡◌, ◌++◌, ◌<◌, [], ◌∷◌};
ghost use Rattle.link_math.specs.Checks.{crc3_of, crc3_remainder, has_odd_ones};
ghost use Rattle.link_math.specs.Division.{bits_of};

/// The register before the first bit, 111.
const SEED: u8 = 0b111;

/// The coefficients of the polynomial below x³.
const LOWER: u8 = 0b011;

/// The register after one bit more, where `register` is that of the bits before; below 8.
#[tactic(auto, using(crate::proofs::FrameRegister::lower_is, crate::proofs::FrameRegister::upper_is))]
fn shifted(register: u8, bit: bool) -> u8
    requires { register < 8 }
    ensures value { result ≡ crc3_remainder (bits_of 3 register ++ bit ∷ []) }
    ensures is_three_bits { result < 8 }
{
    let next = register % 4 * 2 + u8::from(bit);
    if register < 4 { next } else { next ^ LOWER }
}

/// The register after these bits, where `register` is that of the bits before; below 8.
#[tactic(auto, using(crate::proofs::FrameRegister::taken_none, crate::proofs::FrameRegister::taken_one))]
fn divided_on(register: u8, bits: &[bool]) -> u8
    requires { register < 8 }
    ensures value { result ≡ crc3_remainder (bits_of 3 register ++ bits.now) }
    ensures is_three_bits { result < 8 }
{
    let mut left = register;
    for bit in bits {
        left = shifted(left, *bit);
    }
    left
}

/// The CRC-3 (PSI5 V2.1), 0 to 7, of a frame's bits, in the order in which they are sent.
#[tactic(auto, using(crate::proofs::FrameRegister::message_is))]
pub fn crc3(bits: &[bool]) -> u8
    ensures value { result ≡ crc3_of bits.now }
    ensures is_three_bits { result < 8 }
{
    divided_on(divided_on(SEED, bits), &[false; 3])
}

/// The parity (PSI5 V2.1) of a frame's bits: whether the number of those that are 1 is odd.
#[tactic(auto, unfolding(crate::specs::Checks::has_odd_ones))]
pub fn parity(bits: &[bool]) -> bool
    ensures { result ≡ has_odd_ones bits.now }
{
    bits.iter().filter(|bit| **bit).count() % 2 == 1
}
