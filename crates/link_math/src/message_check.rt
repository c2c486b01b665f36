//! The 6-bit CRC of an enhanced serial message (SAE J2716): the remainder by x⁶ + x⁴ + x³ + 1, from 010101.
//!
//! Six 0 bits are taken in after the message's bits. A register of six bits does one step of the division
//! for each bit.

ghost use Rattle.std.specs.Prelude.{◌≡◌, ◌++◌, ◌<◌, [], ◌∷◌};
ghost use Rattle.link_math.specs.Checks.{crc6_of, crc6_remainder};
ghost use Rattle.link_math.specs.Division.{bits_of};

/// The register before the first bit, 010101.
const SEED: u8 = 0b010101;

/// The coefficients of the polynomial below x⁶.
const LOWER: u8 = 0b011001;

/// The register after one bit more, where `register` is that of the bits before; below 64.
#[tactic(auto, using(crate::proofs::CheckRegister::lower_is, crate::proofs::CheckRegister::upper_is))]
fn shifted(register: u8, bit: bool) -> u8
    requires { register < 64 }
    ensures value { result ≡ crc6_remainder (bits_of 6 register ++ bit ∷ []) }
    ensures is_six_bits { result < 64 }
{
    let next = register % 32 * 2 + u8::from(bit);
    if register < 32 { next } else { next ^ LOWER }
}

/// The register after these bits, where `register` is that of the bits before; below 64.
#[tactic(auto, using(crate::proofs::CheckRegister::taken_none, crate::proofs::CheckRegister::taken_one))]
fn divided_on(register: u8, bits: &[bool]) -> u8
    requires { register < 64 }
    ensures value { result ≡ crc6_remainder (bits_of 6 register ++ bits.now) }
    ensures is_six_bits { result < 64 }
{
    let mut left = register;
    for bit in bits {
        left = shifted(left, *bit);
    }
    left
}

/// The CRC-6 (SAE J2716), 0 to 63, of a message's 24 bits, in the order in which they are taken in.
#[tactic(auto, using(crate::proofs::CheckRegister::message_is))]
pub fn crc6(bits: &[bool; 24]) -> u8
    ensures value { result ≡ crc6_of bits.now }
    ensures is_six_bits { result < 64 }
{
    divided_on(divided_on(SEED, bits), &[false; 6])
}
