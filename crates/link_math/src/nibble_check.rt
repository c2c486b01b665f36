//! The 4-bit CRC of a SENT frame's nibbles (SAE J2716): the remainder by x⁴ + x³ + x² + 1, from 0101.
//!
//! The recommended form takes in four 0 bits after the last nibble, the legacy form doesn't. A table does
//! four steps of the division at once.

ghost use Rattle.std.specs.Prelude.{◌≡◌, ◌++◌, ◌<◌, All};
ghost use Rattle.link_math.specs.Checks.{crc4_legacy_of, crc4_of, crc4_remainder};
ghost use Rattle.link_math.specs.Division.{bits_of};

/// The check nibble before the first nibble, 0101.
const SEED: u8 = 5;

/// For each check nibble, the remainder of its four bits with 0000 after them.
const SHIFTED: [u8; 16] = [0, 13, 7, 10, 14, 3, 9, 4, 1, 12, 6, 11, 15, 2, 8, 5];

/// The check nibble after one nibble more, where `check` is that of the nibbles before; all below 16.
#[tactic(auto, using(crate::proofs::CheckTable::shifted_is))]
fn step(check: u8, nibble: u8) -> u8
    requires check_in_range { check < 16 }
    requires nibble_in_range { nibble < 16 }
    ensures value { result ≡ crc4_remainder (bits_of 4 check ++ bits_of 4 nibble) }
    ensures is_nibble { result < 16 }
{
    nibble ^ SHIFTED[check as usize]
}

/// The recommended CRC nibble (SAE J2716), 0 to 15, of `nibbles`, each 0 to 15, in the order they are sent.
#[tactic(auto, using(crate::proofs::CheckTable::after_zeros))]
pub fn crc4(nibbles: &[u8]) -> u8
    requires { All (λ nibble. nibble < 16) nibbles.now }
    ensures value { result ≡ crc4_of nibbles.now }
    ensures is_nibble { result < 16 }
{
    step(crc4_legacy(nibbles), 0)
}

/// The legacy CRC nibble (SAE J2716), 0 to 15, of `nibbles`, each 0 to 15, in the order they are sent.
#[tactic(auto, using(crate::proofs::CheckTable::seed_is, crate::proofs::CheckTable::after_another))]
pub fn crc4_legacy(nibbles: &[u8]) -> u8
    requires { All (λ nibble. nibble < 16) nibbles.now }
    ensures value { result ≡ crc4_legacy_of nibbles.now }
    ensures is_nibble { result < 16 }
{
    let mut check = SEED;
    for nibble in nibbles {
        check = step(check, *nibble);
    }
    check
}
