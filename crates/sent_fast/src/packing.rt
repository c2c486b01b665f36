//! From values to nibbles.
ghost use Rattle.std.specs.Prelude.{◌≡◌, ◌<◌, ◌/◌, ◌%◌, ◌↔◌, List, ℕ, IsSome, IfSome};
ghost use Rattle.sent_fast.specs.Layouts.{HasNibbles, Spells};

use crate::layout::{Fast, MAX_TWELVE_BITS};
use line_base::Nibbles;

/// The nibble of a value that counts so much: 1, 16, 256 or 4,096.
fn digit(value: u16, weight: u16) -> u8
    requires { 0 < weight }
    ensures value { result ≡ value / weight % 16 }
    ensures nibble { result < 16 }
{
    (value / weight % 16) as u8
}

/// The nibbles that say this value, in the layout that belongs to it; there is one such list. `None`
/// exactly where it is raw, or a 12-bit value is above 4,095.
pub fn pack(fast: &Fast) -> Option<Nibbles>
    ensures accepted { IsSome result ↔ HasNibbles fast.now }
    ensures spelled { IfSome result (λ nibbles. Spells fast.now nibbles) }
    ensures one_spelling { IfSome result (λ nibbles. (other : List ℕ) → Spells fast.now other → other ≡ nibbles) }
{
    match *fast {
        Fast::Raw => None,
        Fast::One { a } if a <= MAX_TWELVE_BITS => {
            Nibbles::new(&[digit(a, 256), digit(a, 16), digit(a, 1)])
        }
        Fast::Two { a, b } if a <= MAX_TWELVE_BITS && b <= MAX_TWELVE_BITS => Nibbles::new(&[
            digit(a, 256),
            digit(a, 16),
            digit(a, 1),
            digit(b, 1),
            digit(b, 16),
            digit(b, 256),
        ]),
        Fast::Secure { a, counter } if a <= MAX_TWELVE_BITS => Nibbles::new(&[
            digit(a, 256),
            digit(a, 16),
            digit(a, 1),
            counter / 16,
            counter % 16,
            15 - digit(a, 256),
        ]),
        Fast::Split { a, b } => Nibbles::new(&[
            digit(a, 4096),
            digit(a, 256),
            digit(a, 16),
            digit(a, 1),
            b % 16,
            b / 16,
        ]),
        _ => None,
    }
}
