//! From nibbles to values.
ghost use Rattle.std.specs.Prelude.{◌≡◌, ◌≢◌, ◌≤◌, ◌-◌, ◌↔◌, length, IsErr, IfOk, IfErr};
ghost use Rattle.line_base.specs.Nibbles.{AreNibbles};
ghost use Rattle.sent_fast.specs.Layouts.{FitsLayout, InRange, fast_of, nibble, value_of_first_three};

use crate::layout::{Fast, Layout};
use line_base::{Nibbles, Rule};

/// The 12-bit value of the first three nibbles, from its highest nibble down.
fn twelve_bits(values: &[u8]) -> u16
    requires nibbles { AreNibbles values.now }
    requires three { 3 ≤ length values.now }
    ensures value { result ≡ value_of_first_three values.now }
    ensures range { result ≤ 4095 }
{
    256 * u16::from(values[0]) + 16 * u16::from(values[1]) + u16::from(values[2])
}

/// What 6 nibbles say in secure12, or that the last isn't the inverted copy of the first.
fn unpack_secure(values: &[u8]) -> Result<Fast, Rule>
    requires nibbles { AreNibbles values.now }
    requires six { length values.now ≡ 6 }
    ensures value { result ≡ fast_of Layout.Secure12 values.now }
    ensures refused { IsErr result ↔ nibble values.now 6 ≢ 15 - nibble values.now 1 }
    ensures range { IfOk result InRange }
{
    if values[5] != 15 - values[0] {
        return Err(Rule::Copy);
    }
    Ok(Fast::Secure {
        a: twelve_bits(values),
        counter: 16 * values[3] + values[4],
    })
}

/// What the nibbles say in this layout: 3 nibbles for one12, 6 for two12, secure12 and split16_8, any
/// number for raw. `Rule::Copy` exactly where the layout is secure12 and nibble 6 isn't 15 minus nibble 1.
pub fn unpack(layout: Layout, nibbles: &Nibbles) -> Result<Fast, Rule>
    requires { FitsLayout layout nibbles.now }
    ensures value { result ≡ fast_of layout nibbles.now }
    ensures refused { IsErr result ↔ (layout ≡ Layout.Secure12) × (nibble nibbles.now 6 ≢ 15 - nibble nibbles.now 1) }
    ensures only_copy { IfErr result (λ rule. rule ≡ Rule.Copy) }
    ensures range { IfOk result InRange }
{
    let values = nibbles.values();
    match layout {
        Layout::Raw => Ok(Fast::Raw),
        Layout::One12 => Ok(Fast::One {
            a: twelve_bits(values),
        }),
        Layout::Two12 => Ok(Fast::Two {
            a: twelve_bits(values),
            b: u16::from(values[3]) + 16 * u16::from(values[4]) + 256 * u16::from(values[5]),
        }),
        Layout::Secure12 => unpack_secure(values),
        Layout::Split16x8 => Ok(Fast::Split {
            a: 16 * twelve_bits(values) + u16::from(values[3]),
            b: values[4] + 16 * values[5],
        }),
    }
}
