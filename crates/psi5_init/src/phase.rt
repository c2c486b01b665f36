//! The codes of an initialisation phase, as a sensor sends them.
ghost use Rattle.std.specs.Prelude.{◌≡◌, ◌*◌, ◌^◌, ◌<◌, ◌≤◌, ◌↔◌, All, IfSome, IsNone, length, slice_get};
ghost use Rattle.std.specs.Option.{option_map};
ghost use Rattle.psi5_init.specs.Codes.{class_in};
ghost use Rattle.psi5_init.specs.Phases.{phase};

/// The code that ends a phase (PSI5 V2.1).
const READY: u16 = 0x1E7;

/// The code of the block ID 1 (PSI5 V2.1).
const FIRST_ID: u16 = 0x200;

/// The code of the value 0 (PSI5 V2.1).
const FIRST_VALUE: u16 = 0x210;

/// The code, 0 to 1,023, at a place, counted from 0, of the phase that sends these nibbles, at most 2^32 of
/// them and each 0 to 15, in blocks that are each sent `repeats` times, 1 to 16. Block IDs go from 1 to 16
/// and then from 1 again. `None` behind the last code.
pub fn code_at(nibbles: &[u8], repeats: u8, place: u64) -> Option<u16>
    requires nibbles { All (λ nibble. nibble < 16) nibbles.now }
    requires some { 1 ≤ repeats }
    requires few { repeats ≤ 16 }
    requires length { length nibbles.now ≤ 2 ^ 32 }
    ensures class { option_map class_in result ≡ slice_get (phase repeats nibbles.now) place }
    ensures ten_bits { IfSome result (λ code. code < 1024) }
    ensures none { IsNone result ↔ (2 * repeats * length nibbles.now < place) }
{
    let period = 2 * u64::from(repeats);
    let end = period * nibbles.len() as u64;
    if place > end {
        return None;
    }
    if place == end {
        return Some(READY);
    }
    let index = (place / period) as usize;
    let code = if place % 2 == 0 {
        FIRST_ID + (index % 16) as u16
    } else {
        FIRST_VALUE + u16::from(nibbles[index])
    };
    Some(code)
}
