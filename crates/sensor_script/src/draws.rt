//! Values of a script's messages.
ghost use Rattle.std.specs.Prelude.{◌≡◌, ◌+◌, ◌%◌, ◌^◌, ◌<◌, ◌≤◌, All};
ghost use Rattle.arrayvec.specs.ArrayVec.{array_vec_len};
ghost use Rattle.line_base.specs.Nibbles.{AreNibbles};
ghost use Rattle.sensor_script.specs.Draws.{behind_value, init_code, nibbles_by, signal_code, value};
ghost use Rattle.sim_base.specs.Wobbles.{behind_word, past, word};

use arrayvec::ArrayVec;
use line_base::Nibbles;
use psi5_init::code_at;
use sim_base::Wobble;

/// How many values there are of so many bits, 0 to 24.
fn values_of(width: u8) -> u64
    requires { width ≤ 24 }
    ensures value { result ≡ 2 ^ width }
    ensures some { 1 ≤ result }
{
    1 << width
}

/// A value of so many bits, 0 to 24; 0 where there are none.
pub fn draw(width: u8, wobble: &mut Wobble) -> u32
    requires { width ≤ 24 }
    ensures value { result ≡ value width wobble.old }
    ensures next { wobble.new ≡ behind_value width wobble.old }
    ensures below { result < 2 ^ width }
{
    if width == 0 {
        return 0;
    }
    wobble.pick(values_of(width)) as u32
}

/// A value of so many bits, 0 to 8; 0 where there are none.
pub fn draw_byte(width: u8, wobble: &mut Wobble) -> u8
    requires { width ≤ 8 }
    ensures value { result ≡ value width wobble.old }
    ensures next { wobble.new ≡ behind_value width wobble.old }
    ensures below { result < 2 ^ width }
{
    if width == 0 {
        return 0;
    }
    wobble.pick(values_of(width)) as u8
}

/// A value of so many bits, 0 to 16; 0 where there are none.
pub fn draw_short(width: u8, wobble: &mut Wobble) -> u16
    requires { width ≤ 16 }
    ensures value { result ≡ value width wobble.old }
    ensures next { wobble.new ≡ behind_value width wobble.old }
    ensures below { result < 2 ^ width }
{
    if width == 0 {
        return 0;
    }
    wobble.pick(values_of(width)) as u16
}

/// A nibble.
fn draw_nibble(wobble: &mut Wobble) -> u8
    ensures value { result ≡ word wobble.old % 16 }
    ensures next { wobble.new ≡ behind_word wobble.old }
    ensures below { result < 16 }
{
    wobble.pick(16) as u8
}

/// So many nibbles, up to 6.
pub fn draw_nibbles(count: u8, wobble: &mut Wobble) -> ArrayVec<u8, 6>
    requires { count ≤ 6 }
    ensures nibbles { result.items ≡ nibbles_by count wobble.old }
    ensures next { wobble.new ≡ past count wobble.old }
    ensures as_many { array_vec_len result ≡ count }
    ensures each { All (λ nibble. nibble < 16) result.items }
{
    let mut nibbles = ArrayVec::new();
    for _ in 0..count {
        nibbles.push(draw_nibble(wobble));
    }
    nibbles
}

/// The code of a signal of -480 to 480, as a two's complement number of 10 bits.
#[tactic(auto, unfolding(crate::specs::Draws::signal_code))]
pub fn draw_signal(wobble: &mut Wobble) -> u32
    ensures value { result ≡ signal_code (word wobble.old) }
    ensures next { wobble.new ≡ behind_word wobble.old }
{
    (wobble.pick(961) as u32 + 544) % 1_024
}

/// The code at a place of the initialisation of a slot, 0 to 7, whose blocks are each sent so many times, 1 to 16; 0
/// where there is none.
pub fn init_code(repeats: u8, slot: u8, place: u32) -> u32
    requires some { 1 ≤ repeats }
    requires few { repeats ≤ 16 }
    requires slot { slot < 8 }
    ensures { result ≡ init_code repeats slot place }
{
    let nibbles = [
        (0 + slot) % 16,
        (1 + slot) % 16,
        (2 + slot) % 16,
        (3 + slot) % 16,
        (4 + slot) % 16,
        (5 + slot) % 16,
        (6 + slot) % 16,
        (7 + slot) % 16,
        (8 + slot) % 16,
        (9 + slot) % 16,
        (10 + slot) % 16,
        (11 + slot) % 16,
        (12 + slot) % 16,
        (13 + slot) % 16,
        (14 + slot) % 16,
        (15 + slot) % 16,
    ];
    match code_at(&nibbles, repeats, u64::from(place)) {
        None => 0,
        Some(code) => u32::from(code),
    }
}

/// Nibbles that are 1 to 6 and each below 16.
pub fn as_nibbles(values: &[u8]) -> Nibbles
    requires { AreNibbles values.now }
    ensures { result ≡ values.now }
{
    Nibbles::new(values).unwrap()
}
