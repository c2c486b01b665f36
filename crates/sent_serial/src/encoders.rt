//! The statuses of a serial message, as a sensor sends them (SAE J2716).
ghost use Rattle.std.specs.Prelude.{◌≡◌, ◌/◌, ◌%◌, ◌+◌, ◌<◌, ◌≤◌, [], ◌∷◌, All, length, map};
ghost use Rattle.link_math.specs.Division.{bits_of};
ghost use Rattle.sent_serial.specs.Statuses.{HasTwoBits, start_bit, value_bit};
ghost use Rattle.sent_serial.specs.Short.{short_reading};
ghost use Rattle.sent_serial.specs.Enhanced.{enhanced_reading};
ghost use Rattle.sent_serial.specs.Messages.{FitsMessage, IsMessageOf};
ghost use Rattle.sent_serial.specs.SentStatuses.{enhanced_statuses, short_statuses, statuses_with_check};

use crate::enhanced::checked;
use crate::short::check_of;
use crate::status::has_bit;
use crate::step::SerialStep;
use link_math::crc6;

/// The start bits of a short message: that of the first frame is set.
const SHORT_STARTS: u32 = 0x8000;

/// The start bits of an enhanced message that are always set, those of frames 1 to 6.
const RUN_STARTS: u32 = 0x3F000;

/// The start bit of frame 8 of an enhanced message, the form bit.
const FORM_START: u32 = 0x400;

/// The status that has this value bit and this start bit, and no other bit set.
fn status_of(value: bool, start: bool) -> u8
    ensures value { value_bit result ≡ value }
    ensures start { start_bit result ≡ start }
    ensures two_bits { HasTwoBits result }
{
    8 * u8::from(start) + 4 * u8::from(value)
}

/// Writes the statuses of up to 32 frames that have these value bits and start bits, those of the last
/// frame lowest.
fn spread(statuses: &mut [u8], values: u32, starts: u32)
    requires { length statuses.old ≤ 32 }
    ensures values { map value_bit statuses.new ≡ bits_of (length statuses.old) values }
    ensures starts { map start_bit statuses.new ≡ bits_of (length statuses.old) starts }
    ensures two_bits { All HasTwoBits statuses.new }
{
    let count = statuses.len();
    for (place, status) in statuses.iter_mut().enumerate() {
        let later = count - 1 - place;
        *status = status_of(has_bit(values, later), has_bit(starts, later));
    }
}

/// The sixteen statuses of the short message of this ID, 0 to 15, and this value, 0 to 255, with bits 1 and
/// 0 clear.
pub fn short_bits(id: u8, value: u8) -> [u8; 16]
    requires { id < 16 }
    ensures statuses { result ≡ short_statuses id value }
    ensures read_alone { short_reading result ≡ SerialStep.Short id value ∷ [] }
    ensures two_bits { All HasTwoBits result }
{
    let check = check_of(id, value);
    let bits = 0x1000 * u32::from(id) + 0x10 * u32::from(value) + u32::from(check);
    let mut statuses = [0; 16];
    spread(&mut statuses, bits, SHORT_STARTS);
    statuses
}

/// The statuses of the enhanced message that has these start bits in its frames 8 to 18, those of frames 13
/// and 18 clear, and these value bits in its frames 7 to 18, those of the last frame lowest.
fn message(starts: u32, values: u32) -> [u8; 18]
    requires starts { starts < 0x800 }
    requires zero_13 { starts / 0x20 % 2 ≡ 0 }
    requires zero_18 { starts % 2 ≡ 0 }
    requires values { values < 0x1000 }
    ensures statuses { result ≡ statuses_with_check (bits_of 12 values) (bits_of 12 starts) }
    ensures message { IsMessageOf result (RUN_STARTS + starts) values }
    ensures two_bits { All HasTwoBits result }
{
    let starts = RUN_STARTS + starts;
    let check = crc6(&checked(values, starts));
    let mut statuses = [0; 18];
    spread(&mut statuses, 0x1000 * u32::from(check) + values, starts);
    statuses
}

/// The eighteen statuses of the enhanced message of this ID and this value, with bits 1 and 0 clear: where
/// it is wide, an ID of 0 to 15 and a value of 0 to 65,535, else an ID of 0 to 255 and a value of 0 to
/// 4,095.
pub fn enhanced_bits(id: u8, value: u16, wide: bool) -> [u8; 18]
    requires { FitsMessage id value wide }
    ensures statuses { result ≡ enhanced_statuses id value wide }
    ensures read_alone { enhanced_reading result ≡ SerialStep.Enhanced id value wide ∷ [] }
    ensures two_bits { All HasTwoBits result }
{
    let id = u32::from(id);
    let value = u32::from(value);
    if wide {
        message(
            FORM_START + 0x40 * id + 2 * (value / 0x1000),
            value % 0x1000,
        )
    } else {
        message(0x40 * (id / 0x10) + 2 * (id % 0x10), value)
    }
}
