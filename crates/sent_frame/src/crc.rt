//! The CRC nibble of a frame, in the form that the setup names, and whether a frame's is right.
ghost use Rattle.std.specs.Prelude.{All, ◌≡◌, ◌+◌, ◌<◌, length};
ghost use Rattle.sent_frame.specs.Reading.{checked_over, crc_of};

use crate::frame::{SentFrame, SentStep};
use crate::setup::{CrcForm, SentSetup};
use crate::values::FrameValues;
use line_base::{Nibbles, Rule};
use link_math::{crc4, crc4_legacy};

/// What the CRC nibble of a frame covers.
#[derive(Clone, Copy, Debug, PartialEq, Eq)]
pub enum Cover {
    /// The data nibbles (SAE J2716).
    Nibbles,
    /// The status nibble, and then the data nibbles: this project's own choice for answers of SPC.
    Status,
}

/// The CRC nibble, 0 to 15, of data nibbles, each 0 to 15, in the order they are sent.
pub fn crc_nibble(form: CrcForm, nibbles: &[u8]) -> u8
    requires { All (λ nibble. nibble < 16) nibbles.now }
    ensures value { result ≡ crc_of form nibbles.now }
    ensures is_nibble { result < 16 }
{
    match form {
        CrcForm::New => crc4(nibbles),
        CrcForm::Legacy => crc4_legacy(nibbles),
    }
}

/// What a frame of these values comes to, where the last of its pulses ends at this place: its status, its data
/// nibbles and the CRC nibble, as many as the setup says.
pub fn checked_frame(setup: &SentSetup, cover: Cover, values: FrameValues, place: u64) -> SentStep
    requires { length values ≡ setup.now.nibbles + 2 }
    ensures { result ≡ checked_over cover setup.now place values }
{
    let values = values.as_slice();
    let count = usize::from(setup.nibbles());
    let nibbles = &values[1..=count];
    let covered = match cover {
        Cover::Nibbles => nibbles,
        Cover::Status => &values[..=count],
    };
    let check = crc_nibble(setup.crc(), covered);
    match Nibbles::new(nibbles) {
        Some(nibbles) if check == values[count + 1] => SentStep::Good {
            place,
            frame: SentFrame {
                status: values[0],
                nibbles,
            },
        },
        _ => SentStep::Bad {
            place,
            rule: Rule::Check,
        },
    }
}
