//! Short serial messages (SAE J2716): an ID of 4 bits, a value of 8 and a CRC of 4, in sixteen frames.
ghost use Rattle.std.specs.Prelude.{◌≡◌, ◌/◌, ◌%◌, ◌<◌, ◌++◌, [], ◌∷◌, List, ℕ, false};
ghost use Rattle.line_base.specs.Standing.{Leads};
ghost use Rattle.link_math.specs.Checks.{crc4_of};
ghost use Rattle.link_math.specs.Division.{bits_of};
ghost use Rattle.sent_serial.specs.Statuses.{start_bit};
ghost use Rattle.sent_serial.specs.Steps.{steps_of};
ghost use Rattle.sent_serial.specs.Short.{short_found, short_message, short_reading};
ghost use Rattle.sent_serial.specs.Kept.{AgreesShort, IsShortState};

use crate::status::{has_start, has_value};
use crate::step::SerialStep;
use line_base::Rule;
use link_math::crc4;
use std::marker::Model;

/// How many frames a short message has (SAE J2716).
const FRAMES: u8 = 16;

/// Where a reader of short messages stands between two frames.
#[derive(Clone, Copy, Debug, PartialEq, Eq)]
enum ShortState {
    /// Outside a message.
    Outside,
    /// In a message.
    Within {
        /// How many of its frames are there, 1 to 15.
        taken: u8,
        /// Their value bits, the last one lowest.
        bits: u16,
    },
}

/// Reads short messages from the statuses of good frames, one at a time. Contracts see what it has kept,
/// and say by `StandsForShort` which list of statuses it stands for. After a fault it stands where the
/// reading goes on.
#[derive(Debug, Drop)]
pub struct ShortReader {
    state: ShortState,
}

impl Model for ShortReader {
    ghost use Rattle.sent_serial.specs.declared.short.ShortState.{ShortState};
    ghost use Rattle.sent_serial.specs.Kept.{IsShortState};

    ghost Value = { ShortState };

    ghost view = { λ r. r.state };

    ghost invariant = { λ r. IsShortState r.state };
}

/// The CRC, 0 to 15, of a message of this ID, 0 to 15, and this value.
pub fn check_of(id: u8, value: u8) -> u8
    requires { id < 16 }
    ensures value { result ≡ crc4_of (id ∷ value / 16 ∷ value % 16 ∷ []) }
    ensures is_nibble { result < 16 }
{
    crc4(&[id, value / 16, value % 16])
}

/// What a message of these sixteen value bits says, that of the last frame lowest.
fn message_of(bits: u16) -> SerialStep
    ensures { result ≡ short_message (bits_of 16 bits) }
{
    let id = (bits / 0x1000) as u8;
    let value = (bits / 0x10 % 0x100) as u8;
    let check = (bits % 0x10) as u8;
    if check == check_of(id, value) {
        SerialStep::Short { id, value }
    } else {
        SerialStep::Bad(Rule::SerialCheck)
    }
}

/// What a reader has kept after the next status, whose start bit is clear, and what it answers, where
/// `taken` frames of a message, 1 to 15, have these value bits.
fn continued(taken: u8, bits: u16, status: u8) -> (ShortState, SerialStep)
    requires valid { IsShortState (ShortState.Within taken bits) }
    requires clear { start_bit status ≡ false }
    ensures valid { IsShortState result.0 }
    ensures leads { Leads short_found (AgreesShort (ShortState.Within taken bits)) (AgreesShort result.0) (status ∷ []) (steps_of result.1) }
{
    let bits = 2 * bits + u16::from(has_value(status));
    let taken = taken + 1;
    if taken == FRAMES {
        (ShortState::Outside, message_of(bits))
    } else {
        (ShortState::Within { taken, bits }, SerialStep::Nothing)
    }
}

/// What a reader has kept after the next status, and what it answers.
fn next_state(state: ShortState, status: u8) -> (ShortState, SerialStep)
    requires valid { IsShortState state }
    ensures valid { IsShortState result.0 }
    ensures leads { Leads short_found (AgreesShort state) (AgreesShort result.0) (status ∷ []) (steps_of result.1) }
{
    let begun = ShortState::Within {
        taken: 1,
        bits: u16::from(has_value(status)),
    };
    let starts = has_start(status);
    match state {
        ShortState::Outside if starts => (begun, SerialStep::Nothing),
        ShortState::Outside => (ShortState::Outside, SerialStep::Nothing),
        ShortState::Within { .. } if starts => (begun, SerialStep::Bad(Rule::Restart)),
        ShortState::Within { taken, bits } => continued(taken, bits, status),
    }
}

impl ShortReader {
    ghost use Rattle.sent_serial.specs.Readers.{StandsForShort};

    /// A reader that has seen no frame.
    pub fn new() -> ShortReader
        ensures { StandsForShort result [] }
    {
        ShortReader {
            state: ShortState::Outside,
        }
    }

    /// Takes the status, 0 to 15, of the next good frame, and answers what it ends.
    pub fn push(&mut self, status: u8) -> SerialStep
        requires { status < 16 }
        ensures stands { (seen : List ℕ) → StandsForShort self.old seen → StandsForShort self.new (seen ++ status ∷ []) }
        ensures grows { (seen : List ℕ) → StandsForShort self.old seen → short_reading (seen ++ status ∷ []) ≡ short_reading seen ++ steps_of result }
    {
        let (state, step) = next_state(self.state, status);
        self.state = state;
        step
    }

    /// Forgets all frames: a message that isn't whole is gone.
    pub fn reset(&mut self)
        ensures { StandsForShort self.new [] }
    {
        self.state = ShortState::Outside;
    }
}
