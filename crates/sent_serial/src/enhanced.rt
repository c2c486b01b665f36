//! Enhanced serial messages (SAE J2716): an ID and a value of 20 bits together and a CRC of 6, in eighteen
//! frames.
ghost use Rattle.std.specs.Prelude.{◌≡◌, ◌<◌, ◌++◌, [], ◌∷◌, List, ℕ, true, false, ◌/◌, ◌%◌};
ghost use Rattle.line_base.specs.Standing.{Leads};
ghost use Rattle.link_math.specs.Division.{bits_of};
ghost use Rattle.sent_serial.specs.Statuses.{merged, start_bit};
ghost use Rattle.sent_serial.specs.Steps.{steps_of};
ghost use Rattle.sent_serial.specs.Enhanced.{enhanced_content, enhanced_found, enhanced_message, enhanced_reading};
ghost use Rattle.sent_serial.specs.Kept.{AgreesEnhanced, IsEnhancedState};
ghost use Rattle.sent_serial.specs.Messages.{HasBits};

use crate::status::{has_bit, has_start, has_value};
use crate::step::SerialStep;
use line_base::Rule;
use link_math::crc6;
use std::marker::Model;

/// How many set start bits an enhanced message begins with, before a clear one (SAE J2716).
const RUN: u8 = 6;

/// The start bits of frames 1 to 7.
const FIRST_SEVEN: u32 = 0b1111110;

/// How many frames come before frame 13, whose start bit is 0 (SAE J2716).
const BEFORE_13: u8 = 12;

/// How many frames come before frame 18, the last, whose start bit is 0 (SAE J2716).
const BEFORE_18: u8 = 17;

/// Where a reader of enhanced messages stands between two frames.
#[derive(Clone, Copy, Debug, PartialEq, Eq)]
enum EnhancedState {
    /// Outside a message.
    Searching {
        /// How many of the last frames have their start bits set, 0 to 6: of more, the last six.
        run: u8,
        /// The value bits of these frames, the last one lowest.
        bits: u8,
    },
    /// In a message.
    Within {
        /// How many of its frames are there, 7 to 17.
        taken: u8,
        /// Their value bits, the last one lowest.
        values: u32,
        /// Their start bits, the last one lowest.
        starts: u32,
    },
}

/// Reads enhanced messages from the statuses of good frames, one at a time. Contracts see what it has kept,
/// and say by `StandsForEnhanced` which list of statuses it stands for. After a fault it stands where the
/// reading goes on.
#[derive(Debug, Drop)]
pub struct EnhancedReader {
    state: EnhancedState,
}

impl Model for EnhancedReader {
    ghost use Rattle.sent_serial.specs.declared.enhanced.EnhancedState.{EnhancedState};
    ghost use Rattle.sent_serial.specs.Kept.{IsEnhancedState};

    ghost Value = { EnhancedState };

    ghost view = { λ r. r.state };

    ghost invariant = { λ r. IsEnhancedState r.state };
}

/// The bits that the CRC runs over: the value bit and then the start bit of each frame from 7 to 18, where
/// these are the bits of the frames, the last one lowest.
pub fn checked(values: u32, starts: u32) -> [bool; 24]
    ensures { result ≡ merged (bits_of 12 values) (bits_of 12 starts) }
{
    let mut bits = [false; 24];
    for (place, bit) in bits.iter_mut().enumerate() {
        let register = if place % 2 == 0 { values } else { starts };
        *bit = has_bit(register, 11 - place / 2);
    }
    bits
}

// The start bits of a message; the form bit, that of frame 8, says what those of frames 14 to 17 are:
//
//     frame      1 to 6  7  8  9 to 12  13  14 to 17  18
//     start bit  111111  0  0  ID        0  ID         0    an ID of 8 bits and a value of 12
//     start bit  111111  0  1  ID        0  value      0    an ID of 4 bits and a value of 16

/// What a message says that has these value bits and start bits, those of the last frame lowest, and a
/// right CRC.
fn content_of(values: u32, starts: u32) -> SerialStep
    ensures { (statuses : List ℕ) → HasBits statuses values starts → result ≡ enhanced_content statuses }
{
    let low = (values % 0x1000) as u16;
    let frames_9_to_12 = (starts / 0x40 % 0x10) as u8;
    let frames_14_to_17 = (starts / 0x2 % 0x10) as u8;
    let wide = starts / 0x400 % 2 == 1;
    if wide {
        SerialStep::Enhanced {
            id: frames_9_to_12,
            value: u16::from(frames_14_to_17) * 0x1000 + low,
            wide,
        }
    } else {
        SerialStep::Enhanced {
            id: frames_9_to_12 * 0x10 + frames_14_to_17,
            value: low,
            wide,
        }
    }
}

/// What a message says that has these value bits and start bits, those of the last frame lowest.
fn message_of(values: u32, starts: u32) -> SerialStep
    ensures { (statuses : List ℕ) → HasBits statuses values starts → result ≡ enhanced_message statuses }
{
    let check = (values / 0x1000 % 0x40) as u8;
    if check == crc6(&checked(values, starts)) {
        content_of(values, starts)
    } else {
        SerialStep::Bad(Rule::SerialCheck)
    }
}

/// Where a search stands that begins at a frame of this status, whose start bit is set.
fn begun(status: u8) -> EnhancedState
    ensures valid { IsEnhancedState result }
    ensures agrees { start_bit status ≡ true → AgreesEnhanced result tt (status ∷ []) }
{
    EnhancedState::Searching {
        run: 1,
        bits: u8::from(has_value(status)),
    }
}

/// Where a search stands after the next status, where the last `run` frames, 0 to 6, have their start bits
/// set and these value bits.
fn searched(run: u8, bits: u8, status: u8) -> EnhancedState
    requires valid { IsEnhancedState (EnhancedState.Searching run bits) }
    ensures valid { IsEnhancedState result }
    ensures leads { Leads enhanced_found (AgreesEnhanced (EnhancedState.Searching run bits)) (AgreesEnhanced result) (status ∷ []) [] }
{
    let longer = 2 * bits + u8::from(has_value(status));
    if has_start(status) {
        if run < RUN {
            return EnhancedState::Searching {
                run: run + 1,
                bits: longer,
            };
        }
        return EnhancedState::Searching {
            run: RUN,
            bits: longer % 0x40,
        };
    }
    if run < RUN {
        return EnhancedState::Searching { run: 0, bits: 0 };
    }
    EnhancedState::Within {
        taken: 7,
        values: u32::from(longer),
        starts: FIRST_SEVEN,
    }
}

/// What a reader has kept after the next status, and what it answers, where `taken` frames of a message, 7
/// to 17, have these value bits and start bits.
fn continued(taken: u8, values: u32, starts: u32, status: u8) -> (EnhancedState, SerialStep)
    requires valid { IsEnhancedState (EnhancedState.Within taken values starts) }
    ensures valid { IsEnhancedState result.0 }
    ensures leads { Leads enhanced_found (AgreesEnhanced (EnhancedState.Within taken values starts)) (AgreesEnhanced result.0) (status ∷ []) (steps_of result.1) }
{
    let start = has_start(status);
    if start && taken == BEFORE_13 {
        return (begun(status), SerialStep::Bad(Rule::Zero13));
    }
    if start && taken == BEFORE_18 {
        return (begun(status), SerialStep::Bad(Rule::Zero18));
    }
    let values = 2 * values + u32::from(has_value(status));
    let starts = 2 * starts + u32::from(start);
    if taken == BEFORE_18 {
        let outside = EnhancedState::Searching { run: 0, bits: 0 };
        return (outside, message_of(values, starts));
    }
    let within = EnhancedState::Within {
        taken: taken + 1,
        values,
        starts,
    };
    (within, SerialStep::Nothing)
}

/// What a reader has kept after the next status, and what it answers.
fn next_state(state: EnhancedState, status: u8) -> (EnhancedState, SerialStep)
    requires valid { IsEnhancedState state }
    ensures valid { IsEnhancedState result.0 }
    ensures leads { Leads enhanced_found (AgreesEnhanced state) (AgreesEnhanced result.0) (status ∷ []) (steps_of result.1) }
{
    match state {
        EnhancedState::Searching { run, bits } => {
            (searched(run, bits, status), SerialStep::Nothing)
        }
        EnhancedState::Within {
            taken,
            values,
            starts,
        } => continued(taken, values, starts, status),
    }
}

impl EnhancedReader {
    ghost use Rattle.sent_serial.specs.Readers.{StandsForEnhanced};

    /// A reader that has seen no frame.
    pub fn new() -> EnhancedReader
        ensures { StandsForEnhanced result [] }
    {
        EnhancedReader {
            state: EnhancedState::Searching { run: 0, bits: 0 },
        }
    }

    /// Takes the status, 0 to 15, of the next good frame, and answers what it ends.
    pub fn push(&mut self, status: u8) -> SerialStep
        requires { status < 16 }
        ensures stands { (seen : List ℕ) → StandsForEnhanced self.old seen → StandsForEnhanced self.new (seen ++ status ∷ []) }
        ensures grows { (seen : List ℕ) → StandsForEnhanced self.old seen → enhanced_reading (seen ++ status ∷ []) ≡ enhanced_reading seen ++ steps_of result }
    {
        let (state, step) = next_state(self.state, status);
        self.state = state;
        step
    }

    /// Forgets all frames: a message that isn't whole is gone.
    pub fn reset(&mut self)
        ensures { StandsForEnhanced self.new [] }
    {
        self.state = EnhancedState::Searching { run: 0, bits: 0 };
    }
}
