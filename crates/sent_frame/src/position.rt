//! Where a reader stands between two pulses.
ghost use Rattle.std.specs.Prelude.{IsTrue, false, ◌≡◌, ◌+◌, ◌^◌, ◌≤◌, ◌++◌, [], ◌∷◌, List, ℕ, length};
ghost use Rattle.line_base.specs.Standing.{Led, Leads};
ghost use Rattle.link_math.specs.Sent.{is_calibration};
ghost use Rattle.sent_frame.specs.Pulses.{Pulse};
ghost use Rattle.sent_frame.specs.Reading.{Standing, Hunting, due_after, found};
ghost use Rattle.sent_frame.specs.Positions.{AgreesPosition, IsInFrame, IsKeptPulse, IsPosition, steps_of};

use crate::crc::{Cover, checked_frame};
use crate::frame::SentStep;
use crate::setup::SentSetup;
use crate::values::FrameValues;
use line_base::Rule;
use link_math::{nibble_of, pause_fits, steady, window};

/// Where a reader stands between two pulses, with what it has kept. Lengths are in ns.
#[derive(Clone, Copy, Debug, PartialEq, Eq)]
pub enum Position {
    /// No pulse before matters.
    Hunting,
    /// The last pulse may be a calibration pulse. The next one tells whether it was a false start.
    Candidate {
        /// Its length.
        calibration: u64,
    },
    /// In a frame.
    Frame {
        /// The length of its calibration pulse.
        calibration: u64,
        /// The values so far, fewer than the frame has.
        values: FrameValues,
    },
    /// After a frame, a pause pulse is due.
    Pause {
        /// The length of that frame's calibration pulse.
        calibration: u64,
    },
    /// After a frame and its pause, where it has one, the next calibration pulse is due.
    Calibration {
        /// The length of that frame's calibration pulse.
        calibration: u64,
    },
}

/// Whether a pulse of so many ns, 0 to 10^15, may be a calibration pulse.
pub fn may_calibrate(setup: &SentSetup, pulse: u64) -> bool
    requires { pulse ≤ 10 ^ 15 }
    ensures value { result ≡ is_calibration pulse setup.now.tick setup.now.jitter }
    ensures some { IsTrue result → 1 ≤ pulse }
{
    window(pulse, setup.tick(), setup.jitter())
}

/// Where a hunting reader stands after a pulse of so many ns.
fn hunt(setup: &SentSetup, pulse: u64) -> Position
    requires { pulse ≤ 10 ^ 15 }
    ensures valid { IsPosition setup.now result }
    ensures leads { (place : ℕ) → Led (found setup.now) (AgreesPosition setup.now result) Hunting (record { place = place; length = pulse } ∷ []) [] }
{
    if may_calibrate(setup, pulse) {
        Position::Candidate { calibration: pulse }
    } else {
        Position::Hunting
    }
}

/// Where a reader stands after a frame whose calibration pulse had so many ns.
fn after_frame(setup: &SentSetup, calibration: u64) -> Position
    requires { IsKeptPulse setup.now calibration }
    ensures valid { IsPosition setup.now result }
    ensures agrees { AgreesPosition setup.now result (due_after setup.now calibration) [] }
{
    if setup.pause() {
        Position::Pause { calibration }
    } else {
        Position::Calibration { calibration }
    }
}

/// The next pulse of a frame: its value is kept, or ends the frame, or there is none.
fn read_value(
    setup: &SentSetup,
    calibration: u64,
    values: FrameValues,
    pulse: u64,
    place: u64,
) -> (Position, SentStep)
    requires in_range { pulse ≤ 10 ^ 15 }
    requires valid { IsPosition setup.now (Position.Frame calibration values) }
    ensures valid { IsPosition setup.now result.0 }
    ensures leads { (due : Standing) (kept : List Pulse) →
        IsInFrame setup.now calibration values due kept (record { place = place; length = pulse } ∷ [])
        → Led (found setup.now) (AgreesPosition setup.now result.0) due (kept ++ record { place = place; length = pulse } ∷ []) (steps_of result.1) }
{
    let whole = usize::from(setup.nibbles()) + 2;
    let Some(value) = nibble_of(pulse, calibration) else {
        let broken = SentStep::Bad {
            place,
            rule: Rule::NibbleRange,
        };
        return (hunt(setup, pulse), broken);
    };
    let values = values.with(value);
    if values.len() < whole {
        return (
            Position::Frame {
                calibration,
                values,
            },
            SentStep::Nothing,
        );
    }
    let next = after_frame(setup, calibration);
    let step = checked_frame(setup, Cover::Nibbles, values, place);
    (next, step)
}

/// Keeps the value that a pulse carries, in place, where the reader is in a frame that isn't whole with it.
/// Answers whether it is; if not, nothing changes.
#[inline(always)]
pub fn keeps_value(setup: &SentSetup, position: &mut Position, pulse: u64) -> bool
    requires in_range { pulse ≤ 10 ^ 15 }
    requires valid { IsPosition setup.now position.old }
    ensures valid { IsPosition setup.now position.new }
    ensures leads { IsTrue result → (place : ℕ) →
        Leads (found setup.now) (AgreesPosition setup.now position.old) (AgreesPosition setup.now position.new) (record { place = place; length = pulse } ∷ []) [] }
    ensures left { result ≡ false → position.new ≡ position.old }
{
    let Position::Frame {
        calibration,
        values,
    } = position
    else {
        return false;
    };
    let Some(value) = nibble_of(pulse, *calibration) else {
        return false;
    };
    if values.len() > usize::from(setup.nibbles()) {
        return false;
    }
    values.push(value);
    true
}

/// The pulse after a frame, or after its pause: a calibration pulse is due, and so many ns was the one
/// before.
fn read_calibration(setup: &SentSetup, earlier: u64, pulse: u64, place: u64) -> (Position, SentStep)
    requires in_range { pulse ≤ 10 ^ 15 }
    requires valid { IsPosition setup.now (Position.Calibration earlier) }
    ensures valid { IsPosition setup.now result.0 }
    ensures leads { Leads (found setup.now) (AgreesPosition setup.now (Position.Calibration earlier)) (AgreesPosition setup.now result.0)
        (record { place = place; length = pulse } ∷ []) (steps_of result.1) }
{
    if !may_calibrate(setup, pulse) {
        let rule = Rule::NoCalibration;
        return (Position::Hunting, SentStep::Bad { place, rule });
    }
    if !steady(earlier, pulse) {
        // It is read again, and may begin a frame.
        let rule = Rule::Drift;
        let again = Position::Candidate { calibration: pulse };
        return (again, SentStep::Bad { place, rule });
    }
    let values = FrameValues::new();
    let frame = Position::Frame {
        calibration: pulse,
        values,
    };
    (frame, SentStep::Nothing)
}

/// The pulse after a frame where a pause pulse is due, and so many ns was the frame's calibration pulse.
fn read_pause(setup: &SentSetup, calibration: u64, pulse: u64, place: u64) -> (Position, SentStep)
    requires in_range { pulse ≤ 10 ^ 15 }
    requires valid { IsPosition setup.now (Position.Pause calibration) }
    ensures valid { IsPosition setup.now result.0 }
    ensures leads { Leads (found setup.now) (AgreesPosition setup.now (Position.Pause calibration)) (AgreesPosition setup.now result.0)
        (record { place = place; length = pulse } ∷ []) (steps_of result.1) }
{
    if pause_fits(pulse, calibration) {
        return (Position::Calibration { calibration }, SentStep::Nothing);
    }
    let rule = Rule::PauseRange;
    (Position::Hunting, SentStep::Bad { place, rule })
}

/// The pulse after one that may be a calibration pulse of so many ns: a frame begins, unless it was a
/// false start.
fn read_start(setup: &SentSetup, calibration: u64, pulse: u64, place: u64) -> (Position, SentStep)
    requires in_range { pulse ≤ 10 ^ 15 }
    requires valid { IsPosition setup.now (Position.Candidate calibration) }
    ensures valid { IsPosition setup.now result.0 }
    ensures leads { Leads (found setup.now) (AgreesPosition setup.now (Position.Candidate calibration)) (AgreesPosition setup.now result.0)
        (record { place = place; length = pulse } ∷ []) (steps_of result.1) }
{
    if may_calibrate(setup, pulse) {
        let later = Position::Candidate { calibration: pulse };
        return (later, SentStep::Nothing);
    }
    read_value(setup, calibration, FrameValues::new(), pulse, place)
}

/// Where a reader stands after a pulse of so many ns that ends at this place, and what it answers.
pub fn after_pulse(
    setup: &SentSetup,
    position: Position,
    pulse: u64,
    place: u64,
) -> (Position, SentStep)
    requires in_range { pulse ≤ 10 ^ 15 }
    requires valid { IsPosition setup.now position }
    ensures valid { IsPosition setup.now result.0 }
    ensures leads { Leads (found setup.now) (AgreesPosition setup.now position) (AgreesPosition setup.now result.0)
        (record { place = place; length = pulse } ∷ []) (steps_of result.1) }
{
    match position {
        Position::Hunting => (hunt(setup, pulse), SentStep::Nothing),
        Position::Candidate { calibration } => read_start(setup, calibration, pulse, place),
        Position::Frame {
            calibration,
            values,
        } => read_value(setup, calibration, values, pulse, place),
        Position::Pause { calibration } => read_pause(setup, calibration, pulse, place),
        Position::Calibration { calibration } => {
            read_calibration(setup, calibration, pulse, place)
        }
    }
}
