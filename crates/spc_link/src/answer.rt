//! Where an answer's edges lead a reader.
ghost use Rattle.std.specs.Prelude.{◌≡◌, ◌^◌, ◌≤◌};
ghost use Rattle.spc_link.specs.Reading as reading;
ghost use Rattle.spc_link.specs.Reading.{steps_of};
ghost use Rattle.spc_link.specs.Kept.{EdgeLeads, IsState};

use crate::setup::SpcSetup;
use crate::state::{Answer, State, begin};
use crate::step::SpcStep;
use line_base::{Edge, Rule};
use link_math::nibble_of;
use sent_frame::{FrameValues, SentStep, checked_frame, may_calibrate};

/// What an answer to a code says, where it is this as a frame of SENT.
fn answered(code: u8, step: SentStep) -> SpcStep
    ensures { result ≡ reading.answered code step }
{
    match step {
        SentStep::Nothing => SpcStep::Nothing,
        SentStep::Good { place, frame } => SpcStep::Good { place, code, frame },
        SentStep::Bad { place, rule } => SpcStep::Bad { place, rule },
    }
}

/// The next edge of an answer whose calibration pulse is due.
pub fn read_calibration(
    setup: &SpcSetup,
    answer: Answer,
    number: u64,
    edge: Edge,
) -> (State, SpcStep)
    requires { edge.time ≤ 10 ^ 15 }
    ensures valid { IsState setup.now result.0 }
    ensures leads { EdgeLeads setup.now (State.Calibrating answer) result.0 (record { number = number; edge = edge }) (steps_of result.1) }
{
    let Answer { code, fall, time } = answer;
    if edge.level {
        let time = edge.time;
        let answer = Answer { code, fall, time };
        return (State::Calibrating { answer }, SpcStep::Nothing);
    }
    let calibration = edge.time.saturating_sub(fall);
    if !may_calibrate(&setup.sent(), calibration) {
        let rule = Rule::NoCalibration;
        let none = SpcStep::Bad {
            place: number,
            rule,
        };
        // The fall is read again, and may begin a trigger.
        return (begin(setup, time, edge), none);
    }
    let fall = edge.time;
    let time = edge.time;
    let answer = Answer { code, fall, time };
    let values = FrameValues::new();
    let frame = State::Values {
        answer,
        calibration,
        values,
    };
    (frame, SpcStep::Nothing)
}

/// The next edge of an answer behind its calibration pulse: a fall ends a pulse, whose value is kept, or ends the
/// frame, or there is none.
pub fn read_value(
    setup: &SpcSetup,
    answer: Answer,
    calibration: u64,
    values: FrameValues,
    number: u64,
    edge: Edge,
) -> (State, SpcStep)
    requires in_range { edge.time ≤ 10 ^ 15 }
    requires valid { IsState setup.now (State.Values answer calibration values) }
    ensures valid { IsState setup.now result.0 }
    ensures leads { EdgeLeads setup.now (State.Values answer calibration values) result.0 (record { number = number; edge = edge }) (steps_of result.1) }
{
    let Answer { code, fall, time } = answer;
    if edge.level {
        let time = edge.time;
        let answer = Answer { code, fall, time };
        let frame = State::Values {
            answer,
            calibration,
            values,
        };
        return (frame, SpcStep::Nothing);
    }
    let sent = setup.sent();
    let whole = usize::from(sent.nibbles()) + 2;
    let Some(value) = nibble_of(edge.time.saturating_sub(fall), calibration) else {
        let rule = Rule::NibbleRange;
        let broken = SpcStep::Bad {
            place: number,
            rule,
        };
        return (begin(setup, time, edge), broken);
    };
    let values = values.with(value);
    if values.len() < whole {
        let fall = edge.time;
        let time = edge.time;
        let answer = Answer { code, fall, time };
        let frame = State::Values {
            answer,
            calibration,
            values,
        };
        return (frame, SpcStep::Nothing);
    }
    let step = checked_frame(&sent, setup.cover(), values, number);
    (begin(setup, time, edge), answered(code, step))
}
