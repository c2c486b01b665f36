//! Where a reader stands between two edges, and where a trigger leads it.
ghost use Rattle.std.specs.Prelude.{◌≡◌, ◌^◌, ◌≤◌, [], ◌∷◌, ℕ};
ghost use Rattle.line_base.specs.Edges.{NumberedEdge};
ghost use Rattle.line_base.specs.Standing.{Led};
ghost use Rattle.spc_link.specs.Reading.{found, steps_of};
ghost use Rattle.spc_link.specs.Kept.{AgreesState, EdgeLeads, IsState};

use crate::setup::SpcSetup;
use crate::step::SpcStep;
use crate::trigger::{code_of, is_after_quiet, is_in_delay};
use line_base::{Edge, Rule};
use sent_frame::FrameValues;

/// What is kept of an answer, whatever it has said. Times are in ns.
#[derive(Clone, Copy, Debug, PartialEq, Eq)]
pub struct Answer {
    /// The code of its trigger, below the number of windows.
    pub code: u8,
    /// The time of its last fall.
    pub fall: u64,
    /// The time of its last edge.
    pub time: u64,
}

/// Where a reader stands between two edges, with what it has kept. Times are in ns.
#[derive(Clone, Copy, Debug, PartialEq, Eq)]
pub enum State {
    /// No edge yet.
    Fresh,
    /// Outside a transaction.
    Idle {
        /// The time of the last edge.
        time: u64,
    },
    /// A trigger is low.
    Low {
        /// The time of its fall.
        fall: u64,
    },
    /// Behind a trigger, which asks for a code.
    Risen {
        /// The number of its rise.
        place: u64,
        /// The time of its rise.
        time: u64,
        /// The code, below the number of windows.
        code: u8,
    },
    /// In the first pulse of an answer: a calibration pulse is due.
    Calibrating {
        /// What is kept of the answer.
        answer: Answer,
    },
    /// In a later pulse of an answer.
    Values {
        /// What is kept of the answer.
        answer: Answer,
        /// The length of its calibration pulse.
        calibration: u64,
        /// The values so far, fewer than the frame has.
        values: FrameValues,
    },
}

/// Where a reader stands outside a transaction, behind this edge and one before it at this time in ns: a fall after
/// quiet begins a trigger.
pub fn begin(setup: &SpcSetup, before: u64, edge: Edge) -> State
    requires { edge.time ≤ 10 ^ 15 }
    ensures valid { IsState setup.now result }
    ensures leads { (last : NumberedEdge) (number : ℕ) → last.edge.time ≡ before
        → Led (found setup.now) (AgreesState setup.now result) tt (last ∷ record { number = number; edge = edge } ∷ []) [] }
{
    if is_after_quiet(setup, before, edge) {
        State::Low { fall: edge.time }
    } else {
        State::Idle { time: edge.time }
    }
}

/// The edge behind a trigger's fall, which was at this time in ns: its rise. The trigger's width tells the code.
pub fn end_trigger(setup: &SpcSetup, fall: u64, number: u64, edge: Edge) -> (State, SpcStep)
    requires { edge.time ≤ 10 ^ 15 }
    ensures valid { IsState setup.now result.0 }
    ensures leads { EdgeLeads setup.now (State.Low fall) result.0 (record { number = number; edge = edge }) (steps_of result.1) }
{
    let time = edge.time;
    match code_of(setup, time.saturating_sub(fall)) {
        Some(code) => {
            let place = number;
            (State::Risen { place, time, code }, SpcStep::Nothing)
        }
        None => {
            let place = number;
            let rule = Rule::TriggerWidth;
            (State::Idle { time }, SpcStep::Bad { place, rule })
        }
    }
}

/// The edge behind a trigger's rise, which has this number and time in ns: a fall that begins the next trigger, or
/// the answer, or neither.
pub fn end_delay(
    setup: &SpcSetup,
    place: u64,
    rise: u64,
    code: u8,
    number: u64,
    edge: Edge,
) -> (State, SpcStep)
    requires { edge.time ≤ 10 ^ 15 }
    ensures valid { IsState setup.now result.0 }
    ensures leads { EdgeLeads setup.now (State.Risen place rise code) result.0 (record { number = number; edge = edge }) (steps_of result.1) }
{
    let time = edge.time;
    if is_after_quiet(setup, rise, edge) {
        return (State::Low { fall: time }, SpcStep::NoAnswer { place, code });
    }
    if is_in_delay(setup, time.saturating_sub(rise)) {
        let fall = time;
        let answer = Answer { code, fall, time };
        return (State::Calibrating { answer }, SpcStep::Nothing);
    }
    let rule = Rule::Delay;
    let late = SpcStep::Bad {
        place: number,
        rule,
    };
    (State::Idle { time }, late)
}
