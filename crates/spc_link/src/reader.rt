//! The reader of SPC transactions.
ghost use Rattle.std.specs.Prelude.{◌≡◌, ◌^◌, ◌≤◌, ◌++◌, [], ◌∷◌, All, List};
ghost use Rattle.line_base.specs.Edges.{NumberedEdge};
ghost use Rattle.spc_link.specs.Setup.{Settings};
ghost use Rattle.spc_link.specs.Reading.{spc_at_end, spc_reading, steps_of};
ghost use Rattle.spc_link.specs.Transactions.{Means, MeansAtEnd};
ghost use Rattle.spc_link.specs.Kept.{EdgeLeads, IsState, ends_of};

use crate::answer::{read_calibration, read_value};
use crate::setup::SpcSetup;
use crate::state::{State, begin, end_delay, end_trigger};
use crate::step::SpcStep;
use line_base::Edge;
use std::marker::Model;

/// Reads SPC transactions from the edges of one line, one at a time, with memory of fixed size. Contracts see its
/// setup and what it has kept, and say by `StandsFor` which list of edges it stands for. The fall that ends a
/// transaction, good, bad or without an answer, may begin the next.
#[derive(Debug, Drop)]
pub struct SpcReader {
    setup: SpcSetup,
    state: State,
}

impl Model for SpcReader {
    ghost use Rattle.spc_link.specs.Setup.{Settings};
    ghost use Rattle.spc_link.specs.declared.state.State.{State};
    ghost use Rattle.spc_link.specs.Kept.{IsState};

    ghost Value = { Settings × State };

    ghost view = { λ r. (r.setup, r.state) };

    ghost invariant = { λ r. IsState r.setup r.state };
}

/// What a reader has kept after the next edge, and what it answers.
fn next_state(setup: &SpcSetup, state: State, number: u64, edge: Edge) -> (State, SpcStep)
    requires in_range { edge.time ≤ 10 ^ 15 }
    requires valid { IsState setup.now state }
    ensures valid { IsState setup.now result.0 }
    ensures leads { EdgeLeads setup.now state result.0 (record { number = number; edge = edge }) (steps_of result.1) }
{
    match state {
        State::Fresh => (State::Idle { time: edge.time }, SpcStep::Nothing),
        State::Idle { time } => (begin(setup, time, edge), SpcStep::Nothing),
        State::Low { fall } => end_trigger(setup, fall, number, edge),
        State::Risen { place, time, code } => end_delay(setup, place, time, code, number, edge),
        State::Calibrating { answer } => read_calibration(setup, answer, number, edge),
        State::Values {
            answer,
            calibration,
            values,
        } => read_value(setup, answer, calibration, values, number, edge),
    }
}

/// What the end of the edges adds: a trigger with a code that no edge follows has no answer.
fn last_step(state: State) -> SpcStep
    ensures { steps_of result ≡ ends_of state }
{
    match state {
        State::Risen { place, code, .. } => SpcStep::NoAnswer { place, code },
        State::Fresh
        | State::Idle { .. }
        | State::Low { .. }
        | State::Calibrating { .. }
        | State::Values { .. } => SpcStep::Nothing,
    }
}

impl SpcReader {
    ghost use Rattle.spc_link.specs.Readers.{StandsFor};

    /// A reader for this setup that has seen no edge.
    pub fn new(setup: SpcSetup) -> SpcReader
        ensures { StandsFor setup result [] }
    {
        SpcReader {
            setup,
            state: State::Fresh,
        }
    }

    /// Takes the next edge of the line, with its number in the channel, and answers what it decides, which is at
    /// most one thing. Its time is at most 10^15 ns.
    pub fn push(&mut self, number: u64, edge: Edge) -> SpcStep
        requires { edge.time ≤ 10 ^ 15 }
        ensures stands { (setup : Settings) (seen : List NumberedEdge) → StandsFor setup self.old seen
            → StandsFor setup self.new (seen ++ record { number = number; edge = edge } ∷ []) }
        ensures grows { (setup : Settings) (seen : List NumberedEdge) → StandsFor setup self.old seen
            → spc_reading setup (seen ++ record { number = number; edge = edge } ∷ []) ≡ spc_reading setup seen ++ steps_of result }
        ensures means { (setup : Settings) (seen : List NumberedEdge) → StandsFor setup self.old seen
            → All (Means setup (seen ++ record { number = number; edge = edge } ∷ [])) (steps_of result) }
    {
        let (state, step) = next_state(&self.setup, self.state, number, edge);
        self.state = state;
        step
    }

    /// The line has ended: a trigger that no edge followed has no answer. Then forgets all edges.
    pub fn finish(&mut self) -> SpcStep
        ensures stands { (setup : Settings) (seen : List NumberedEdge) → StandsFor setup self.old seen → StandsFor setup self.new [] }
        ensures ends { (setup : Settings) (seen : List NumberedEdge) → StandsFor setup self.old seen
            → spc_at_end setup seen ≡ spc_reading setup seen ++ steps_of result }
        ensures means { (setup : Settings) (seen : List NumberedEdge) → StandsFor setup self.old seen → All (MeansAtEnd setup seen) (steps_of result) }
    {
        let last = last_step(self.state);
        self.reset();
        last
    }

    /// Forgets all edges: the next one is an opening.
    pub fn reset(&mut self)
        ensures { (setup : Settings) (seen : List NumberedEdge) → StandsFor setup self.old seen → StandsFor setup self.new [] }
    {
        self.state = State::Fresh;
    }
}
