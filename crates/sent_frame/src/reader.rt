//! The reader of SENT frames.
ghost use Rattle.std.specs.Prelude.{IsTrue, false, ◌≡◌, ◌^◌, ◌≤◌, ◌++◌, [], ◌∷◌, All, List, ℕ};
ghost use Rattle.line_base.specs.Edges.{NumberedEdge};
ghost use Rattle.sent_frame.specs.Setup.{Settings};
ghost use Rattle.sent_frame.specs.Pulses.{pulses_of};
ghost use Rattle.sent_frame.specs.Reading.{sent_reading};
ghost use Rattle.sent_frame.specs.Positions.{IsPosition, steps_of};
ghost use Rattle.sent_frame.specs.Kept.{EdgeLeads, IsState};
ghost use Rattle.sent_frame.specs.Frames.{Means};

use crate::frame::SentStep;
use crate::position::{Position, after_pulse, keeps_value};
use crate::setup::SentSetup;
use line_base::Edge;
use std::marker::Model;

/// What a reader has seen last.
#[derive(Clone, Copy, Debug, PartialEq, Eq)]
enum State {
    /// No edge yet.
    Fresh,
    /// The opening, and no falling edge yet.
    Opened,
    /// A falling edge.
    Reading {
        /// Its time in ns.
        fall: u64,
        /// Where the reader stands at it.
        position: Position,
    },
}

/// Reads SENT frames from the edges of one line, one at a time, with memory of fixed size. Contracts see
/// its setup and what it has kept, and say by `StandsFor` which list of edges it stands for. After a fault
/// it stands where the reading goes on.
#[derive(Debug, Drop)]
pub struct SentReader {
    setup: SentSetup,
    state: State,
}

impl Model for SentReader {
    ghost use Rattle.sent_frame.specs.Setup.{Settings};
    ghost use Rattle.sent_frame.specs.declared.reader.State.{State};
    ghost use Rattle.sent_frame.specs.Kept.{IsState};

    ghost Value = { Settings × State };

    ghost view = { λ r. (r.setup, r.state) };

    ghost invariant = { λ r. IsState r.setup r.state };
}

/// What a reader that has seen a falling edge has kept after the next edge, and what it answers.
fn read_on(
    setup: &SentSetup,
    fall: u64,
    position: Position,
    number: u64,
    edge: Edge,
) -> (State, SentStep)
    requires in_range { edge.time ≤ 10 ^ 15 }
    requires valid { IsPosition setup.now position }
    ensures valid { IsState setup.now result.0 }
    ensures leads { EdgeLeads setup.now (State.Reading fall position) result.0 (record { number = number; edge = edge }) (steps_of result.1) }
{
    if edge.level {
        return (State::Reading { fall, position }, SentStep::Nothing);
    }
    let pulse = edge.time.saturating_sub(fall);
    let (next, step) = after_pulse(setup, position, pulse, number);
    let reading = State::Reading {
        fall: edge.time,
        position: next,
    };
    (reading, step)
}

/// Takes the next edge in place, where it tells nothing and leaves the reader where it stands, but for a value
/// of a frame that is kept: a rise behind the first fall, or a fall that ends such a value. Answers whether it
/// is one; if not, nothing changes.
#[inline(always)]
fn keeps_on(setup: &SentSetup, state: &mut State, edge: Edge) -> bool
    requires in_range { edge.time ≤ 10 ^ 15 }
    requires valid { IsState setup.now state.old }
    ensures valid { IsState setup.now state.new }
    ensures leads { IsTrue result → (number : ℕ) → EdgeLeads setup.now state.old state.new (record { number = number; edge = edge }) [] }
    ensures left { result ≡ false → state.new ≡ state.old }
{
    match state {
        State::Fresh | State::Opened => false,
        State::Reading { fall, position } => {
            if edge.level {
                return true;
            }
            if keeps_value(setup, position, edge.time.saturating_sub(*fall)) {
                *fall = edge.time;
                return true;
            }
            false
        }
    }
}

/// What a reader has kept after the next edge, and what it answers.
#[inline(never)]
fn next_state(setup: &SentSetup, state: State, number: u64, edge: Edge) -> (State, SentStep)
    requires in_range { edge.time ≤ 10 ^ 15 }
    requires valid { IsState setup.now state }
    ensures valid { IsState setup.now result.0 }
    ensures leads { EdgeLeads setup.now state result.0 (record { number = number; edge = edge }) (steps_of result.1) }
{
    match state {
        State::Fresh => (State::Opened, SentStep::Nothing),
        State::Opened => {
            if edge.level {
                return (State::Opened, SentStep::Nothing);
            }
            let reading = State::Reading {
                fall: edge.time,
                position: Position::Hunting,
            };
            (reading, SentStep::Nothing)
        }
        State::Reading { fall, position } => read_on(setup, fall, position, number, edge),
    }
}

impl SentReader {
    ghost use Rattle.sent_frame.specs.Readers.{StandsFor};

    /// A reader for this setup that has seen no edge.
    pub fn new(setup: SentSetup) -> SentReader
        ensures { StandsFor setup result [] }
    {
        SentReader {
            setup,
            state: State::Fresh,
        }
    }

    /// Takes the next edge of the line, with its number in the channel, and answers what it ends. Its time
    /// is at most 10^15 ns.
    #[inline(always)]
    pub fn push(&mut self, number: u64, edge: Edge) -> SentStep
        requires { edge.time ≤ 10 ^ 15 }
        ensures stands { (setup : Settings) (seen : List NumberedEdge) → StandsFor setup self.old seen
            → StandsFor setup self.new (seen ++ record { number = number; edge = edge } ∷ []) }
        ensures grows { (setup : Settings) (seen : List NumberedEdge) → StandsFor setup self.old seen
            → sent_reading setup (seen ++ record { number = number; edge = edge } ∷ []) ≡ sent_reading setup seen ++ steps_of result }
        ensures means { (setup : Settings) (seen : List NumberedEdge) → StandsFor setup self.old seen
            → All (Means setup (pulses_of (seen ++ record { number = number; edge = edge } ∷ []))) (steps_of result) }
    {
        if keeps_on(&self.setup, &mut self.state, edge) {
            return SentStep::Nothing;
        }
        let (state, step) = next_state(&self.setup, self.state, number, edge);
        self.state = state;
        step
    }

    /// Takes the next edge as [`push`](Self::push) does, whatever its number is, where it is a rise behind the
    /// first fall, or ends a value of a frame that isn't whole with it. Answers whether it is; if not, `push`
    /// is to take it.
    #[inline(always)]
    pub fn passes(&mut self, edge: Edge) -> bool
        requires { edge.time ≤ 10 ^ 15 }
        // Once it is passed, the reader stands for it too.
        ensures stands { IsTrue result → (setup : Settings) (seen : List NumberedEdge) (number : ℕ) → StandsFor setup self.old seen
            → StandsFor setup self.new (seen ++ record { number = number; edge = edge } ∷ []) }
        // No report comes of it.
        ensures quiet { IsTrue result → (setup : Settings) (seen : List NumberedEdge) (number : ℕ) → StandsFor setup self.old seen
            → sent_reading setup (seen ++ record { number = number; edge = edge } ∷ []) ≡ sent_reading setup seen }
        // An edge that isn't passed changes nothing.
        ensures left { result ≡ false → self.new ≡ self.old }
    {
        keeps_on(&self.setup, &mut self.state, edge)
    }

    /// Forgets all edges: the next one is an opening.
    pub fn reset(&mut self)
        ensures { (setup : Settings) (seen : List NumberedEdge) → StandsFor setup self.old seen → StandsFor setup self.new [] }
    {
        self.state = State::Fresh;
    }
}
