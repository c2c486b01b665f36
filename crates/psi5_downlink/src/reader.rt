//! Frames of a sync line's rises, one rise at a time.
ghost use Rattle.std.specs.Prelude.{◌≡◌, ◌≤◌, ◌^◌, ◌++◌, [], ◌∷◌, List, ℕ, IsTrue, false};
ghost use Rattle.psi5_downlink.specs.Setup.{Settings};
ghost use Rattle.psi5_downlink.specs.Rises.{Interval, Rise};
ghost use Rattle.psi5_downlink.specs.Reading.{tooth_reading};
ghost use Rattle.psi5_downlink.specs.Kept.{IsState, IsToldAt, reading_on, steps_of};

use crate::down::Form;
use crate::frame_bits::FrameBits;
use crate::setup::ToothSetup;
use crate::step::ToothStep;
use crate::verdict::{Verdict, goes_on, judge};
use link_math::periods_of;
use std::marker::Model;

/// How many sync periods an interval has that begins a frame, or more.
const START: u8 = 6;

/// Where a reader stands between two rises.
#[derive(Clone, Copy, Debug, PartialEq, Eq)]
pub enum State {
    /// Outside a frame.
    Outside,
    /// In a frame, of which these bits came, the start's last 0 first.
    Within(FrameBits),
}

/// Where an interval of `periods` sync periods leads outside a frame.
fn begun(periods: u8) -> State
    ensures valid { (form : Form) → IsState form result }
    ensures leads { (form : Form) (number : ℕ) (later : List Interval) → reading_on form State.Outside (record { number = number; periods = periods } ∷ later) ≡ reading_on form result later }
{
    if periods == START {
        State::Within(FrameBits::new())
    } else {
        State::Outside
    }
}

/// Takes an interval of `periods` sync periods, 0 to 6, in place, where it ends nothing. Answers whether it does; if
/// not, nothing changes.
#[inline(always)]
fn keeps_on(form: Form, state: &mut State, periods: u8) -> bool
    requires valid { IsState form state.old }
    requires few { periods ≤ 6 }
    ensures valid { IsState form state.new }
    ensures leads { IsTrue result → (number : ℕ) (later : List Interval)
        → reading_on form state.old (record { number = number; periods = periods } ∷ later) ≡ reading_on form state.new later }
    ensures left { result ≡ false → state.new ≡ state.old }
{
    match state {
        State::Outside => {
            if periods == START {
                *state = State::Within(FrameBits::new());
            }
            true
        }
        State::Within(bits) => goes_on(form, bits, periods),
    }
}

/// Where an interval of `periods` sync periods, 0 to 6, leads that the rise with this number ends, and what it
/// ends.
#[inline(never)]
fn after_interval(form: Form, state: State, number: u64, periods: u8) -> (State, ToothStep)
    requires valid { IsState form state }
    requires few { periods ≤ 6 }
    ensures valid { IsState form result.0 }
    ensures leads { (later : List Interval) → reading_on form state (record { number = number; periods = periods } ∷ later) ≡ steps_of result.1 ++ reading_on form result.0 later }
    ensures place { IsToldAt number result.1 }
{
    let place = number;
    match state {
        State::Outside => (begun(periods), ToothStep::Nothing),
        State::Within(bits) => match judge(form, bits, periods) {
            Verdict::Unfinished(joined) => (State::Within(joined), ToothStep::Nothing),
            Verdict::Whole(down) => (State::Outside, ToothStep::Good { place, down }),
            Verdict::Broken(rule) => (begun(periods), ToothStep::Bad { place, rule }),
        },
    }
}

/// Reads frames from the rises of a sync line, one at a time. Contracts see the setup, the time of the last rise
/// and where the reader stands, and say by `StandsFor` for which rises it stands. After a fault it is outside a
/// frame, or at the beginning of the next one, where the same rise begins one.
#[derive(Debug, Drop)]
pub struct ToothReader {
    setup: ToothSetup,
    last: Option<u64>,
    state: State,
}

impl Model for ToothReader {
    ghost use Rattle.std.specs.Prelude.{Option, ℕ};
    ghost use Rattle.psi5_downlink.specs.declared.reader.State.{State};
    ghost use Rattle.psi5_downlink.specs.Setup.{Settings};
    ghost use Rattle.psi5_downlink.specs.Kept.{IsState};

    ghost Value = { Settings × Option ℕ × State };

    ghost view = { λ r. (r.setup, r.last, r.state) };

    ghost invariant = { λ r. IsState r.setup.form r.state };
}

impl ToothReader {
    ghost use Rattle.psi5_downlink.specs.Readers.{StandsFor};

    /// A reader for this setup that has seen no rise.
    pub fn new(setup: ToothSetup) -> ToothReader
        ensures { StandsFor setup result [] }
    {
        ToothReader {
            setup,
            last: None,
            state: State::Outside,
        }
    }

    /// Takes the next rise of the sync line, with its number in the channel and its time in ns, at most 10^15, and
    /// answers what it ends.
    pub fn push(&mut self, number: u64, time: u64) -> ToothStep
        requires { time ≤ 10 ^ 15 }
        ensures stands { (setup : Settings) (seen : List Rise) → StandsFor setup self.old seen
            → StandsFor setup self.new (seen ++ record { number = number; time = time } ∷ []) }
        ensures grows { (setup : Settings) (seen : List Rise) → StandsFor setup self.old seen
            → tooth_reading setup (seen ++ record { number = number; time = time } ∷ []) ≡ tooth_reading setup seen ++ steps_of result }
        ensures place { IsToldAt number result }
    {
        let last = self.last;
        self.last = Some(time);
        let Some(before) = last else {
            return ToothStep::Nothing;
        };
        let periods = periods_of(time.saturating_sub(before), self.setup.period());
        let (state, step) = after_interval(self.setup.form(), self.state, number, periods);
        self.state = state;
        step
    }

    /// Takes the next rise as [`push`](Self::push) does, whatever its number is, where it is the first one or ends an
    /// interval that ends nothing. Answers whether it is; if not, `push` is to take it.
    #[inline(always)]
    pub fn passes(&mut self, time: u64) -> bool
        requires { time ≤ 10 ^ 15 }
        // Once it is passed, the reader stands for it too.
        ensures stands { IsTrue result → (setup : Settings) (seen : List Rise) (number : ℕ) → StandsFor setup self.old seen
            → StandsFor setup self.new (seen ++ record { number = number; time = time } ∷ []) }
        // No step comes of it.
        ensures quiet { IsTrue result → (setup : Settings) (seen : List Rise) (number : ℕ) → StandsFor setup self.old seen
            → tooth_reading setup (seen ++ record { number = number; time = time } ∷ []) ≡ tooth_reading setup seen }
        // A rise that isn't passed changes nothing.
        ensures left { result ≡ false → self.new ≡ self.old }
    {
        let Some(before) = self.last else {
            self.last = Some(time);
            return true;
        };
        let periods = periods_of(time.saturating_sub(before), self.setup.period());
        if !keeps_on(self.setup.form(), &mut self.state, periods) {
            return false;
        }
        self.last = Some(time);
        true
    }

    /// Forgets all rises: the next one ends no interval.
    pub fn reset(&mut self)
        ensures { (setup : Settings) (seen : List Rise) → StandsFor setup self.old seen → StandsFor setup self.new [] }
    {
        self.last = None;
        self.state = State::Outside;
    }
}
