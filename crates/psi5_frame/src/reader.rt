//! The reader of PSI5 bursts.
ghost use Rattle.std.specs.Prelude.{IsTrue, false, ◌≡◌, ◌^◌, ◌≤◌, ◌++◌, [], ◌∷◌, List, if◌then◌else◌, option_to_list};
ghost use Rattle.line_base.specs.Edges.{NumberedEdge};
ghost use Rattle.psi5_frame.specs.Intervals as intervals;
ghost use Rattle.psi5_frame.specs.Setup.{Settings, bit_count};
ghost use Rattle.psi5_frame.specs.Edges.{Change};
ghost use Rattle.psi5_frame.specs.Bursts.{all_bursts, complete_bursts, bursts_so_far, bursts_at_end, burst_starts};
ghost use Rattle.psi5_frame.specs.Kept.{AgreesWith, IsState, Leads, StartsAnew, nothing};

use crate::burst::{Burst, BurstStep};
use crate::open::{OpenBurst, begun, concluded, extend};
use crate::setup::Psi5Setup;
use line_base::Edge;
use link_math::{Halves, halves_of};
use std::marker::Model;

/// What a reader has seen last.
#[derive(Clone, Copy, Debug, PartialEq, Eq)]
pub enum State {
    /// No edge yet.
    Fresh,
    /// Edges of a burst that isn't read: no quiet interval before one of them was seen.
    Skipping {
        /// The time of the last edge in ns.
        time: u64,
    },
    /// Edges of a burst that is read.
    Open {
        /// The time of the last edge in ns.
        time: u64,
        /// What is kept of the burst.
        burst: OpenBurst,
    },
}

/// Reads PSI5 bursts from the edges of one data line, one at a time, with memory of fixed size. Contracts see
/// its setup and what it has kept, and say by `StandsFor` which list of edges it stands for. Each burst that
/// is read is told once, with the first edge of the next or at the end. What was wrong with a burst changes
/// nothing for the next.
#[derive(Debug, Drop)]
pub struct BurstReader {
    setup: Psi5Setup,
    /// How many bits a frame has, 13 to 33.
    count: u8,
    state: State,
}

impl Model for BurstReader {
    ghost use Rattle.psi5_frame.specs.Setup.{Settings};
    ghost use Rattle.psi5_frame.specs.declared.reader.State.{State};
    ghost use Rattle.psi5_frame.specs.Kept.{IsKeptBy};

    ghost Value = { Settings × State };

    ghost view = { λ r. (r.setup, r.state) };

    ghost invariant = { λ r. IsKeptBy r.setup r.count r.state };
}

/// Whether no burst goes on over this interval.
#[inline]
fn is_quiet(interval: Halves) -> bool
    ensures { result ≡ intervals.is_quiet interval }
{
    match interval {
        Halves::Quiet => true,
        Halves::Short | Halves::One | Halves::Two => false,
    }
}

/// Takes the next edge, where it goes on with the burst of the edge before it. Answers whether it does; if
/// not, nothing changes.
#[inline(always)]
fn goes_on(setup: &Psi5Setup, count: u8, state: &mut State, number: u64, edge: Edge) -> bool
    requires in_range { edge.time ≤ 10 ^ 15 }
    requires valid { IsState setup.now state.old }
    requires counted { count ≡ bit_count setup.now }
    ensures valid { IsState setup.now state.new }
    ensures leads { IsTrue result → (seen : List Change) → AgreesWith setup.now state.old seen
        → Leads setup.now state.old state.new (record { number = number; edge = edge }) seen nothing }
    ensures left { result ≡ false → state.new ≡ state.old }
    ensures anew { result ≡ false → StartsAnew setup.now.bit state.old edge.time }
{
    match state {
        State::Fresh => false,
        State::Skipping { time } => {
            let interval = halves_of(edge.time.saturating_sub(*time), setup.bit());
            if is_quiet(interval) {
                return false;
            }
            *time = edge.time;
            true
        }
        State::Open { time, burst } => {
            let interval = halves_of(edge.time.saturating_sub(*time), setup.bit());
            if is_quiet(interval) {
                return false;
            }
            *time = edge.time;
            extend(count, burst, number, interval, edge.level);
            true
        }
    }
}

/// Takes an edge that begins anew, and answers what it ends and begins.
#[inline(never)]
fn begin(setup: &Psi5Setup, state: &mut State, number: u64, edge: Edge) -> BurstStep
    requires valid { IsState setup.now state.old }
    requires anew { StartsAnew setup.now.bit state.old edge.time }
    ensures valid { IsState setup.now state.new }
    ensures leads { (seen : List Change) → AgreesWith setup.now state.old seen
        → Leads setup.now state.old state.new (record { number = number; edge = edge }) seen result }
{
    let time = edge.time;
    let burst = begun(setup.bit_count(), number, edge.level);
    match state {
        State::Fresh => {
            *state = State::Skipping { time };
            BurstStep {
                ended: None,
                began: false,
            }
        }
        State::Skipping { .. } => {
            *state = State::Open { time, burst };
            BurstStep {
                ended: None,
                began: true,
            }
        }
        State::Open { burst: last, .. } => {
            let ended = concluded(setup, last);
            *state = State::Open { time, burst };
            BurstStep {
                ended: Some(ended),
                began: true,
            }
        }
    }
}

/// The burst that isn't complete, as it is judged where the line ends, if there is one.
fn last_burst(setup: &Psi5Setup, state: &State) -> Option<Burst>
    requires { IsState setup.now state.now }
    ensures { (seen : List Change) → AgreesWith setup.now state.now seen → all_bursts setup.now seen ≡ complete_bursts setup.now seen ++ option_to_list result }
{
    match state {
        State::Fresh => None,
        State::Skipping { .. } => None,
        State::Open { burst, .. } => Some(concluded(setup, burst)),
    }
}

impl BurstReader {
    ghost use Rattle.psi5_frame.specs.Readers.{StandsFor};

    /// A reader for this setup that has seen no edge.
    pub fn new(setup: Psi5Setup) -> BurstReader
        ensures { StandsFor setup result [] }
    {
        BurstReader {
            setup,
            count: setup.bit_count(),
            state: State::Fresh,
        }
    }

    /// Takes the next edge of the line, with its number in the channel, and answers which burst is complete
    /// now, and whether the edge is the first of a burst that is read. Its time is at most 10^15 ns.
    #[inline]
    pub fn push(&mut self, number: u64, edge: Edge) -> BurstStep
        requires { edge.time ≤ 10 ^ 15 }
        ensures stands { (setup : Settings) (seen : List NumberedEdge) → StandsFor setup self.old seen
            → StandsFor setup self.new (seen ++ record { number = number; edge = edge } ∷ []) }
        ensures grows { (setup : Settings) (seen : List NumberedEdge) → StandsFor setup self.old seen
            → bursts_so_far setup (seen ++ record { number = number; edge = edge } ∷ []) ≡ bursts_so_far setup seen ++ option_to_list result.ended }
        ensures began { (setup : Settings) (seen : List NumberedEdge) → StandsFor setup self.old seen
            → burst_starts setup (seen ++ record { number = number; edge = edge } ∷ []) ≡ burst_starts setup seen ++ (if result.began then number ∷ [] else []) }
    {
        if goes_on(&self.setup, self.count, &mut self.state, number, edge) {
            return BurstStep {
                ended: None,
                began: false,
            };
        }
        begin(&self.setup, &mut self.state, number, edge)
    }

    /// Takes the next edge of the line, with its number in the channel, where it goes on with the burst of the
    /// edge before it, and answers whether it does; then no burst is complete and none begins. If not, nothing
    /// changes. Its time is at most 10^15 ns.
    #[inline(always)]
    pub fn passes(&mut self, number: u64, edge: Edge) -> bool
        requires { edge.time ≤ 10 ^ 15 }
        ensures stands { IsTrue result → (setup : Settings) (seen : List NumberedEdge) → StandsFor setup self.old seen
            → StandsFor setup self.new (seen ++ record { number = number; edge = edge } ∷ []) }
        ensures quiet { IsTrue result → (setup : Settings) (seen : List NumberedEdge) → StandsFor setup self.old seen
            → bursts_so_far setup (seen ++ record { number = number; edge = edge } ∷ []) ≡ bursts_so_far setup seen }
        ensures starts { IsTrue result → (setup : Settings) (seen : List NumberedEdge) → StandsFor setup self.old seen
            → burst_starts setup (seen ++ record { number = number; edge = edge } ∷ []) ≡ burst_starts setup seen }
        ensures left { result ≡ false → self.new ≡ self.old }
    {
        goes_on(&self.setup, self.count, &mut self.state, number, edge)
    }

    /// The line has ended: the burst that isn't complete is judged, if there is one. Then forgets all edges.
    pub fn finish(&mut self) -> Option<Burst>
        ensures stands { (setup : Settings) (seen : List NumberedEdge) → StandsFor setup self.old seen → StandsFor setup self.new [] }
        ensures ends { (setup : Settings) (seen : List NumberedEdge) → StandsFor setup self.old seen
            → bursts_at_end setup seen ≡ bursts_so_far setup seen ++ option_to_list result }
    {
        let last = last_burst(&self.setup, &self.state);
        self.reset();
        last
    }

    /// Forgets all edges: the next one is an opening.
    pub fn reset(&mut self)
        ensures { (setup : Settings) (seen : List NumberedEdge) → StandsFor setup self.old seen → StandsFor setup self.new [] }
    {
        self.state = State::Fresh;
    }
}
