//! The falls of a SENT frame, in ps.
ghost use Rattle.std.specs.Prelude.{◌≡◌, ◌+◌, ◌*◌, ◌<◌, ◌≤◌, [], All, IsTrue, length, if◌then◌else◌};
ghost use Rattle.link_tolerance.specs.Ticks.{IsTick};
ghost use Rattle.sim_base.specs.DrawnTicks.{next_tick, pause_ticks};
ghost use Rattle.sent_sim.specs.SentSims.{begins_at, ends_at, first_falls, frame_sent, frame_words, ideal_of, past_frame, pause_count};
ghost use Rattle.sent_sim.specs.SentStates.{IsInTime};
ghost use Rattle.sim_base.specs.Wobbles.{past, word};

use arrayvec::ArrayVec;
use sent_frame::{SentFrame, SentSetup, pulses_of};
use sim_base::{Wobble, next_tick, pause_ticks, push_pulses};

/// How many nominal ticks after 0 the first fall of all is.
const FIRST_TICKS: u64 = 100;

/// How many falls a frame has at most: one for each of ten pulses, and one before the first frame.
const MAX_FALLS: usize = 11;

/// The falls of a frame that is drawn, all in ps.
#[derive(Drop)]
pub struct FrameFalls {
    /// The tick of its calibration pulse.
    pub tick: u64,
    /// When its falls are ideal.
    pub falls: ArrayVec<u64, MAX_FALLS>,
    /// The last of them.
    pub last: u64,
}

/// The length of a frame's pause in ticks, where it has one; else 0, and no word is drawn.
fn pause_of(setup: &SentSetup, wobble: &mut Wobble) -> u16
    ensures value { result ≡ (if setup.now.pause then pause_ticks (word wobble.old) else 0) }
    ensures next { wobble.new ≡ past (pause_count setup.now) wobble.old }
    ensures least { IsTrue setup.now.pause → 12 ≤ result }
    ensures most { result ≤ 768 }
{
    if setup.pause() {
        pause_ticks(wobble)
    } else {
        0
    }
}

/// Where the calibration pulse of the next frame begins, in ps: at the last fall, or at the first of all, which
/// is added to no falls.
fn begin(setup: &SentSetup, last: Option<u64>, falls: &mut ArrayVec<u64, MAX_FALLS>) -> u64
    requires { falls.old.items ≡ [] }
    ensures value { result ≡ begins_at setup.now last }
    ensures falls { falls.new.items ≡ first_falls setup.now last }
{
    match last {
        Some(last) => last,
        None => {
            let first = FIRST_TICKS * 1_000 * u64::from(setup.tick());
            falls.push(first);
            first
        }
    }
}

/// The falls of a frame that fits the setup, behind a last fall and a frame of this tick.
pub fn draw_frame(
    setup: &SentSetup,
    last: Option<u64>,
    before: u64,
    frame: &SentFrame,
    wobble: &mut Wobble,
) -> FrameFalls
    requires as_many { length frame.now.nibbles ≡ setup.now.nibbles }
    requires status { frame.now.status < 16 }
    requires tick { IsTick setup.now.tick before }
    requires in_time { IsInTime setup.now.tick last }
    ensures falls { result.falls.items ≡ ideal_of setup.now last (frame_sent setup.now before frame.now (frame_words setup.now wobble.old)) }
    ensures last { result.last ≡ ends_at setup.now last (frame_sent setup.now before frame.now (frame_words setup.now wobble.old)) }
    ensures tick { result.tick ≡ (frame_sent setup.now before frame.now (frame_words setup.now wobble.old)).tick }
    ensures next { wobble.new ≡ past_frame setup.now wobble.old }
    ensures range { IsTick setup.now.tick result.tick }
    ensures first { 100000 * setup.now.tick ≤ result.last }
    ensures in_time { All (λ fall. (100000 * setup.now.tick ≤ fall) × (fall ≤ result.last)) result.falls.items }
{
    let tick = next_tick(setup.tick(), before, wobble);
    let pause = pause_of(setup, wobble);
    let counts = pulses_of(setup, frame, pause);
    let mut falls = ArrayVec::new();
    let start = begin(setup, last, &mut falls) + u64::from(counts[0]) * tick;
    falls.push(start);
    let last = push_pulses(&mut falls, start, &counts[1..], tick, wobble);
    FrameFalls { tick, falls, last }
}
