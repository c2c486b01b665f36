//! The times of PSI5 bursts and sync pulses in ps, and the edges of a burst.
ghost use Rattle.std.specs.Prelude.{◌≡◌, ◌+◌, ◌*◌, ◌^◌, ◌<◌, ◌≤◌, ◌++◌, true, All, IfSome, length, map, ℕ};
ghost use Rattle.arrayvec.specs.ArrayVec.{array_vec_len};
ghost use Rattle.psi5_frame.specs.Frames.{Fits, frame_of, waveform};
ghost use Rattle.psi5_slots.specs.Meanings.{window_at};
ghost use Rattle.spc_tolerance.specs.Trains.{last_of};
ghost use Rattle.sim_base.specs.Recordings.{recorded_by};
ghost use Rattle.sim_base.specs.Wobbles.{behind_word, past, word, words};
ghost use Rattle.psi5_sim.specs.Psi5Sims.{alternating, fits_parts, free_start, half_of, next_sync, rise_in};

use arrayvec::ArrayVec;
use line_base::{Edge, Span};
use psi5_frame::{Parts, Payload, Psi5Setup, bits_of, edges_of};
use psi5_slots::{SlotSetup, last_high};
use receiver_core::SyncSlots;
use sim_base::{MAX_EDGES, Wobble, record};

/// How many edges of a burst there is room for, as for the places of its waveform.
const MAX_PLACES: usize = 68;

/// The edges of a burst, all in ps.
#[derive(Drop)]
pub struct BurstTimes {
    /// When its edges are ideal.
    pub times: ArrayVec<u64, MAX_PLACES>,
    /// The last of them.
    pub last: u64,
}

/// Whether each value fits the width of its part.
pub fn fits_parts(parts: Parts, payload: &Payload) -> bool
    requires m { parts.m ≤ 2 }
    requires f { parts.f ≤ 4 }
    requires s { parts.s ≤ 2 }
    requires b { parts.b ≤ 12 }
    requires a { parts.a ≤ 24 }
    ensures { result ≡ fits_parts parts payload.now }
{
    payload.m < 1 << parts.m
        && payload.f < 1 << parts.f
        && payload.s < 1 << parts.s
        && payload.b < 1 << parts.b
        && payload.a < 1 << parts.a
}

/// The half-bit of a burst in ps: 95 % to 105 % of half of the nominal bit time.
#[tactic(auto, unfolding(crate::specs::Psi5Sims::half_of))]
pub fn draw_half(setup: &Psi5Setup, wobble: &mut Wobble) -> u64
    ensures value { result ≡ half_of setup.now.bit (word wobble.old) }
    ensures next { wobble.new ≡ behind_word wobble.old }
    ensures most { result ≤ 4200000 }
{
    let bit = u64::from(setup.bit());
    475 * bit + wobble.pick(50 * bit + 1)
}

/// The start of a burst in ps on a line without slots: 1.05 to 11.05 nominal bit times behind the end of the frame
/// before, up to 10^18 ps, or behind 0.
#[tactic(auto, unfolding(crate::specs::Psi5Sims::free_start))]
pub fn free_start(setup: &Psi5Setup, end: Option<u64>, wobble: &mut Wobble) -> u64
    requires { IfSome end (λ time. time ≤ 10 ^ 18) }
    ensures value { result ≡ free_start setup.now end (word wobble.old) }
    ensures next { wobble.new ≡ behind_word wobble.old }
    ensures room { 1000 * setup.now.jitter ≤ result }
    ensures most { result ≤ 2 * 10 ^ 18 }
{
    let bit = u64::from(setup.bit());
    end.unwrap_or(0) + 1_050 * bit + wobble.pick(10_000 * bit + 1)
}

/// The window of a slot, in ns behind the sync pulse.
fn window_of(slots: &SlotSetup, slot: u8) -> Span
    requires { slot < length slots.now.windows }
    ensures value { result ≡ window_at slots.now.windows slot }
    ensures late { 21200 ≤ result.low }
    ensures long { result.low + 5300 ≤ result.high }
{
    prove!(slots.frame().bit() >= 5_300);
    slots.windows()[usize::from(slot)]
}

/// The first rise of a burst in ps, in a slot behind the sync pulse that rises at this time in ps, up to 9 * 10^17:
/// twice the jitter inside each end of the slot's window.
#[tactic(auto, unfolding(crate::specs::Psi5Sims::rise_in))]
pub fn draw_rise(
    setup: &Psi5Setup,
    slots: &SlotSetup,
    slot: u8,
    sync: u64,
    wobble: &mut Wobble,
) -> u64
    requires there { slot < length slots.now.windows }
    requires in_time { sync ≤ 9 * 10 ^ 17 }
    ensures value { result ≡ rise_in setup.now.jitter (window_at slots.now.windows slot) sync (word wobble.old) }
    ensures next { wobble.new ≡ behind_word wobble.old }
    ensures late { 1000 * setup.now.jitter + 4200000 ≤ result }
    ensures most { result ≤ 10 ^ 18 }
{
    let window = window_of(slots, slot);
    let jitter = u64::from(setup.jitter());
    let low = u64::from(window.low);
    let high = u64::from(window.high);
    sync + 1_000 * (low + 2 * jitter) + wobble.pick(1_000 * (high - low - 4 * jitter) + 1)
}

/// The edges of a burst that starts at this time, with half-bits of this length, all in ps.
pub fn times_of(setup: &Psi5Setup, payload: &Payload, start: u64, half: u64) -> BurstTimes
    requires fits { Fits setup.now.parts payload.now }
    requires start { start ≤ 2 * 10 ^ 18 }
    requires half { half ≤ 4200000 }
    ensures times { result.times.items ≡ map {A = ℕ} {B = ℕ} (λ place. start + place * half) (waveform (frame_of setup.now payload.now)) }
    ensures last { result.last ≡ last_of 0 result.times.items }
    ensures begins { start ≤ result.last }
    ensures near { All (λ time. (start ≤ time) × (time ≤ start + 2 ^ 31)) result.times.items }
    ensures few { array_vec_len result.times ≤ 68 }
{
    let bits = bits_of(setup, payload);
    let places = edges_of(bits.as_slice());
    let mut times = ArrayVec::new();
    let mut last = 0;
    for place in places.as_slice() {
        last = start + u64::from(*place) * half;
        times.push(last);
    }
    BurstTimes { times, last }
}

/// The rise of the next sync pulse in ps, behind the last one, up to 9 * 10^17 ps, or behind 0.
#[tactic(auto, unfolding(crate::specs::Psi5Sims::next_sync))]
pub fn next_sync(setup: &Psi5Setup, slots: &SyncSlots, last: Option<u64>) -> u64
    requires { IfSome last (λ time. time ≤ 9 * 10 ^ 17) }
    ensures value { result ≡ next_sync setup.now slots.now last }
    ensures room { 1000 * setup.now.jitter ≤ result }
{
    let bit = u64::from(setup.bit());
    let high = u64::from(last_high(0, slots.setup.windows()));
    match last {
        None => 2_000 * bit,
        Some(last) => last + 1_000 * high + 1_050 * (u64::from(setup.bit_count()) + 3) * bit,
    }
}

/// Adds the edges of a line that are ideal at these times in ps, up to 10^18: a rise, a fall, and so on. One word is
/// drawn for each.
pub fn push_alternating(
    edges: &mut ArrayVec<Edge, MAX_EDGES>,
    line: u8,
    jitter: u32,
    ideals: &[u64],
    wobble: &mut Wobble,
)
    requires room { array_vec_len edges.old + length ideals.now ≤ 80 }
    requires some { 1 ≤ jitter }
    requires few { jitter ≤ 2 ^ 20 }
    requires range { All (λ ideal. (1000 * jitter ≤ ideal) × (ideal ≤ 10 ^ 18)) ideals.now }
    ensures edges { edges.new.items ≡ edges.old.items ++ alternating line true (recorded_by jitter ideals.now (words (length ideals.now) wobble.old)) }
    ensures next { wobble.new ≡ past (length ideals.now) wobble.old }
{
    let mut level = true;
    for ideal in ideals {
        let time = record(*ideal, jitter, wobble);
        edges.push(Edge { line, time, level });
        level = !level;
    }
}
