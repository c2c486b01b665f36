//! The rises of a message of the tooth gap, in ps.
ghost use Rattle.std.specs.Prelude.{◌≡◌, ◌+◌, ◌*◌, ◌^◌, ◌≤◌, ◌++◌, All, length, map};
ghost use Rattle.arrayvec.specs.ArrayVec.{array_vec_len};
ghost use Rattle.psi5_downlink.specs.Frames.{Fits};
ghost use Rattle.psi5_downlink_tolerance.specs.Trains.{periods_of, rises_behind};
ghost use Rattle.psi5_downlink_sim.specs.ToothSims.{IsDrawnMessage, begins_at, length_of, missing_drawn, past_words, period_drawn, span_of, tooth_words};
ghost use Rattle.psi5_downlink_sim.specs.ToothStates.{IsPulseInTime};
ghost use Rattle.sim_base.specs.Wobbles.{behind_word, word};

use arrayvec::ArrayVec;
use psi5_downlink::{Down, ToothSetup, down_bits};
use sim_base::Wobble;

/// How many rises there is room for: two round the gap, and one for each of 40 bits. A frame has fewer.
const MAX_RISES: usize = 42;

/// The rises of a message that is drawn, in ps.
#[derive(Drop)]
pub struct MessageRises {
    /// When its rises are ideal.
    pub rises: ArrayVec<u64, MAX_RISES>,
    /// The last of them.
    pub last: u64,
}

/// A period in ps, at this nominal one in ns.
#[tactic(auto, unfolding(crate::specs::ToothSims::period_drawn))]
fn draw_period(nominal: u32, wobble: &mut Wobble) -> u64
    requires { nominal ≤ 10000000 }
    ensures value { result ≡ period_drawn nominal (word wobble.old) }
    ensures next { wobble.new ≡ behind_word wobble.old }
    ensures most { result ≤ 1050 * nominal }
{
    let nominal = u64::from(nominal);
    950 * nominal + wobble.pick(100 * nominal + 1)
}

/// How many pulses are missing in a gap.
#[tactic(auto, unfolding(crate::specs::ToothSims::missing_drawn))]
fn draw_gap(wobble: &mut Wobble) -> u64
    ensures value { result ≡ missing_drawn (word wobble.old) }
    ensures next { wobble.new ≡ behind_word wobble.old }
    ensures most { result ≤ 8 }
{
    5 + wobble.pick(4)
}

/// The pulse before a gap, in ps: a period behind the last pulse, or a nominal one behind 0.
fn begin(setup: &ToothSetup, last: Option<u64>, period: u64) -> u64
    requires in_time { IsPulseInTime setup.now.period last }
    requires period { period ≤ 1050 * setup.now.period }
    ensures value { result ≡ begins_at setup.now last period }
    ensures in_time { result ≤ 10 ^ 18 }
    ensures late { 1000 * setup.now.period ≤ result }
{
    let nominal = u64::from(setup.period());
    match last {
        None => 1_000 * nominal,
        Some(last) => last + period,
    }
}

/// Adds the rises of these bits, the first of which comes a period behind this time: one for each bit that is set.
/// Gives the last rise, or the time where there is none.
fn push_bits(rises: &mut ArrayVec<u64, MAX_RISES>, start: u64, bits: &[bool], period: u64) -> u64
    requires room { array_vec_len rises.old + length bits.now ≤ 42 }
    requires start { start ≤ 2 ^ 62 }
    requires period { period ≤ 2 ^ 40 }
    ensures rises { rises.new.items ≡ rises.old.items ++ rises_behind start (map (span_of period) (periods_of 0 bits.now)) }
    ensures last { result ≡ start + length_of (map (span_of period) (periods_of 0 bits.now)) }
{
    let mut last = start;
    let mut time = start;
    for bit in bits {
        time += period;
        if *bit {
            rises.push(time);
            last = time;
        }
    }
    last
}

/// The rises of a message that fits the setup, behind a last pulse.
pub fn draw_message(
    setup: &ToothSetup,
    last: Option<u64>,
    down: &Down,
    wobble: &mut Wobble,
) -> MessageRises
    requires fits { Fits setup.now.form down.now }
    requires in_time { IsPulseInTime setup.now.period last }
    ensures drawn { IsDrawnMessage setup.now last down.now (tooth_words wobble.old) result.rises.items result.last }
    ensures next { wobble.new ≡ past_words wobble.old }
    ensures few { array_vec_len result.rises ≤ 39 }
    ensures first { 1000 * setup.now.period ≤ result.last }
    ensures in_time { All (λ rise. (1000 * setup.now.period ≤ rise) × (rise ≤ result.last)) result.rises.items }
{
    let period = draw_period(setup.period(), wobble);
    let missing = draw_gap(wobble);
    let start = begin(setup, last, period);
    let gap = start + (missing + 1) * period;
    let mut rises = ArrayVec::new();
    rises.push(start);
    rises.push(gap);
    let bits = down_bits(setup.form(), down);
    let last = push_bits(&mut rises, gap, bits.as_slice(), period);
    MessageRises { rises, last }
}
