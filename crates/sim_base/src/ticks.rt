//! The ticks of a sensor, and the falls that end its pulses.
ghost use Rattle.std.specs.Prelude.{◌≡◌, ◌+◌, ◌*◌, ◌^◌, ◌<◌, ◌≤◌, ◌++◌, length, sum};
ghost use Rattle.arrayvec.specs.ArrayVec.{array_vec_len};
ghost use Rattle.link_tolerance.specs.Pulses.{falls_behind, lengths_of};
ghost use Rattle.link_tolerance.specs.Ticks.{IsOwnTick, IsTick};
ghost use Rattle.sim_base.specs.DrawnTicks.{any_tick, next_tick, own_tick, own_ticks, pause_ticks};
ghost use Rattle.sim_base.specs.Wobbles.{behind_word, past, word, words};

use crate::wobble::Wobble;
use arrayvec::ArrayVec;

/// The tick in ps of the frame behind one of this tick, at a nominal tick in ns.
#[tactic(auto, unfolding(crate::specs::DrawnTicks::next_tick))]
pub fn next_tick(nominal: u32, tick: u64, wobble: &mut Wobble) -> u64
    requires { IsTick nominal tick }
    ensures value { result ≡ next_tick nominal tick (word wobble.old) }
    ensures next { wobble.new ≡ behind_word wobble.old }
    ensures range { IsTick nominal result }
{
    let nominal = u64::from(nominal);
    let most = tick / 200;
    let drifted = tick + wobble.pick(2 * most + 1) - most;
    drifted.min(1_200 * nominal).max(800 * nominal)
}

/// The own tick in ps of a pulse, in a frame of this tick.
#[tactic(auto, unfolding(crate::specs::DrawnTicks::own_tick))]
pub fn own_tick(tick: u64, wobble: &mut Wobble) -> u64
    requires { tick < 2 ^ 40 }
    ensures value { result ≡ own_tick tick (word wobble.old) }
    ensures next { wobble.new ≡ behind_word wobble.old }
    ensures range { IsOwnTick tick result }
{
    let most = tick / 400;
    tick + wobble.pick(2 * most + 1) - most
}

/// The length of a pause in ticks, 12 to 768.
#[tactic(auto, unfolding(crate::specs::DrawnTicks::pause_ticks))]
pub fn pause_ticks(wobble: &mut Wobble) -> u16
    ensures value { result ≡ pause_ticks (word wobble.old) }
    ensures next { wobble.new ≡ behind_word wobble.old }
    ensures least { 12 ≤ result }
    ensures most { result ≤ 768 }
{
    12 + wobble.pick(757) as u16
}

/// Adds the falls that end pulses of so many ticks behind a fall at this time, in a frame of this tick; each
/// pulse has a tick of its own. Gives the time of the last fall.
pub fn push_pulses<const N: usize>(
    falls: &mut ArrayVec<u64, N>,
    start: u64,
    counts: &[u16],
    tick: u64,
    wobble: &mut Wobble,
) -> u64
    requires room { array_vec_len falls.old + length counts.now ≤ N }
    requires few { length counts.now ≤ 2 ^ 4 }
    requires start { start < 2 ^ 62 }
    requires tick { tick < 2 ^ 40 }
    ensures falls { falls.new.items ≡ falls.old.items ++ falls_behind start (lengths_of counts.now (own_ticks tick (words (length counts.now) wobble.old))) }
    ensures last { result ≡ start + sum (lengths_of counts.now (own_ticks tick (words (length counts.now) wobble.old))) }
    ensures next { wobble.new ≡ past (length counts.now) wobble.old }
{
    let mut time = start;
    for count in counts {
        time += u64::from(*count) * own_tick(tick, wobble);
        falls.push(time);
    }
    time
}

/// Any tick in ps of 4/5 to 6/5 of the nominal one in ns.
#[tactic(auto, unfolding(crate::specs::DrawnTicks::any_tick))]
pub fn any_tick(nominal: u32, wobble: &mut Wobble) -> u64
    ensures value { result ≡ any_tick nominal (word wobble.old) }
    ensures next { wobble.new ≡ behind_word wobble.old }
    ensures range { IsTick nominal result }
{
    let nominal = u64::from(nominal);
    800 * nominal + wobble.pick(400 * nominal + 1)
}
