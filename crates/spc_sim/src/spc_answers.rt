//! The times of an SPC transaction, in ps.
ghost use Rattle.std.specs.Prelude.{◌≡◌, ◌+◌, ◌*◌, ◌^◌, ◌<◌, ◌≤◌, All, length, ℕ};
ghost use Rattle.arrayvec.specs.ArrayVec.{array_vec_len};
ghost use Rattle.sent_frame.specs.Reading.{covered, crc_of};
ghost use Rattle.spc_tolerance.specs.Trains.{Trigger, ticks_in};
ghost use Rattle.sim_base.specs.DrawnTicks.{any_tick};
ghost use Rattle.spc_sim.specs.SpcSims.{IsDrawnAnswer, answer_sent, answer_words, inside, past_answer, past_trigger, trigger_sent, trigger_words};
ghost use Rattle.sim_base.specs.Wobbles.{behind_word, word};

use arrayvec::ArrayVec;
use line_base::Span;
use link_math::{CALIBRATION_TICKS, crc4, crc4_legacy};
use sent_frame::{Cover, CrcForm, SentFrame};
use sim_base::{Wobble, any_tick, push_pulses};
use spc_link::{SpcSetup, trigger_of};

/// The ticks of a nibble pulse that carries 0 (SAE J2716).
const NIBBLE_TICKS: u16 = 12;

/// How many falls an answer has at most: one at its start, and one for each of nine pulses.
const MAX_FALLS: usize = 10;

/// A trigger that is drawn, all in ps.
#[derive(Clone, Copy)]
pub struct DrawnTrigger {
    /// The tick of an answer to it.
    pub tick: u64,
    /// When its rise is ideal.
    pub rise: u64,
}

/// An answer that is drawn, all in ps.
#[derive(Drop)]
pub struct DrawnAnswer {
    /// When its falls are ideal.
    pub falls: ArrayVec<u64, MAX_FALLS>,
    /// The last of them.
    pub last: u64,
}

/// A time in ps in a span of tenths of the nominal tick, twice the jitter inside each end.
#[tactic(auto, unfolding(crate::specs::SpcSims::inside))]
fn inside(setup: &SpcSetup, span: Span, wobble: &mut Wobble) -> u64
    requires { span.low + 10 ≤ span.high }
    ensures value { result ≡ inside setup.now span (word wobble.old) }
    ensures next { wobble.new ≡ behind_word wobble.old }
    ensures least { 1000 ≤ result }
    ensures most { result ≤ 2 ^ 56 }
{
    let tick = u64::from(setup.sent().tick());
    let jitter = u64::from(setup.sent().jitter());
    let low = u64::from(span.low);
    let high = u64::from(span.high);
    100 * tick * low + 2_000 * jitter + wobble.pick(100 * tick * (high - low) - 4_000 * jitter + 1)
}

/// The CRC nibble of an answer's frame, over what the setup covers.
fn check_of(setup: &SpcSetup, frame: &SentFrame) -> u8
    requires { frame.now.status < 16 }
    ensures value { result ≡ crc_of setup.now.sent.crc (covered setup.now.cover frame.now.status frame.now.nibbles) }
    ensures is_nibble { result < 16 }
{
    let mut values: ArrayVec<u8, 7> = ArrayVec::new();
    match setup.cover() {
        Cover::Nibbles => {}
        Cover::Status => values.push(frame.status),
    }
    let _ = values.try_extend_from_slice(frame.nibbles.values());
    match setup.sent().crc() {
        CrcForm::New => crc4(values.as_slice()),
        CrcForm::Legacy => crc4_legacy(values.as_slice()),
    }
}

/// The ticks of an answer's pulses: the calibration pulse, the status, each data nibble and the CRC.
fn counts_of(setup: &SpcSetup, frame: &SentFrame) -> ArrayVec<u16, 9>
    requires as_many { length frame.now.nibbles ≡ setup.now.sent.nibbles }
    requires status { frame.now.status < 16 }
    ensures ticks { result.items ≡ ticks_in setup.now frame.now }
    ensures few { array_vec_len result ≤ 9 }
{
    let mut counts = ArrayVec::new();
    counts.push(CALIBRATION_TICKS as u16);
    counts.push(NIBBLE_TICKS + u16::from(frame.status));
    for nibble in frame.nibbles.values() {
        counts.push(NIBBLE_TICKS + u16::from(*nibble));
    }
    counts.push(NIBBLE_TICKS + u16::from(check_of(setup, frame)));
    counts
}

/// The trigger of a code, which falls at this time in ps.
pub fn draw_trigger(setup: &SpcSetup, fall: u64, code: u8, wobble: &mut Wobble) -> DrawnTrigger
    requires code { code < length setup.now.windows }
    requires in_time { fall ≤ 10 ^ 18 }
    ensures tick { result.tick ≡ any_tick setup.now.sent.tick (trigger_words wobble.old).tick }
    ensures rise { result.rise ≡ (trigger_sent setup.now fall code (trigger_words wobble.old)).rise }
    ensures next { wobble.new ≡ past_trigger wobble.old }
    ensures small { result.tick < 2 ^ 40 }
    ensures behind { fall ≤ result.rise }
    ensures in_time { result.rise ≤ 10 ^ 18 + 2 ^ 56 }
{
    let tick = any_tick(setup.sent().tick(), wobble);
    let rise = fall + inside(setup, trigger_of(setup, code), wobble);
    DrawnTrigger { tick, rise }
}

/// An answer of this tick behind a trigger that rises at this time in ps.
pub fn draw_answer(
    setup: &SpcSetup,
    rise: u64,
    frame: &SentFrame,
    tick: u64,
    wobble: &mut Wobble,
) -> DrawnAnswer
    requires as_many { length frame.now.nibbles ≡ setup.now.sent.nibbles }
    requires status { frame.now.status < 16 }
    requires tick { tick < 2 ^ 40 }
    requires in_time { rise ≤ 10 ^ 18 + 2 ^ 56 }
    ensures drawn { (trigger : Trigger) (word : ℕ) → trigger.rise ≡ rise → any_tick setup.now.sent.tick word ≡ tick
        → IsDrawnAnswer setup.now (answer_sent setup.now trigger frame.now word (answer_words setup.now wobble.old)) result.falls.items result.last }
    ensures next { wobble.new ≡ past_answer setup.now wobble.old }
    ensures in_time { All (λ fall. (rise ≤ fall) × (fall ≤ result.last)) result.falls.items }
    ensures behind { rise ≤ result.last }
{
    let start = rise + inside(setup, setup.delay(), wobble);
    let counts = counts_of(setup, frame);
    let mut falls = ArrayVec::new();
    falls.push(start);
    let calibrated = start + CALIBRATION_TICKS * tick;
    falls.push(calibrated);
    let last = push_pulses(&mut falls, calibrated, &counts[1..], tick, wobble);
    DrawnAnswer { falls, last }
}
