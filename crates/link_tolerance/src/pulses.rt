//! What is heard of the pulses that a sensor sends, and what the thresholds make of it.
//!
//! The jitter is 1 ns to a tenth of the nominal tick, as a setup of a link has it.
ghost use Rattle.std.specs.Prelude.{◌≡◌, ℕ, ◌+◌, ◌-◌, ◌*◌, ◌<◌, ◌≤◌, Some, true, false};
ghost use Rattle.link_math.specs.Sent.{Carries, is_calibration, is_pause, is_steady, value_of};
ghost use Rattle.link_tolerance.specs.Recorded.{IsHeard, IsRecorded};
ghost use Rattle.link_tolerance.specs.Ticks.{FollowsTick, IsOwnTick, IsTick};

/// Does nothing; its contract is a law. The time between two recorded edges is off from the ideal time between
/// them by at most the jitter of both.
pub fn edges_end_pulses()
    ensures { (jitter ideal length first last : ℕ) → IsRecorded jitter ideal first → IsRecorded jitter (ideal + length) last → IsHeard jitter length (last - first) }
{}

/// Does nothing; its contract is a law. A calibration pulse of 56 ticks is heard as one.
pub fn calibrations_are_heard()
    ensures { (nominal jitter tick heard : ℕ) → IsTick nominal tick → IsHeard jitter (56 * tick) heard → is_calibration heard nominal jitter ≡ true }
{}

/// Does nothing; its contract is a law. A pulse of 12 ticks and a nibble carries this nibble, and no other,
/// after the calibration pulse of its frame; each is heard with jitter, and the pulse has an own tick.
pub fn nibbles_are_heard()
    ensures carried { (nominal jitter tick own value calibration heard : ℕ) → 1 ≤ jitter → 10 * jitter ≤ nominal
        → IsTick nominal tick → IsOwnTick tick own → value < 16
        → IsHeard jitter (56 * tick) calibration → IsHeard jitter ((12 + value) * own) heard → Carries heard calibration value }
    ensures value { (nominal jitter tick own value calibration heard : ℕ) → 1 ≤ jitter → 10 * jitter ≤ nominal
        → IsTick nominal tick → IsOwnTick tick own → value < 16
        → IsHeard jitter (56 * tick) calibration → IsHeard jitter ((12 + value) * own) heard → value_of heard calibration ≡ Some value }
{}

/// Does nothing; its contract is a law. A pulse of 12 ticks and a nibble is never heard as a calibration pulse.
pub fn nibbles_never_calibrate()
    ensures { (nominal jitter tick own value heard : ℕ) → 1 ≤ jitter → 10 * jitter ≤ nominal
        → IsTick nominal tick → IsOwnTick tick own → value < 16
        → IsHeard jitter ((12 + value) * own) heard → is_calibration heard nominal jitter ≡ false }
{}

/// Does nothing; its contract is a law. The calibration pulses of two frames in a row are heard as steady, where
/// the tick of the later one may follow that of the earlier.
pub fn drifting_calibrations_are_steady()
    ensures { (nominal jitter before tick earlier later : ℕ) → 10 * jitter ≤ nominal
        → IsTick nominal before → FollowsTick before tick
        → IsHeard jitter (56 * before) earlier → IsHeard jitter (56 * tick) later → is_steady earlier later ≡ true }
{}

/// Does nothing; its contract is a law. A pause of 12 to 768 ticks is heard as one after the calibration pulse
/// of its frame; each is heard with jitter, and the pause has an own tick.
pub fn pauses_are_heard()
    ensures { (nominal jitter tick own count calibration heard : ℕ) → 10 * jitter ≤ nominal
        → IsTick nominal tick → IsOwnTick tick own → 12 ≤ count → count ≤ 768
        → IsHeard jitter (56 * tick) calibration → IsHeard jitter (count * own) heard → is_pause heard calibration ≡ true }
{}
