//! SENT pulses, from falling edge to falling edge (SAE J2716).
//!
//! A frame opens with a calibration pulse of 56 ticks. A nibble takes 12 ticks and one more for each unit
//! of its value, a pause pulse 12 to 768. Pulses are measured in half ticks: the calibration pulse has
//! 112. All thresholds, for jitter and for drift, are this project's own.

ghost use Rattle.std.specs.Prelude.{ℕ, ◌≡◌, ◌^◌, ◌≤◌, IfNone, IfSome};
ghost use Rattle.link_math.specs.Sent.{Carries, is_calibration, is_pause, is_steady, value_of};

/// The length of a calibration pulse in ticks (SAE J2716).
pub const CALIBRATION_TICKS: u64 = 56;

/// Whether a pulse of `pulse` ns, 0 to 10^15, may be a calibration pulse at a nominal tick of `tick` ns:
/// 56 ticks give or take a fifth (SAE J2716), and up to `jitter` ns on each of its two edges (this project's
/// own).
pub fn window(pulse: u64, tick: u32, jitter: u32) -> bool
    requires { pulse ≤ 10 ^ 15 }
    ensures { result ≡ is_calibration pulse tick jitter }
{
    let nominal = CALIBRATION_TICKS * u64::from(tick);
    let slack = 10 * u64::from(jitter);
    4 * nominal <= 5 * pulse + slack && 5 * pulse <= 6 * nominal + slack
}

/// The nibble, 0 to 15, that a pulse of `pulse` ns, 0 to 10^15, carries after a calibration pulse of
/// `calibration` ns, 1 to 10^15: the pulse has 12 ticks and the nibble's value (SAE J2716), to the nearest
/// tick (this project's own). `None` where that is no nibble.
#[tactic(auto, using(crate::proofs::Nibbles::too_few, crate::proofs::Nibbles::in_range, crate::proofs::Nibbles::too_many))]
pub fn nibble_of(pulse: u64, calibration: u64) -> Option<u8>
    requires pulse_in_range { pulse ≤ 10 ^ 15 }
    requires some_calibration { 1 ≤ calibration }
    requires calibration_in_range { calibration ≤ 10 ^ 15 }
    ensures value { result ≡ value_of pulse calibration }
    ensures carried { IfSome result (Carries pulse calibration) }
    ensures none { IfNone result ((v : ℕ) → Carries pulse calibration v → ⊥) }
{
    // The nibble 0 has 24 half ticks, and takes those from 23 to below 25.
    let half_ticks = 2 * CALIBRATION_TICKS * pulse / calibration;
    if half_ticks < 23 {
        return None;
    }
    let value = (half_ticks - 23) / 2;
    if value < 16 { Some(value as u8) } else { None }
}

/// Whether the calibration pulses of two frames in a row, of `earlier` and `later` ns, each 0 to 10^15,
/// differ by at most a 64th (SAE J2716) of the earlier (this project's own reading).
pub fn steady(earlier: u64, later: u64) -> bool
    requires earlier_in_range { earlier ≤ 10 ^ 15 }
    requires later_in_range { later ≤ 10 ^ 15 }
    ensures { result ≡ is_steady earlier later }
{
    64 * later <= 65 * earlier && 63 * earlier <= 64 * later
}

/// Whether a pulse of `pulse` ns may be a pause pulse after a calibration pulse of `calibration` ns, each 0
/// to 10^15: 12 to 768 ticks (SAE J2716), with half a tick below and 6 ticks above for jitter and for drift
/// within the pulse (this project's own).
pub fn pause_fits(pulse: u64, calibration: u64) -> bool
    requires pulse_in_range { pulse ≤ 10 ^ 15 }
    requires calibration_in_range { calibration ≤ 10 ^ 15 }
    ensures { result ≡ is_pause pulse calibration }
{
    23 * calibration <= 112 * pulse && 112 * pulse <= 1548 * calibration
}
