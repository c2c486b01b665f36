//! Distances between the pulses of a sync line, in sync periods (the tooth-gap downlink: PSI5 V2.1, base
//! standard).
//!
//! A pulse that is missing makes the distance one period longer. The thresholds are this project's own: each is
//! half a period off.

ghost use Rattle.std.specs.Prelude.{◌≡◌, ◌^◌, ◌≤◌};
ghost use Rattle.link_math.specs.Periods.{periods_in};

/// The greatest number of periods that is told apart: five or more pulses are missing.
const MOST: u64 = 6;

/// How many sync periods a distance of `distance` ns, 0 to 10^15, counts as at a nominal sync period of `period`
/// ns, at least 1: to the nearest, half a period counting as one, and six where there are six or more.
#[tactic(auto, using(crate::proofs::Periods::rounded, crate::proofs::Periods::most))]
pub fn periods_of(distance: u64, period: u32) -> u8
    requires in_range { distance ≤ 10 ^ 15 }
    requires some_period { 1 ≤ period }
    ensures value { result ≡ periods_in distance period }
    ensures few { result ≤ 6 }
{
    let period = u64::from(period);
    let periods = (2 * distance + period) / (2 * period);
    if periods < MOST {
        periods as u8
    } else {
        MOST as u8
    }
}
