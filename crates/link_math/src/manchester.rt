//! Intervals between the edges of a PSI5 data line, in half-bits (the Manchester code: PSI5 V2.1, base
//! standard).
//!
//! A bit is two half-bits with a change between them, so within a frame two edges are one or two half-bits
//! apart. The thresholds are this project's own: each is half a half-bit off.

ghost use Rattle.std.specs.Prelude.{◌≡◌, ◌^◌, ◌≤◌};
ghost use Rattle.link_math.specs.Manchester.{CountsAs, halves_in};

/// How many half-bits an interval is.
#[derive(Clone, Copy, Debug, PartialEq, Eq)]
pub enum Halves {
    /// Less than half of one: below a quarter of a bit.
    Short,
    /// One, to the nearest: from a quarter of a bit to below three quarters.
    One,
    /// Two, to the nearest: from three quarters of a bit to below five quarters.
    Two,
    /// Two and a half or more: no frame goes on over it.
    Quiet,
}

/// How many half-bits an interval of `interval` ns, 0 to 10^15, is at a nominal bit time of `bit` ns.
#[inline]
pub fn halves_of(interval: u64, bit: u32) -> Halves
    requires { interval ≤ 10 ^ 15 }
    ensures value { result ≡ halves_in interval bit }
    ensures counted { CountsAs interval bit result }
{
    let quarters = 4 * interval;
    let bit = u64::from(bit);
    if quarters < bit {
        Halves::Short
    } else if quarters < 3 * bit {
        Halves::One
    } else if quarters < 5 * bit {
        Halves::Two
    } else {
        Halves::Quiet
    }
}
