//! A burst that isn't complete yet.
ghost use Rattle.std.specs.Prelude.{◌≡◌, ◌%◌, ◌+◌, ◌*◌, ◌≤◌, ◌++◌, [], ◌∷◌, List, false};
ghost use Rattle.psi5_frame.specs.Intervals as intervals;
ghost use Rattle.psi5_frame.specs.Setup.{bit_count};
ghost use Rattle.psi5_frame.specs.Edges.{Change};
ghost use Rattle.psi5_frame.specs.Bursts.{fault_at, judged};
ghost use Rattle.psi5_frame.specs.Kept.{Agrees, IsOpenBurst};

use crate::burst::Burst;
use crate::check::checked_frame;
use crate::frame_bits::FrameBits;
use crate::setup::Psi5Setup;
use line_base::Rule;
use link_math::Halves;

/// What is kept of a burst that isn't complete yet.
#[derive(Clone, Copy, Debug, PartialEq, Eq)]
pub enum OpenBurst {
    /// No edge violates a rule so far.
    Sound {
        /// The number of the last edge.
        number: u64,
        /// The level after it.
        level: bool,
        /// Its place, in half-bits from the frame's start: an odd one is the middle of a bit, an even one the
        /// boundary of two.
        place: u8,
        /// The bits that the edges say, one for each middle of a bit.
        bits: FrameBits,
    },
    /// An edge violates a rule.
    Violated {
        /// The number of the first such edge.
        place: u64,
        /// The first rule that it violates.
        rule: Rule,
    },
}

/// What is kept of a burst after its first edge, which has to be a rise.
pub fn begun(count: u8, number: u64, level: bool) -> OpenBurst
    requires { 13 ≤ count }
    ensures valid { IsOpenBurst count result }
    ensures agrees { (interval : Halves) → Agrees count result (record { number = number; level = level; interval = interval }) [] }
{
    if !level {
        let rule = Rule::FirstFall;
        return OpenBurst::Violated {
            place: number,
            rule,
        };
    }
    let mut bits = FrameBits::new();
    bits.push(false);
    OpenBurst::Sound {
        number,
        level,
        place: 1,
        bits,
    }
}

/// How many half-bits an interval within a burst is.
#[inline]
fn half_bits(interval: Halves) -> u8
    ensures value { result ≡ intervals.half_bits interval }
    ensures few { result ≤ 2 }
{
    match interval {
        Halves::One => 1,
        Halves::Two => 2,
        Halves::Short | Halves::Quiet => 0,
    }
}

/// The rule that an edge violates in a frame of `count` bits, 13 to 33, where the edge before it is at this
/// place.
#[inline]
fn fault(count: u8, before: u8, interval: Halves, level: bool) -> Option<Rule>
    requires count { count ≤ 33 }
    requires before { before ≤ 66 }
    ensures { result ≡ fault_at count before interval level }
{
    let place = before + half_bits(interval);
    let end = 2 * count;
    if interval == Halves::Short {
        Some(Rule::TooShort)
    } else if interval == Halves::Two && before % 2 == 0 {
        Some(Rule::Phase)
    } else if place == 3 && !level {
        Some(Rule::StartBit)
    } else if end < place || (place == end && level) {
        Some(Rule::TooLong)
    } else {
        None
    }
}

/// Takes the next edge of a burst into what is kept of it, in a frame of `count` bits.
#[inline]
pub fn extend(count: u8, burst: &mut OpenBurst, number: u64, interval: Halves, level: bool)
    requires some { 13 ≤ count }
    requires few { count ≤ 33 }
    requires loud { intervals.is_quiet interval ≡ false }
    requires valid { IsOpenBurst count burst.old }
    ensures valid { IsOpenBurst count burst.new }
    ensures agrees { (first : Change) (later : List Change) → Agrees count burst.old first later
        → Agrees count burst.new first (later ++ record { number = number; level = level; interval = interval } ∷ []) }
{
    let OpenBurst::Sound {
        number: last,
        level: high,
        place,
        bits,
    } = burst
    else {
        return;
    };
    if let Some(rule) = fault(count, *place, interval, level) {
        *burst = OpenBurst::Violated {
            place: number,
            rule,
        };
        return;
    }
    *place += half_bits(interval);
    *last = number;
    *high = level;
    if *place % 2 == 1 {
        bits.push(!level);
    }
}

/// What a burst says that is complete.
pub fn concluded(setup: &Psi5Setup, burst: &OpenBurst) -> Burst
    requires valid { IsOpenBurst (bit_count setup.now) burst.now }
    ensures { (first : Change) (later : List Change) → Agrees (bit_count setup.now) burst.now first later → result ≡ judged setup.now first later }
{
    let (place, level, last, bits) = match burst {
        OpenBurst::Violated { place, rule } => {
            return Burst::Bad {
                place: *place,
                rule: *rule,
            };
        }
        OpenBurst::Sound {
            number,
            level,
            place,
            bits,
        } => (*number, *level, *place, bits),
    };
    if last < 2 * setup.bit_count() - 1 {
        let rule = Rule::TooFew;
        return Burst::Bad { place, rule };
    }
    if level {
        let rule = Rule::EndsHigh;
        return Burst::Bad { place, rule };
    }
    checked_frame(setup, place, &bits.as_slice()[2..])
}
