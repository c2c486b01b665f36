//! What the slots of a PSI5 sync period are set up with.
ghost use Rattle.std.specs.Prelude.{◌≡◌, ◌≤◌, None, Some, IfOk, IfErr, OnOk, length};
ghost use Rattle.psi5_slots.specs.Setup.{InRange, are_apart, are_slots, fault_of, is_apart, is_long, last_high};

use line_base::{SetupFault, Span, Spans};
use psi5_frame::Psi5Setup;
use std::marker::Model;

/// The greatest offset of a window, in ns: this project's own limit.
const MAX_OFFSET: u32 = 10_000_000;

/// What the slots of a sync period are set up with. Contracts see the windows and the frame.
#[derive(Clone, Copy, Debug, PartialEq, Eq)]
pub struct SlotSetup {
    windows: Spans,
    frame: Psi5Setup,
}

impl Model for SlotSetup {
    ghost use Rattle.psi5_slots.specs.Setup.{Settings, InRange};

    ghost Value = { Settings };

    ghost view = { λ s. record { windows = s.windows; frame = s.frame } };

    ghost invariant = { λ s. InRange s.windows s.frame };

    ghost inverse = { λ v. record { windows = v.windows; frame = v.frame } };
}

/// Whether a window is at least a bit time long.
fn is_long(frame: &Psi5Setup, window: Span) -> bool
    ensures { result ≡ is_long frame.now window }
{
    u64::from(window.low) + u64::from(frame.bit()) <= u64::from(window.high)
}

/// Whether a window begins behind the one before it, by at least 21/20 of the time of a frame and one bit.
fn is_apart(frame: &Psi5Setup, before: Span, window: Span) -> bool
    ensures { result ≡ is_apart frame.now before window }
{
    if window.low <= before.high {
        return false;
    }
    let bits = u64::from(frame.bit_count()) + 1;
    21 * bits * u64::from(frame.bit()) <= 20 * u64::from(window.low - before.high)
}

/// Whether each of these windows is long and lies apart from the one before it, the first from `before`.
fn are_apart(frame: &Psi5Setup, before: Span, windows: &[Span]) -> bool
    ensures { result ≡ are_apart frame.now before windows.now }
{
    let mut last = before;
    let mut rest = windows;
    'windows: while let Some((window, others)) = rest.split_first() {
        if !is_apart(frame, last, *window) || !is_long(frame, *window) {
            return false;
        }
        last = *window;
        rest = others;
    }
    true
}

/// The greatest offset in ns of the last of these windows, or `high` where there is none.
pub fn last_high(high: u32, windows: &[Span]) -> u32
    ensures { result ≡ last_high high windows.now }
{
    let mut last = high;
    let mut rest = windows;
    'windows: while let Some((window, others)) = rest.split_first() {
        last = window.high;
        rest = others;
    }
    last
}

/// Whether these windows are slots of a line with such frames.
fn are_slots(windows: &[Span], frame: &Psi5Setup) -> bool
    ensures { result ≡ are_slots windows.now frame.now }
{
    match windows.split_first() {
        None => false,
        Some((first, others)) => {
            others.len() < 8
                && 4 * frame.bit() <= first.low
                && is_long(frame, *first)
                && are_apart(frame, *first, others)
                && last_high(first.high, others) <= MAX_OFFSET
        }
    }
}

impl SlotSetup {
    /// A setup of these windows for the offset of a burst's first edge from the last sync pulse, in ns, on a
    /// data line with such frames; or `Slots`, where they are refused. There are 1 to 8 windows. The first
    /// begins at 4 bit times or later, each is at least a bit time long, each begins behind the one before by
    /// at least 21/20 of the time of a frame and one bit more, and the last ends at 10,000,000 ns or earlier.
    pub fn new(windows: &[Span], frame: &Psi5Setup) -> Result<SlotSetup, SetupFault>
        ensures accepted { OnOk result (fault_of windows.now frame.now ≡ None) }
        ensures values { IfOk result (λ setup. setup ≡ record { windows = windows.now; frame = frame.now }) }
        ensures first_fault { IfErr result (λ fault. fault_of windows.now frame.now ≡ Some fault) }
    {
        if !are_slots(windows, frame) {
            return Err(SetupFault::Slots);
        }
        let Some(kept) = Spans::new(windows) else {
            return Err(SetupFault::Slots);
        };
        Ok(SlotSetup {
            windows: kept,
            frame: *frame,
        })
    }

    /// The windows, 1 to 8, each the least and the greatest offset in ns.
    pub fn windows(&self) -> &[Span]
        ensures value { result.now ≡ self.now.windows }
        ensures range { InRange self.now.windows self.now.frame }
        ensures few { length result.now ≤ 8 }
    {
        self.windows.as_slice()
    }

    /// What the data line is set up with.
    pub fn frame(&self) -> Psi5Setup
        ensures value { result ≡ self.now.frame }
        ensures range { InRange self.now.windows self.now.frame }
    {
        self.frame
    }
}
