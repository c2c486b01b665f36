//! What an SPC channel is set up with.
ghost use Rattle.std.specs.Prelude.{◌≡◌, ◌≤◌, None, Some, IfOk, IfErr, OnOk, length};
ghost use Rattle.spc_link.specs.Setup.{are_apart, are_windows, fault_of, is_behind, is_wide};

use line_base::{SetupFault, Span, Spans};
use sent_frame::{Cover, SentSetup};
use std::marker::Model;

/// How many windows there are at most.
const MAX_WINDOWS: usize = 8;

/// The greatest end of a window, in tenths of the nominal tick.
const MAX_HIGH: u32 = 2_000;

/// What an SPC channel is set up with. Contracts see the frame of an answer, the list of windows, the delay, the
/// quiet time and what the CRC covers.
#[derive(Clone, Copy, Debug, PartialEq, Eq)]
pub struct SpcSetup {
    sent: SentSetup,
    windows: Spans,
    delay: Span,
    quiet: u32,
    cover: Cover,
}

impl Model for SpcSetup {
    ghost use Rattle.std.specs.Prelude.{◌≡◌, None};
    ghost use Rattle.spc_link.specs.Setup.{Settings, fault_of};

    ghost Value = { Settings };

    ghost view = { λ s. record { sent = s.sent; windows = s.windows; delay = s.delay; quiet = s.quiet; cover = s.cover } };

    ghost invariant = { λ s. fault_of s.sent s.windows s.delay s.quiet ≡ None };

    ghost inverse = { λ v. record { sent = v.sent; windows = v.windows; delay = v.delay; quiet = v.quiet; cover = v.cover } };
}

/// Whether a span begins at a tick or later, and is a tick wide or wider.
fn is_wide(span: Span) -> bool
    ensures { result ≡ is_wide span }
{
    span.low >= 10 && u64::from(span.high) >= u64::from(span.low) + 10
}

/// Whether a span is wide enough, and begins above this end.
fn is_behind(before: u32, span: Span) -> bool
    ensures { result ≡ is_behind before span }
{
    span.low > before && is_wide(span)
}

/// Whether each window, behind one that ends here, begins above the end of the one before and is wide enough, and
/// the last one ends at 2,000 or below.
#[tactic(auto, unfolding(crate::specs::Setup::are_apart))]
fn are_apart(before: u32, windows: &[Span]) -> bool
    ensures { result ≡ are_apart before windows.now }
{
    match windows.split_first() {
        None => before <= MAX_HIGH,
        Some((window, others)) => is_behind(before, *window) && are_apart(window.high, others),
    }
}

/// Whether these are 1 to 8 windows that are wide enough, apart, and in their order.
fn are_windows(windows: &[Span]) -> bool
    ensures { result ≡ are_windows windows.now }
{
    !windows.is_empty() && windows.len() <= MAX_WINDOWS && are_apart(0, windows)
}

impl SpcSetup {
    /// A setup of these values: the frame of an answer, without a pause; 1 to 8 windows, each from 10 and at least
    /// 10 wide, each above the one before, to 2,000 at most; the delay, from 10 and at least 10 wide; the quiet time,
    /// 700 to 10,000 and above the delay; what the CRC covers. Windows, delay and quiet time are in tenths of the
    /// nominal tick. Else the first of `Pause`, `Windows`, `Delay` and `Quiet` that is refused.
    pub fn new(
        sent: SentSetup,
        windows: &[Span],
        delay: Span,
        quiet: u32,
        cover: Cover,
    ) -> Result<SpcSetup, SetupFault>
        ensures accepted { OnOk result (fault_of sent windows.now delay quiet ≡ None) }
        ensures values { IfOk result (λ setup. setup ≡ record { sent = sent; windows = windows.now; delay = delay; quiet = quiet; cover = cover }) }
        ensures first_fault { IfErr result (λ fault. fault_of sent windows.now delay quiet ≡ Some fault) }
    {
        if sent.pause() {
            return Err(SetupFault::Pause);
        }
        if !are_windows(windows) {
            return Err(SetupFault::Windows);
        }
        if !is_wide(delay) {
            return Err(SetupFault::Delay);
        }
        if quiet < 700 || quiet > 10_000 || quiet <= delay.high {
            return Err(SetupFault::Quiet);
        }
        let Some(windows) = Spans::new(windows) else {
            return Err(SetupFault::Windows);
        };
        Ok(SpcSetup {
            sent,
            windows,
            delay,
            quiet,
            cover,
        })
    }

    /// The frame of an answer, which has no pause.
    pub fn sent(&self) -> SentSetup
        ensures value { result ≡ self.now.sent }
        ensures range { fault_of self.now.sent self.now.windows self.now.delay self.now.quiet ≡ None }
    {
        self.sent
    }

    /// The trigger windows, 1 to 8, in tenths of the nominal tick, in rising order.
    pub fn windows(&self) -> &[Span]
        ensures value { result.now ≡ self.now.windows }
        ensures few { length result.now ≤ 8 }
        ensures range { fault_of self.now.sent self.now.windows self.now.delay self.now.quiet ≡ None }
    {
        self.windows.as_slice()
    }

    /// The delay between a trigger's rise and its answer, in tenths of the nominal tick.
    pub fn delay(&self) -> Span
        ensures value { result ≡ self.now.delay }
        ensures range { fault_of self.now.sent self.now.windows self.now.delay self.now.quiet ≡ None }
    {
        self.delay
    }

    /// The quiet time before a trigger, 700 to 10,000 tenths of the nominal tick.
    pub fn quiet(&self) -> u32
        ensures value { result ≡ self.now.quiet }
        ensures range { fault_of self.now.sent self.now.windows self.now.delay self.now.quiet ≡ None }
    {
        self.quiet
    }

    /// What the CRC of an answer covers.
    pub fn cover(&self) -> Cover
        ensures value { result ≡ self.now.cover }
        ensures range { fault_of self.now.sent self.now.windows self.now.delay self.now.quiet ≡ None }
    {
        self.cover
    }
}
