//! The thresholds of a trigger: the quiet time before it, its width, and the delay behind it.
ghost use Rattle.std.specs.Prelude.{◌≡◌, ◌^◌, ◌<◌, ◌≤◌, IfSome, IsTrue, Some, ℕ, length, get_or, position};
ghost use Rattle.line_base.specs.Spans.{no_span};
ghost use Rattle.spc_link.specs.Reading.{code_of, is_after_quiet, lasts};

use crate::setup::SpcSetup;
use line_base::{Edge, Span};

/// Whether so many ns lie in a span of tenths of a tick of so many ns, both ends included.
fn lasts(tick: u32, span: Span, length: u64) -> bool
    requires { length ≤ 10 ^ 15 }
    ensures { result ≡ lasts tick span length }
{
    let tick = u64::from(tick);
    let tenths = 10 * length;
    u64::from(span.low) * tick <= tenths && tenths <= u64::from(span.high) * tick
}

/// Whether an edge is a fall, the quiet time or more behind the edge before it, which was at this time in ns.
pub fn is_after_quiet(setup: &SpcSetup, before: u64, edge: Edge) -> bool
    requires { edge.time ≤ 10 ^ 15 }
    ensures { result ≡ is_after_quiet setup.now before edge }
{
    let quiet = u64::from(setup.quiet()) * u64::from(setup.sent().tick());
    !edge.level && quiet <= 10 * edge.time.saturating_sub(before)
}

/// The number of the first of these windows that so many ns are in, counted from 0.
fn window_of(tick: u32, windows: &[Span], width: u64) -> Option<usize>
    requires { width ≤ 10 ^ 15 }
    ensures number { result ≡ position (λ window. lasts tick window width) windows.now }
    ensures there { IfSome result (λ code. code < length windows.now) }
{
    windows
        .iter()
        .position(|window| lasts(tick, *window, width))
}

/// The code, 0 to 7, of the window that a trigger of so many ns is in, or `None` where it is in none.
pub fn code_of(setup: &SpcSetup, width: u64) -> Option<u8>
    requires { width ≤ 10 ^ 15 }
    ensures { result ≡ code_of setup.now width }
{
    let tick = setup.sent().tick();
    let windows = setup.windows();
    match window_of(tick, windows, width) {
        Some(code) => Some(code as u8),
        None => None,
    }
}

/// Whether an answer may begin so many ns behind a trigger's rise.
pub fn is_in_delay(setup: &SpcSetup, distance: u64) -> bool
    requires { distance ≤ 10 ^ 15 }
    ensures { result ≡ lasts setup.now.sent.tick setup.now.delay distance }
{
    lasts(setup.sent().tick(), setup.delay(), distance)
}

/// The window of a code below the number of windows: the widths of a trigger that asks for it, in tenths of the
/// nominal tick, both ends included.
pub fn trigger_of(setup: &SpcSetup, code: u8) -> Span
    requires { code < length setup.now.windows }
    ensures window { result ≡ get_or setup.now.windows code no_span }
    // A width in it asks for this code.
    ensures asks { (width : ℕ) → 1 ≤ setup.now.sent.tick → IsTrue (lasts setup.now.sent.tick result width) → code_of setup.now width ≡ Some code }
{
    setup.windows()[usize::from(code)]
}
