//! Times in seconds, and levels.
ghost use Rattle.std.specs.Prelude.{◌≡◌, ◌≤◌, Some, None, option_map, replicate};
ghost use Rattle.line_base.specs.Texts.{capped, number_after};
ghost use Rattle.edge_trace.specs.Fields.{seconds_at, seconds_in, level_in};

use line_base::text::{MANY, cut, digits_after, number_of};
/// The number that so many zeros write behind the digits of `before`.
fn zeros_after(before: u64, places: usize) -> u64
    requires { before ≤ 1000000000000001 }
    ensures value { result ≡ capped (number_after before (replicate places 48)) }
{
    let mut number = before;
    for _ in 0..places {
        number = (number * 10).min(MANY);
    }
    number
}

/// The time in ns of a field in seconds: digits, or digits, a point and 1 to 9 digits.
pub(crate) fn seconds_of(field: &[u8]) -> Option<u64>
    ensures { result ≡ option_map capped (seconds_in field.now) }
{
    let (whole, decimals) = cut(field, b'.');
    match decimals {
        None => whole_seconds(whole),
        Some(decimals) => with_decimals(whole, decimals),
    }
}

/// The time in ns of a field of whole seconds.
fn whole_seconds(whole: &[u8]) -> Option<u64>
    ensures { result ≡ option_map capped (seconds_at (whole.now, None)) }
{
    let seconds = number_of(whole)?;
    Some(zeros_after(seconds, 9))
}

/// The time in ns of seconds with 1 to 9 decimals.
fn with_decimals(whole: &[u8], decimals: &[u8]) -> Option<u64>
    ensures { result ≡ option_map capped (seconds_at (whole.now, Some decimals.now)) }
{
    if decimals.is_empty() || decimals.len() > 9 {
        return None;
    }
    let seconds = number_of(whole)?;
    let number = digits_after(seconds, decimals)?;
    Some(zeros_after(number, 9 - decimals.len()))
}

/// The level of a field: `0` is low and `1` is high.
#[inline]
pub(crate) fn level_of(field: &[u8]) -> Option<bool>
    ensures { result ≡ level_in field.now }
{
    match field {
        b"0" => Some(false),
        b"1" => Some(true),
        _ => None,
    }
}
