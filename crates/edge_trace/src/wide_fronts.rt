//! Plain wide rows: seconds with nine decimals, and a level for each column, without blanks.
ghost use Rattle.std.specs.Prelude.{◌≡◌, ◌+◌, ◌≤◌, ◌^◌, length, IfSome};
ghost use Rattle.edge_trace.specs.WideFronts.{BeginsWithSeconds, level_byte, BeginsWithLevels, IsWideFront};

use crate::plain::{FRONT_ROOM, number_before};
use arrayvec::ArrayVec;
use line_base::MAX_TIME;

/// The most ns that stand behind the point of seconds.
const MOST_DECIMALS: u64 = 999_999_999;

/// The time in ns, at most 10^15, of the seconds with nine decimals before the first comma of a text, and what
/// stands behind the comma.
#[inline(always)]
fn seconds_before_comma(text: &[u8]) -> Option<(u64, &[u8])>
    ensures begins { IfSome result (λ parts. BeginsWithSeconds text.now parts.0 parts.1.now) }
    ensures range { IfSome result (λ parts. parts.0 ≤ 10 ^ 15) }
{
    let (whole, decimals) = number_before(b'.', text)?;
    let (part, rest) = number_before(b',', decimals)?;
    if decimals.len() != rest.len() + 10 || whole > 1_000_000 || part > MOST_DECIMALS {
        return None;
    }
    let time = whole * 1_000_000_000 + part;
    if time > MAX_TIME {
        return None;
    }
    Some((time, rest))
}

/// The level that a byte spells.
#[inline(always)]
fn level_at(byte: u8) -> Option<bool>
    ensures { IfSome result (λ level. byte ≡ level_byte level) }
{
    match byte {
        b'0' => Some(false),
        b'1' => Some(true),
        _ => None,
    }
}

/// The levels at the front of a text, one and so many others, which end at an LF.
#[inline(always)]
fn levels_front(others: usize, text: &[u8]) -> Option<ArrayVec<bool, 16>>
    requires { others ≤ 15 }
    ensures { IfSome result (λ levels. BeginsWithLevels text.now others levels.items) }
{
    let end = 2 * others + 1;
    if text.len() <= end || text[end] != b'\n' {
        return None;
    }
    let mut levels = ArrayVec::new();
    for i in 0..others {
        let level = level_at(text[2 * i])?;
        if text[2 * i + 1] != b',' {
            return None;
        }
        levels.push(level);
    }
    let last = level_at(text[2 * others])?;
    levels.push(last);
    Some(levels)
}

/// The time and the levels of the plain row of so many columns that stands whole at the front of a text,
/// behind a row of a time of `before` ns, and how many bytes stand before its LF. It has no fault. A text of
/// fewer than 40 bytes is left to be read by the line.
#[inline]
pub(crate) fn wide_front(
    columns: usize,
    before: u64,
    text: &[u8],
) -> Option<(u64, ArrayVec<bool, 16>, usize)>
    requires { (1 ≤ columns) × (columns ≤ 16) }
    ensures front { IfSome result (λ found. IsWideFront columns before text.now found.0 found.1.items found.2) }
    ensures range { IfSome result (λ found. found.0 ≤ 10 ^ 15) }
    ensures few { IfSome result (λ found. length found.1.items ≤ 16) }
{
    if text.len() < FRONT_ROOM {
        return None;
    }
    let (time, rest) = seconds_before_comma(text)?;
    if time < before {
        return None;
    }
    let others = columns - 1;
    let levels = levels_front(others, rest)?;
    let count = text.len() - rest.len() + (2 * others + 1);
    Some((time, levels, count))
}
