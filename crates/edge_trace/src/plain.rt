//! Plain rows: digits, digits and a level with commas between them, and no blanks. Nearly all narrow rows
//! are plain, so these are read in one pass; any other row is judged field by field.
ghost use Rattle.std.specs.Prelude.{◌<◌, ◌≤◌, ◌^◌, IfSome};
ghost use Rattle.edge_trace.specs.PlainRows.{BeginsWithNumber, SpellsEdge, IsPlainFront};

use crate::digits::level_of;
use line_base::Edge;

/// The most bytes of a number of 15 digits and the byte behind it. Such a number is below 10^15.
const NUMBER_ROOM: usize = 16;

/// The most bytes of a plain row with its LF, and more. Where a text has so many bytes, the loops over digits
/// have a fixed length.
pub(crate) const FRONT_ROOM: usize = 40;

/// The digit `0`. Any byte that is no digit is more than 9 above it, or wraps to more.
const ZERO: u64 = 48;

/// The number of the digits, at most 15, before the first such byte of a text, and what stands behind that.
#[inline(always)]
pub(crate) fn number_before(mark: u8, text: &[u8]) -> Option<(u64, &[u8])>
    requires { mark < 48 }
    ensures begins { IfSome result (λ parts. BeginsWithNumber mark text.now parts.0 parts.1.now) }
    ensures small { IfSome result (λ parts. parts.0 < 10 ^ 15) }
{
    let front = &text[..NUMBER_ROOM.min(text.len())];
    let mut number = 0u64;
    for (i, byte) in front.iter().enumerate() {
        let value = u64::from(*byte).wrapping_sub(ZERO);
        if value > 9 {
            if *byte == mark && i > 0 {
                return Some((number, &text[i + 1..]));
            }
            return None;
        }
        number = number * 10 + value;
    }
    None
}

/// The edge that a plain row spells.
#[inline(always)]
pub(crate) fn plain_row(content: &[u8]) -> Option<Edge>
    ensures spelled { IfSome result (λ edge. SpellsEdge content.now edge) }
    ensures line { IfSome result (λ edge. edge.line ≤ 15) }
    ensures time { IfSome result (λ edge. edge.time < 10 ^ 15) }
{
    let (time, rest) = number_before(b',', content)?;
    let (line, last) = number_before(b',', rest)?;
    if line > 15 {
        return None;
    }
    let level = level_of(last)?;
    Some(Edge {
        line: line as u8,
        time,
        level,
    })
}

/// The edge that a plain row spells which stands whole at the front of a text, and how many bytes stand before
/// its LF. A text of fewer than 40 bytes is left to be read by the line.
#[inline(always)]
pub(crate) fn plain_front(text: &[u8]) -> Option<(Edge, usize)>
    ensures front { IfSome result (λ found. IsPlainFront text.now found.0 found.1) }
    ensures line { IfSome result (λ found. found.0.line ≤ 15) }
    ensures time { IfSome result (λ found. found.0.time < 10 ^ 15) }
{
    if text.len() < FRONT_ROOM {
        return None;
    }
    let (time, rest) = number_before(b',', text)?;
    let (line, last) = number_before(b',', rest)?;
    if line > 15 || last.len() < 2 || last[1] != b'\n' {
        return None;
    }
    let level = level_of(&last[..1])?;
    let edge = Edge {
        line: line as u8,
        time,
        level,
    };
    Some((edge, text.len() - last.len() + 1))
}
