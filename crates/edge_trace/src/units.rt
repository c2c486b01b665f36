//! Plain rows of version 2, whose times count units: from the start of the list, or behind a plus from the
//! row before.
ghost use Rattle.std.specs.Prelude.{◌<◌, ◌≤◌, ◌^◌, ◌∷◌, IfSome};
ghost use Rattle.edge_trace.specs.Rows as row;
ghost use Rattle.edge_trace.specs.PlainRows.{IsRowFront, IsInUnits};

use crate::plain::plain_front;
use crate::stamps::time_after;
use line_base::Edge;

/// The edge of a row that was written with so many units of so many ns behind a start. There is none above
/// 10^15 ns, or before a row of a time of `before` ns.
#[inline(always)]
fn in_units(start: u64, unit: u32, before: u64, written: Edge) -> Option<Edge>
    requires start { start ≤ 10 ^ 15 }
    requires unit { 1 ≤ unit }
    requires written { written.time < 10 ^ 15 }
    ensures known { IfSome result (λ edge. IsInUnits start unit before written edge) }
    ensures time { IfSome result (λ edge. edge.time ≤ 10 ^ 15) }
{
    let Ok(time) = time_after(start, unit, Some(written.time)) else {
        return None;
    };
    if time < before {
        return None;
    }
    Some(Edge {
        line: written.line,
        time,
        level: written.level,
    })
}

/// The edge of a plain row in units of so many ns that stands whole at the front of a text, behind a row of
/// a time of `before` ns, and how many bytes stand before its LF. It has no fault.
#[inline]
fn absolute_front(unit: u32, before: u64, text: &[u8]) -> Option<(Edge, usize)>
    requires unit { 1 ≤ unit }
    ensures front { IfSome result (λ found. IsRowFront (row.Units unit) before text.now found.0 found.1) }
    ensures line { IfSome result (λ found. found.0.line ≤ 15) }
    ensures time { IfSome result (λ found. found.0.time ≤ 10 ^ 15) }
{
    let (written, count) = plain_front(text)?;
    let edge = in_units(0, unit, before, written)?;
    Some((edge, count))
}

/// The same of a row whose time is a step. What stands behind its plus is given.
#[inline]
fn step_front(unit: u32, before: u64, digits: &[u8]) -> Option<(Edge, usize)>
    requires before { before ≤ 10 ^ 15 }
    requires unit { 1 ≤ unit }
    ensures front { IfSome result (λ found. IsRowFront (row.Units unit) before (43 ∷ digits.now) found.0 found.1) }
    ensures line { IfSome result (λ found. found.0.line ≤ 15) }
    ensures time { IfSome result (λ found. found.0.time ≤ 10 ^ 15) }
{
    let (written, count) = plain_front(digits)?;
    let edge = in_units(before, unit, before, written)?;
    Some((edge, count + 1))
}

/// The edge of a plain row of version 2 that stands whole at the front of a text, behind a row of a time of
/// `before` ns, and how many bytes stand before its LF. It has no fault.
#[inline]
pub(crate) fn units_front(unit: u32, before: u64, text: &[u8]) -> Option<(Edge, usize)>
    requires before { before ≤ 10 ^ 15 }
    requires unit { 1 ≤ unit }
    ensures front { IfSome result (λ found. IsRowFront (row.Units unit) before text.now found.0 found.1) }
    ensures line { IfSome result (λ found. found.0.line ≤ 15) }
    ensures time { IfSome result (λ found. found.0.time ≤ 10 ^ 15) }
{
    if let Some((first, digits)) = text.split_first() {
        if *first == b'+' {
            return step_front(unit, before, digits);
        }
    }
    absolute_front(unit, before, text)
}
