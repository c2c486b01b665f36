//! Narrow rows: a time, a line and a level.
ghost use Rattle.std.specs.Prelude.{◌≡◌, ℕ, ◌≤◌, ◌^◌, Err, IfSome, IfNone, IfOk, IfErr, [], ◌∷◌};
ghost use Rattle.line_base.specs.declared.faults.LineFault.TheVariants.{Field};
ghost use Rattle.edge_trace.specs.Fields.{fields};
ghost use Rattle.edge_trace.specs.Rows.{Stamp, unit_of, line_field, narrow_row};
ghost use Rattle.edge_trace.specs.Rows as row;
ghost use Rattle.edge_trace.specs.Readings.{form_of, IsForm, stamp_time, IsStamped};
ghost use Rattle.edge_trace.specs.PlainRows.{IsRowFront};

use crate::digits::level_of;
use crate::form::Form;
use crate::plain::{plain_front, plain_row};
use crate::stamps::time_in;
use crate::texts::trimmed;
use line_base::text::{cut, number_of};
use line_base::{Edge, LineFault};

/// The line number of a field, 0 to 15.
#[inline]
fn line_in(field: &[u8]) -> Result<u8, LineFault>
    ensures value { result ≡ line_field field.now }
    ensures range { IfOk result (λ line. line ≤ 15) }
{
    let Some(line) = number_of(field) else {
        return Err(LineFault::Number);
    };
    if line > 15 {
        return Err(LineFault::Line);
    }
    Ok(line as u8)
}

/// The three fields of a narrow row.
#[inline]
fn three_fields(content: &[u8]) -> Option<(&[u8], &[u8], &[u8])>
    ensures some { IfSome result (λ parts. fields content.now ≡ parts.0.now ∷ parts.1.now ∷ parts.2.now ∷ []) }
    ensures none { IfNone result ((form : row.Form) (time_at : Stamp → ℕ) (before : ℕ) → narrow_row form time_at before (fields content.now) ≡ Err Field) }
{
    let (time, rest) = cut(content, b',');
    let (line, rest) = cut(rest?, b',');
    let (level, more) = cut(rest?, b',');
    if more.is_some() {
        return None;
    }
    Some((trimmed(time), trimmed(line), trimmed(level)))
}

/// What a plain row in ns says, behind a row of a time of `before` ns. It has no fault.
#[inline(always)]
pub(crate) fn plain_narrow(before: u64, content: &[u8]) -> Option<Edge>
    ensures good { IfSome result (λ edge. IsStamped (stamp_time 1 before) (narrow_row row.Narrow (stamp_time 1 before) before (fields content.now)) edge.time (edge ∷ [])) }
    ensures line { IfSome result (λ edge. edge.line ≤ 15) }
    ensures time { IfSome result (λ edge. edge.time ≤ 10 ^ 15) }
{
    let edge = plain_row(content)?;
    if edge.time < before {
        return None;
    }
    Some(edge)
}

/// The edge of a plain row in ns that stands whole at the front of a text, behind a row of a time of `before`
/// ns, and how many bytes stand before its LF. It has no fault.
#[inline(always)]
pub(crate) fn narrow_front(before: u64, text: &[u8]) -> Option<(Edge, usize)>
    ensures front { IfSome result (λ found. IsRowFront row.Narrow before text.now found.0 found.1) }
    ensures line { IfSome result (λ found. found.0.line ≤ 15) }
    ensures time { IfSome result (λ found. found.0.time ≤ 10 ^ 15) }
{
    let (edge, count) = plain_front(text)?;
    if before <= edge.time {
        Some((edge, count))
    } else {
        None
    }
}

/// What a narrow row says, behind a row of a time of `before` ns.
pub(crate) fn narrow(form: Form, before: u64, content: &[u8]) -> Result<Edge, LineFault>
    requires before { before ≤ 10 ^ 15 }
    requires form { IsForm form }
    ensures good { IfOk result (λ edge. IsStamped (stamp_time (unit_of (form_of form)) before) (narrow_row (form_of form) (stamp_time (unit_of (form_of form)) before) before (fields content.now)) edge.time (edge ∷ [])) }
    ensures fault { IfErr result (λ fault. narrow_row (form_of form) (stamp_time (unit_of (form_of form)) before) before (fields content.now) ≡ Err fault) }
    ensures line { IfOk result (λ edge. edge.line ≤ 15) }
    ensures time { IfOk result (λ edge. edge.time ≤ 10 ^ 15) }
{
    let Some((time, line, level)) = three_fields(content) else {
        return Err(LineFault::Field);
    };
    let time = time_in(form, before, time)?;
    let line = line_in(line)?;
    let Some(level) = level_of(level) else {
        return Err(LineFault::Level);
    };
    if time < before {
        return Err(LineFault::TimeBack);
    }
    Ok(Edge { line, time, level })
}
