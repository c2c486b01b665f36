//! The time of a row, by its first field.
ghost use Rattle.std.specs.Prelude.{◌≡◌, ℕ, ◌≤◌, ◌^◌, Option, IfOk, option_map};
ghost use Rattle.line_base.specs.Texts.{capped};
ghost use Rattle.edge_trace.specs.Rows.{unit_of, time_field};
ghost use Rattle.edge_trace.specs.Rows as row;
ghost use Rattle.edge_trace.specs.Readings.{form_of, IsForm, stamp_time, time_behind, seen_by};

use crate::digits::seconds_of;
use crate::form::Form;
use line_base::text::number_of;
use line_base::{LineFault, MAX_TIME};

/// The time in ns, at most 10^15, of so many units of so many ns behind a time.
#[inline]
pub(crate) fn time_after(before: u64, unit: u32, count: Option<u64>) -> Result<u64, LineFault>
    requires before { before ≤ 10 ^ 15 }
    requires unit { 1 ≤ unit }
    ensures value { (units : Option ℕ) → count ≡ option_map capped units → result ≡ time_behind before unit units }
    ensures range { IfOk result (λ time. time ≤ 10 ^ 15) }
{
    let Some(count) = count else {
        return Err(LineFault::Number);
    };
    let Some(span) = u64::from(unit).checked_mul(count) else {
        return Err(LineFault::TooLarge);
    };
    if span > MAX_TIME - before {
        return Err(LineFault::TooLarge);
    }
    Ok(before + span)
}

/// The time in ns of a row whose first field this is, behind a row of a time of `before` ns.
#[inline]
pub(crate) fn time_in(form: Form, before: u64, field: &[u8]) -> Result<u64, LineFault>
    requires before { before ≤ 10 ^ 15 }
    requires form { IsForm form }
    ensures value { result ≡ seen_by (stamp_time (unit_of (form_of form)) before) (time_field (form_of form) (stamp_time (unit_of (form_of form)) before) field.now) }
    ensures range { IfOk result (λ time. time ≤ 10 ^ 15) }
{
    match form {
        Form::Narrow => time_after(0, 1, number_of(field)),
        Form::Units(unit) => steps_in(unit, before, field),
        Form::Wide(_) => time_after(0, 1, seconds_of(field)),
    }
}

/// The same in a list of version 2, where a plus before the number makes it a step.
#[inline]
fn steps_in(unit: u32, before: u64, field: &[u8]) -> Result<u64, LineFault>
    requires before { before ≤ 10 ^ 15 }
    requires unit { 1 ≤ unit }
    ensures value { result ≡ seen_by (stamp_time unit before) (time_field (row.Units unit) (stamp_time unit before) field.now) }
    ensures range { IfOk result (λ time. time ≤ 10 ^ 15) }
{
    if let Some((first, digits)) = field.split_first() {
        if *first == b'+' {
            return time_after(before, unit, number_of(digits));
        }
    }
    time_after(0, unit, number_of(field))
}
