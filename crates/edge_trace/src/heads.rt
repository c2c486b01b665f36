//! The lines before the rows: line 1 of version 2, and the line that decides the form.
ghost use Rattle.std.specs.Prelude.{◌≡◌, Bool, Option, Some, Err, MatchResult, IfOk, IsTrue, List, []};
ghost use Rattle.edge_trace.specs.EdgeLists.{narrow_form, header_read, forming_read, formless_read, version_read};
ghost use Rattle.edge_trace.specs.Readings.{form_of, IsForm, IsUnit, HasLevels, HasRead, is_in_range};

use crate::form::{Form, header_columns, skipped, version_unit};
use crate::levels::Levels;
use crate::row::RowEdges;
use crate::rows::read_row;
use crate::state::State;
use line_base::LineFault;
use line_base::text::behind;

/// Reads line 1 of version 2, of which this stands behind `# version 2 `.
#[inline(never)]
pub(crate) fn read_version(rest: &[u8]) -> Result<State, LineFault>
    ensures in_range { IfOk result (λ next. IsTrue (is_in_range (Some next))) }
    ensures read { (levels : List (Option Bool)) → HasLevels levels [] → MatchResult result (λ next. HasRead next levels [] (version_read rest.now)) (λ fault. version_read rest.now ≡ Err fault) }
{
    let Some(unit) = version_unit(rest) else {
        return Err(LineFault::Version);
    };
    Ok(State::Formless(Some(unit)))
}

/// Reads a wide header, of which this stands behind `Time [s]`. A list of version 2 has none.
fn read_header(unit: Option<u32>, names: &[u8]) -> Result<State, LineFault>
    ensures in_range { IfOk result (λ next. IsTrue (is_in_range (Some next))) }
    ensures read { (levels : List (Option Bool)) → HasLevels levels [] → MatchResult result (λ next. HasRead next levels [] (header_read unit names.now)) (λ fault. header_read unit names.now ≡ Err fault) }
{
    if unit.is_some() {
        return Err(LineFault::Field);
    }
    let Some(columns) = header_columns(names) else {
        return Err(LineFault::Field);
    };
    Ok(State::Rows(Form::Wide(columns), 0))
}

/// The form of narrow rows in a list of this unit.
fn form_in(unit: Option<u32>) -> Form
    requires { IsUnit unit }
    ensures value { form_of result ≡ narrow_form unit }
    ensures form { IsForm result }
{
    match unit {
        None => Form::Narrow,
        Some(unit) => Form::Units(unit),
    }
}

/// Reads the line that decides the form: a wide header, or the first narrow row.
fn read_forming(
    unit: Option<u32>,
    content: &[u8],
    levels: &mut Levels,
    edges: &mut RowEdges,
) -> Result<State, LineFault>
    requires unit { IsUnit unit }
    requires empty { edges.old ≡ [] }
    ensures in_range { IfOk result (λ next. IsTrue (is_in_range (Some next))) }
    ensures read { HasLevels levels.old [] →
        MatchResult result (λ next. HasRead next levels.new edges.new (forming_read unit content.now)) (λ fault. forming_read unit content.now ≡ Err fault) }
{
    match behind(content, b"Time [s]") {
        Some(names) => read_header(unit, names),
        None => read_row(form_in(unit), 0, content, levels, edges),
    }
}

/// Reads a line where the form isn't decided yet: one that is skipped, or the one that decides it.
#[inline(never)]
pub(crate) fn read_formless(
    unit: Option<u32>,
    content: &[u8],
    levels: &mut Levels,
    edges: &mut RowEdges,
) -> Result<State, LineFault>
    requires unit { IsUnit unit }
    requires empty { edges.old ≡ [] }
    ensures in_range { IfOk result (λ next. IsTrue (is_in_range (Some next))) }
    ensures read { HasLevels levels.old [] →
        MatchResult result (λ next. HasRead next levels.new edges.new (formless_read unit content.now)) (λ fault. formless_read unit content.now ≡ Err fault) }
{
    if skipped(content) {
        return Ok(State::Formless(unit));
    }
    read_forming(unit, content, levels, edges)
}
