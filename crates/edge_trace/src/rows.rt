//! Rows: what each gives behind the rows before it.
ghost use Rattle.std.specs.Prelude.{◌≡◌, ◌≤◌, ◌^◌, Some, Err, MatchResult, IfOk, IfSome, IfNone, IsTrue, List, []};
ghost use Rattle.line_base.specs.declared.edge.Edge.{Edge as EdgeRecord};
ghost use Rattle.edge_trace.specs.Rows.{Stamp, Narrow, Wide, time_of};
ghost use Rattle.edge_trace.specs.EdgeLists.{row_read};
ghost use Rattle.edge_trace.specs.declared.form.Form.TheVariants as form;
ghost use Rattle.edge_trace.specs.declared.state.State.TheVariants as state;
ghost use Rattle.edge_trace.specs.Readings.{form_of, IsForm, HasLevels, HasRead, is_in_range};

use crate::form::Form;
use crate::levels::{Levels, keep_level, keep_levels};
use crate::narrow::{narrow, plain_narrow};
use crate::row::RowEdges;
use crate::state::State;
use crate::wide::wide;
use line_base::LineFault;

/// Reads a wide row of so many columns, behind a row of a time of `before` ns.
#[inline(never)]
fn read_wide(
    columns: usize,
    before: u64,
    content: &[u8],
    levels: &mut Levels,
    edges: &mut RowEdges,
) -> Result<State, LineFault>
    requires before { before ≤ 10 ^ 15 }
    requires columns { (1 ≤ columns) × (columns ≤ 16) }
    requires empty { edges.old ≡ [] }
    ensures in_range { IfOk result (λ next. IsTrue (is_in_range (Some next))) }
    ensures read { (stamps : List Stamp) (rows : List EdgeRecord) → before ≡ time_of (Wide columns) stamps → HasLevels levels.old rows →
        MatchResult result (λ next. HasRead next levels.new edges.new (row_read (Wide columns) stamps rows content.now)) (λ fault. row_read (Wide columns) stamps rows content.now ≡ Err fault) }
{
    let (time, row) = wide(columns, before, content)?;
    keep_levels(time, row.as_slice(), levels, edges);
    Ok(State::Rows(Form::Wide(columns), time))
}

/// Reads a plain row in ns, behind a row of a time of `before` ns, and answers its time. Any other line is
/// left as it is.
#[inline(always)]
pub(crate) fn read_plain(
    before: u64,
    content: &[u8],
    levels: &mut Levels,
    edges: &mut RowEdges,
) -> Option<u64>
    requires empty { edges.old ≡ [] }
    ensures in_range { IfSome result (λ time. time ≤ 10 ^ 15) }
    ensures read { (stamps : List Stamp) (rows : List EdgeRecord) → before ≡ time_of Narrow stamps → HasLevels levels.old rows →
        IfSome result (λ time. HasRead (state.Rows form.Narrow time) levels.new edges.new (row_read Narrow stamps rows content.now)) }
    ensures left { IfNone result ((levels.new ≡ levels.old) × (edges.new ≡ edges.old)) }
{
    let edge = plain_narrow(before, content)?;
    keep_level(edge, levels, edges);
    Some(edge.time)
}

/// Reads a row of this form, behind a row of a time of `before` ns.
pub(crate) fn read_row(
    form: Form,
    before: u64,
    content: &[u8],
    levels: &mut Levels,
    edges: &mut RowEdges,
) -> Result<State, LineFault>
    requires before { before ≤ 10 ^ 15 }
    requires form { IsForm form }
    requires empty { edges.old ≡ [] }
    ensures in_range { IfOk result (λ next. IsTrue (is_in_range (Some next))) }
    ensures read { (stamps : List Stamp) (rows : List EdgeRecord) → before ≡ time_of (form_of form) stamps → HasLevels levels.old rows →
        MatchResult result (λ next. HasRead next levels.new edges.new (row_read (form_of form) stamps rows content.now)) (λ fault. row_read (form_of form) stamps rows content.now ≡ Err fault) }
{
    if let Form::Wide(columns) = form {
        return read_wide(columns, before, content, levels, edges);
    }
    let edge = narrow(form, before, content)?;
    keep_level(edge, levels, edges);
    Ok(State::Rows(form, edge.time))
}
