//! Lines: what each gives behind the lines before it.
ghost use Rattle.std.specs.Prelude.{◌≡◌, Some, Err, MatchResult, IfOk, IsTrue, []};
ghost use Rattle.edge_trace.specs.EdgeLists.{Standing, content_read};
ghost use Rattle.edge_trace.specs.Readings.{HasRead, IsAt, is_in_range};

use crate::form::{Form, skipped};
use crate::heads::{read_formless, read_version};
use crate::levels::Levels;
use crate::row::RowEdges;
use crate::rows::{read_plain, read_row};
use crate::state::State;
use line_base::LineFault;
use line_base::text::behind;

/// Reads a line without its CR, and adds its edges. Nearly all lines are plain rows, so these are read at
/// once.
#[inline(always)]
pub(crate) fn read_content(
    state: State,
    content: &[u8],
    levels: &mut Levels,
    edges: &mut RowEdges,
) -> Result<State, LineFault>
    requires in_range { IsTrue (is_in_range (Some state)) }
    requires empty { edges.old ≡ [] }
    ensures in_range { IfOk result (λ next. IsTrue (is_in_range (Some next))) }
    ensures read { (standing : Standing) → IsAt state levels.old standing →
        MatchResult result (λ next. HasRead next levels.new edges.new (content_read standing content.now)) (λ fault. content_read standing content.now ≡ Err fault) }
{
    if let State::Rows(Form::Narrow, before) = state {
        if !skipped(content) {
            if let Some(time) = read_plain(before, content, levels, edges) {
                return Ok(State::Rows(Form::Narrow, time));
            }
        }
    }
    read_line(state, content, levels, edges)
}

/// Reads any line without its CR, and adds its edges.
#[inline(never)]
fn read_line(
    state: State,
    content: &[u8],
    levels: &mut Levels,
    edges: &mut RowEdges,
) -> Result<State, LineFault>
    requires in_range { IsTrue (is_in_range (Some state)) }
    requires empty { edges.old ≡ [] }
    ensures in_range { IfOk result (λ next. IsTrue (is_in_range (Some next))) }
    ensures read { (standing : Standing) → IsAt state levels.old standing →
        MatchResult result (λ next. HasRead next levels.new edges.new (content_read standing content.now)) (λ fault. content_read standing content.now ≡ Err fault) }
{
    match state {
        State::Start => match behind(content, b"# version 2 ") {
            Some(rest) => read_version(rest),
            None => read_formless(None, content, levels, edges),
        },
        State::Formless(unit) => read_formless(unit, content, levels, edges),
        State::Rows(form, before) => {
            if skipped(content) {
                return Ok(state);
            }
            read_row(form, before, content, levels, edges)
        }
    }
}
