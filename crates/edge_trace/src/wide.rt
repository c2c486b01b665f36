//! Wide rows: a time in seconds, and one level for each column.
ghost use Rattle.std.specs.Prelude.{◌≡◌, ◌≤◌, ◌^◌, option_map, Err, IfOk, IfErr, length};
ghost use Rattle.edge_trace.specs.Fields.{fields, levels_in};
ghost use Rattle.edge_trace.specs.Rows.{wide_row, said_from};
ghost use Rattle.edge_trace.specs.Readings.{stamp_time, IsStamped};

use crate::digits::level_of;
use crate::form::{Form, commas};
use crate::stamps::time_in;
use crate::texts::trimmed;
use arrayvec::ArrayVec;
use line_base::LineFault;
use line_base::text::cut;

/// The levels of these fields, up to 16.
fn levels_of(text: &[u8]) -> Option<ArrayVec<bool, 16>>
    requires { length (fields text.now) ≤ 16 }
    ensures { option_map (λ levels. levels.items) result ≡ levels_in (fields text.now) }
{
    let mut levels = ArrayVec::new();
    let mut rest = Some(text);
    'fields: while let Some(text) = rest {
        let (field, others) = cut(text, b',');
        levels.push(level_of(trimmed(field))?);
        rest = others;
    }
    Some(levels)
}

/// The time in ns and the levels of a wide row of so many columns, behind a row of a time of `before` ns.
pub(crate) fn wide(
    columns: usize,
    before: u64,
    content: &[u8],
) -> Result<(u64, ArrayVec<bool, 16>), LineFault>
    requires before { before ≤ 10 ^ 15 }
    requires columns { (1 ≤ columns) × (columns ≤ 16) }
    ensures good { IfOk result (λ row. IsStamped (stamp_time 1 before) (wide_row columns (stamp_time 1 before) before (fields content.now)) row.0 (said_from 0 row.0 row.1.items)) }
    ensures fault { IfErr result (λ fault. wide_row columns (stamp_time 1 before) before (fields content.now) ≡ Err fault) }
    ensures time { IfOk result (λ row. row.0 ≤ 10 ^ 15) }
{
    if commas(content) != columns {
        return Err(LineFault::Field);
    }
    let (time, rest) = cut(content, b',');
    let time = time_in(Form::Wide(columns), before, trimmed(time))?;
    let Some(rest) = rest else {
        return Err(LineFault::Field);
    };
    let Some(levels) = levels_of(rest) else {
        return Err(LineFault::Level);
    };
    if time < before {
        return Err(LineFault::TimeBack);
    }
    Ok((time, levels))
}
