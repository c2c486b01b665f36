//! The last level of each line, and the edges that a row makes of it.
ghost use Rattle.std.specs.Prelude.{◌≡◌, ℕ, ◌≤◌, ◌==◌, None, Some, [], ◌∷◌, length, filter, slice_index_or, nat_lt, false, if◌then◌else◌};
ghost use Rattle.edge_trace.specs.EdgeLists.{is_new};
ghost use Rattle.edge_trace.specs.Rows.{said_from};

use crate::row::RowEdges;
use line_base::Edge;

/// The last level of each line, 0 to 15, if it has one.
pub(crate) type Levels = [Option<bool>; 16];

/// Whether a level is another than the one before, or the first.
#[inline]
fn changes(before: Option<bool>, level: bool) -> bool
    ensures { result ≡ is_new before level }
{
    match before {
        None => true,
        Some(before) => before != level,
    }
}

/// Whether what a narrow row says is an edge. Keeps its level.
#[inline(always)]
pub(crate) fn is_edge(edge: Edge, levels: &mut Levels) -> bool
    requires { edge.line ≤ 15 }
    ensures told { filter (λ row. is_new (slice_index_or levels.old row.line None) row.level) (edge ∷ []) ≡ (if result then edge ∷ [] else []) }
    ensures levels { (line : ℕ) → slice_index_or levels.new line None ≡ (if edge.line == line then Some edge.level else slice_index_or levels.old line None) }
{
    let line = usize::from(edge.line);
    let told = changes(levels[line], edge.level);
    levels[line] = Some(edge.level);
    told
}

/// Adds what a narrow row says, if it is an edge, and keeps its level.
#[inline(always)]
pub(crate) fn keep_level(edge: Edge, levels: &mut Levels, edges: &mut RowEdges)
    requires line { edge.line ≤ 15 }
    requires empty { edges.old ≡ [] }
    ensures edges { edges.new ≡ filter (λ row. is_new (slice_index_or levels.old row.line None) row.level) (edge ∷ []) }
    ensures levels { (line : ℕ) → slice_index_or levels.new line None ≡ (if edge.line == line then Some edge.level else slice_index_or levels.old line None) }
{
    if is_edge(edge, levels) {
        edges.push(edge);
    }
}

/// Adds the edges of a wide row whose lines had these levels before, and keeps its levels.
pub(crate) fn keep_levels(time: u64, row: &[bool], levels: &mut Levels, edges: &mut RowEdges)
    requires few { length row.now ≤ 16 }
    requires empty { edges.old ≡ [] }
    ensures edges { edges.new ≡ filter (λ edge. is_new (slice_index_or levels.old edge.line None) edge.level) (said_from 0 time row.now) }
    ensures levels { (line : ℕ) → slice_index_or levels.new line None ≡ (if nat_lt line (length row.now) then Some (slice_index_or row.now line false) else slice_index_or levels.old line None) }
{
    for (line, level) in row.iter().enumerate() {
        if changes(levels[line], *level) {
            edges.push(Edge {
                line: line as u8,
                time,
                level: *level,
            });
        }
        levels[line] = Some(*level);
    }
}
