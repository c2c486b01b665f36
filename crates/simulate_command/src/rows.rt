//! The text of a message's edges.
ghost use Rattle.std.specs.Prelude.{◌≡◌, ◌≤◌, All, length};
ghost use Rattle.simulate_command.specs.Rows.{IsTellable, rows_of};

use arrayvec::{ArrayString, ArrayVec};
use edge_trace::edge_line;
use line_base::Edge;

/// How many bytes the rows of a message have at most: 80 rows of 41.
pub const ROWS_ROOM: usize = 3_280;

/// The narrow rows of at most 80 edges, each with its LF.
pub fn rows_of(edges: &[Edge]) -> ArrayVec<u8, ROWS_ROOM>
    requires few { length edges.now ≤ 80 }
    requires tellable { All IsTellable edges.now }
    ensures { result.items ≡ rows_of edges.now }
{
    let mut rows = ArrayVec::new();
    for edge in edges {
        let mut row = ArrayString::new();
        edge_line(*edge, &mut row);
        let _ = rows.try_extend_from_slice(row.as_str().as_bytes());
        rows.push(b'\n');
    }
    rows
}
