//! The edges of a row, taken one after another.
ghost use Rattle.std.specs.Prelude.{◌≡◌, ◌∷◌, [], None, MatchOption};

use line_base::Edge;
use std::marker::Model;

/// The edges of a row that aren't taken yet, all at one time. Contracts see their list, in order of lines.
#[derive(Drop)]
pub struct EdgesLeft {
    /// The time of the edges in ns.
    pub(crate) time: u64,
    /// One digit in base 4 for each line from `line` on, the lowest first: 0 for no edge, 1 for low, 2 for high.
    pub(crate) levels: u32,
    /// The line of the lowest digit, 0 to 16.
    pub(crate) line: u8,
}

impl Model for EdgesLeft {
    ghost use Rattle.std.specs.Prelude.{List, ◌-◌};
    ghost use Rattle.line_base.specs.declared.edge.Edge.{Edge};
    ghost use Rattle.edge_trace.specs.RowEdges.{edges_from, levels_told};

    ghost Value = { List Edge };

    ghost view = { λ left. edges_from left.line left.time (levels_told (16 - left.line) left.levels) };
}

impl EdgesLeft {
    /// Takes the edge of the lowest line, if there is one.
    #[inline]
    pub fn take(&mut self) -> Option<Edge>
        ensures taken { MatchOption result (self.old ≡ []) (λ edge. self.old ≡ edge ∷ self.new) }
        ensures stays { result ≡ None → self.new ≡ self.old }
    {
        let time = self.time;
        let mut levels = self.levels;
        let mut line = self.line;
        'empty: while line < 16 && levels > 0 && levels % 4 == 0 {
            levels /= 4;
            line += 1;
        }
        if line >= 16 || levels == 0 {
            return None;
        }
        self.levels = levels / 4;
        self.line = line + 1;
        Some(Edge {
            line,
            time,
            level: levels % 4 > 1,
        })
    }
}
