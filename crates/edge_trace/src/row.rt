//! What a line of input gives: the edges of its row.
ghost use Rattle.std.specs.Prelude.{◌≡◌, ◌+◌, ◌<◌, ◌≤◌, ◌==◌, List, [], ◌∷◌, ◌++◌, length, Some};
ghost use Rattle.edge_trace.specs.RowEdges.{AreBelow, digit_for};

use crate::edges_left::EdgesLeft;
use line_base::Edge;
use std::marker::Model;

/// Up to 16 edges at one time, one for each line. Contracts see the list, in order of line numbers. Two
/// rows are equal exactly where their lists are.
#[derive(Debug, Drop, PartialEq, Eq)]
pub struct RowEdges {
    /// The time of the edges in ns, or 0 where there are none.
    time: u64,
    /// One digit in base 4 for each line, the lowest for line 0: 0 for no edge, 1 for low, 2 for high.
    levels: u32,
}

impl Model for RowEdges {
    ghost use Rattle.std.specs.Prelude.{List};
    ghost use Rattle.line_base.specs.declared.edge.Edge.{Edge};
    ghost use Rattle.edge_trace.specs.RowEdges.{edges_from, levels_told, levels_kept, time_kept, IsKept};

    ghost Value = { List Edge };

    ghost view = { λ row. edges_from 0 row.time (levels_told 16 row.levels) };

    ghost invariant = { λ row. IsKept row.time row.levels };

    ghost inverse = { λ edges. record { time = time_kept edges; levels = levels_kept edges } };
}

/// The digit of a line that has an edge to this level.
#[inline]
fn digit_of(level: bool) -> u32
    ensures { result ≡ digit_for level }
{
    if level { 2 } else { 1 }
}

impl RowEdges {
    /// No edges.
    #[inline]
    pub fn new() -> RowEdges
        ensures { result ≡ [] }
    {
        RowEdges { time: 0, levels: 0 }
    }

    /// Whether there are no edges.
    #[inline]
    pub fn is_empty(&self) -> bool
        ensures value { result ≡ (length self.now == 0) }
        ensures few { length self.now ≤ 16 }
    {
        self.levels == 0
    }

    /// The edges, to be taken one after another.
    #[inline]
    pub fn edges(&self) -> EdgesLeft
        ensures { result ≡ self.now }
    {
        EdgesLeft {
            time: self.time,
            levels: self.levels,
            line: 0,
        }
    }

    /// Adds an edge at the end. Those before it are of lower lines and have its time.
    #[inline]
    pub(crate) fn push(&mut self, edge: Edge)
        requires line { edge.line < 16 }
        requires below { AreBelow edge.line edge.time self.old }
        ensures { self.new ≡ self.old ++ edge ∷ [] }
    {
        self.time = edge.time;
        self.levels += digit_of(edge.level) << (2 * u32::from(edge.line));
    }
}

/// The edges of one line of input.
#[derive(Debug, Drop, PartialEq, Eq)]
pub struct Row {
    /// In order of line numbers.
    pub edges: RowEdges,
    ghost few: { length edges ≤ 16 },
}
