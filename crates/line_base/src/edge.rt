//! Edges of lines and what stands between them.

/// The greatest time of an edge, 1,000,000,000,000,000 ns (about 11 days): this project's own limit, under
/// which every product of a length with a threshold fits a `u64`.
pub const MAX_TIME: u64 = 1_000_000_000_000_000;

/// An edge of a line: a change of its level, or the first level that is known of it.
#[derive(Clone, Copy, Debug, Default, PartialEq, Eq)]
pub struct Edge {
    /// The line, 0 to 15.
    pub line: u8,
    /// The time in ns, 0 to [`MAX_TIME`].
    pub time: u64,
    /// The level after the edge; `true` is high.
    pub level: bool,
}

/// What a channel's receiver is handed, one at a time.
#[derive(Clone, Copy, Debug, PartialEq, Eq)]
pub enum Item {
    /// The next edge.
    Edge(Edge),
    /// A run of edges that were lost.
    Gap {
        /// The number of the first lost edge, counted from 0.
        first: u64,
        /// How many were lost, at least 1.
        count: u64,
    },
    /// The end of a whole list.
    End,
    /// The end of a list that was cut off by a fault.
    Cut,
}

/// A range of times or widths, with both ends in it. Its unit is that of its use.
#[derive(Clone, Copy, Debug, PartialEq, Eq)]
pub struct Span {
    /// The least value.
    pub low: u32,
    /// The greatest value.
    pub high: u32,
}
