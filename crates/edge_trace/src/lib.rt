//! Edge lists: rows of text that say when a line of a logic analyser changed its level, read from single
//! bytes.
//!
//! The text forms, their limits and the order of the faults are this project's own. Times are in ns, at
//! most 10^15, and lines are numbered 0 to 15.
#![tactic(auto)]

mod digits;
mod edge_text;
mod edges_left;
mod form;
mod heads;
mod levels;
mod lines;
mod list_laws;
mod narrow;
mod plain;
mod reader;
mod row;
mod rows;
mod stamps;
mod state;
mod texts;
mod units;
mod wide;
mod wide_fronts;

pub use edge_text::edge_line;
pub use edges_left::EdgesLeft;
pub use list_laws::{
    answers_grow, edges_are_ordered, edges_are_orderly, faults_stay, written_edges_are_read_back,
};
pub use reader::EdgeReader;
pub use row::{Row, RowEdges};
