//! Lines of a text, read from single bytes: what ends a line, how many bytes a line may have, and how many the
//! input.
//!
//! A line ends by an LF or by the end of the input, and one CR before that belongs to the end. What a line says
//! is for others to read. The limits and the order of their faults are this project's own.
#![tactic(auto)]

mod content;
mod line_bytes;
mod list_laws;
mod reader;

pub use content::{content_of, is_skipped};
pub use line_bytes::{LINE_LIMIT, LineBytes};
pub use list_laws::{lines_are_cut_at_each_line_feed, lines_grow};
pub use reader::{INPUT_LIMIT, LineReader};
