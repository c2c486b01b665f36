//! The words that every layer of a sensor link receiver speaks of: edges and gaps, nibbles, rules, faults
//! and reasons, and the places that bytes come from and go to.
//!
//! Times are whole ns. Lines are those of a logic analyser, 0 to 15. The rules' names, their numbers, the
//! faults and the statuses are this project's own.
#![tactic(auto)]

mod archive_fault;
mod edge;
mod faults;
mod lazy_file_sink;
mod memory_sink;
mod memory_source;
mod nibbles;
mod reason;
mod rule;
mod sink;
mod source;
mod spans;
mod std_streams;
pub mod text;

pub use archive_fault::ArchiveFault;
pub use edge::{Edge, Item, MAX_TIME, Span};
pub use faults::{Failed, LineFault, SetupFault, WordFault};
pub use lazy_file_sink::LazyFileSink;
pub use memory_sink::MemorySink;
pub use memory_source::MemorySource;
pub use nibbles::Nibbles;
pub use reason::Reason;
pub use rule::Rule;
pub use sink::Sink;
pub use source::Source;
pub use spans::Spans;
pub use std_streams::{StdSink, StdSource};
