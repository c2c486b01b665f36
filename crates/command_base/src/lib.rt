//! What the commands share that read a source to its end: how a run over bytes is told to have ended, how its
//! faults are counted, the loop over pulls, and the buffer that it pulls into.
//!
//! A command is seen as a task: which text and which fault it makes of bytes, of a whole input or of one behind
//! which more may come. The reasons and what is told of each are this project's own.
#![tactic(auto)]

mod buffer;
mod run;

pub use buffer::{READ_SIZE, read_buffer};
pub use run::{TaskRun, run_over};
