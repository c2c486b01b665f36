//! Loops: the messages of a script, simulated and decoded in one process, and the line that tells what came of them.
//!
//! All edges go to one receiver, and with gaps to a second one. Nothing is kept of edges that both have got, so a
//! loop takes the same memory for any number of messages. Which edges are lost, and the line, are this project's own.
#![tactic(auto)]

mod channel;
mod gaps;
mod laws;
mod line;
mod listener;
mod listeners;
mod run;
mod script_loop;

pub use laws::{lost_runs_lie_within, scripts_give_messages};
pub use run::run_loop;
