//! Tests of the commands over sources and sinks in memory, which fail at chosen pulls and puts: what no clause says of
//! `edge_command::run_plain`, and of `simulate` and `run_loop` behind it.
//!
//! Which texts a run writes of which words and inputs is shown by the cases in .ci/cases, over the built program.
#![tactic(auto)]

#[cfg(test)]
mod runs;
