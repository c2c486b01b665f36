//! The command `simulate`: message lines in, the edges of a simulated sensor out.
//!
//! Which lines tell which messages, and which edges a sensor sends of them by which words of its wobble, is this
//! project's own; the links' own forms are those of the standards.
#![tactic(auto)]

mod command;
mod rows;
mod run;

pub use command::simulate;
