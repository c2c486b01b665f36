//! Edge lists decoded: bytes of edges in, the lines of what each channel reports and the total lines out.
//!
//! Channels take the edges of their lines in the order of the list; at each edge what a channel reports is written
//! before the next edge is looked at. The order of lines is this project's own.
#![tactic(auto)]

mod channel;
mod channels;
mod command;
mod gathered;
mod run;

pub use command::decode;
