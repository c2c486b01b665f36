//! The words of the command line: what they ask for, or the first word that is refused.
//!
//! The first word is a command. `decode` and `check` take 1 to 16 SPECs behind it, `simulate` takes a seed, a number
//! below 2^64, and one SPEC, and `loop` has a count between these, 0 to 100,000. A SPEC is a word that names a channel:
//! a kind, a colon, and pairs `key=value` parted by commas. A key that isn't there has its usual value. The whole
//! grammar, the ranges and the order of the faults are this project's own. Ticks and jitter are in ns.
#![tactic(auto)]

mod command;
mod psi5;
mod seed;
mod sent;
mod setting;
mod setups;
mod spans;
mod spc;
mod spec;
mod tooth;
mod value;

pub use command::{Command, WordsFault, read_words};
pub use setups::Setups;
