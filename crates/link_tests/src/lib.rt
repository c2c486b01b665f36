//! Tests of the layers below the channels: the words that all share, and each link by itself.
//!
//! Clauses say each result by a definition, and the cases that are run over the program hold most of these. What is
//! here no command shows: devices of std that fail, numbers and printed names of faults, setups that no words spell,
//! which edges a reader passes, and serial messages status by status.
#![tactic(auto)]

#[cfg(test)]
mod frames;
#[cfg(test)]
mod names;
#[cfg(test)]
mod serial_messages;
#[cfg(test)]
mod setups;
#[cfg(test)]
mod streams;
