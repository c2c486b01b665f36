//! Tests of the layers of a channel: its receiver and its simulator.
//!
//! The cases that are run over the program hold most of what a channel reports, sends and draws. What is here no
//! command shows: gaps, which no edge list has, setups that no words spell, the words of the published generator, and
//! printed names of faults. The values are counted by hand.
#![tactic(auto)]

#[cfg(test)]
mod bursts;
#[cfg(test)]
mod ends;
#[cfg(test)]
mod frames;
#[cfg(test)]
mod items;
#[cfg(test)]
mod setups;
#[cfg(test)]
mod simulators;
