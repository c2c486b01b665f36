//! That what is read, and what a script says, is played: messages that fit a channel's setup are accepted by its
//! simulator.
//!
//! The crate has laws alone: its functions do nothing, and their contracts say what holds. How many messages are in
//! time is this project's own.
#![tactic(auto)]

mod read;
mod scripted;
mod transactions;

pub use read::read_messages_are_of_the_setup;
pub use scripted::scripted_messages_are_never_refused;
pub use transactions::transactions_are_in_time;
