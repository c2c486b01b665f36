//! One channel: the items of its edge list in, its reports out.
//!
//! A channel is one link of one setup: edges of its lines, runs of edges that were lost, and an end. Between
//! two gaps the link is read from its start; a gap drops what is open, and the numbers of edges run on over
//! it. Which report comes when, what a violated rule resets, and what is counted is this project's own.
#![tactic(auto)]

mod counted_receiver;
mod init_readers;
mod meaning;
mod message;
mod nominal;
mod psi5_burst;
mod psi5_channel;
mod receiver;
mod report;
mod sent_channel;
mod serial;
mod setup;
mod spc_channel;
mod sync_line;
mod tally;
mod tooth_channel;

pub use counted_receiver::CountedReceiver;
pub use meaning::{reports_grow, reports_have_meaning};
pub use message::Message;
pub use nominal::{
    downlink_messages_have_honest_traces, psi5_messages_have_honest_traces,
    sent_messages_have_honest_traces, spc_messages_have_honest_traces,
};
pub use receiver::Receiver;
pub use report::{Report, What};
pub use setup::{ChannelSetup, Serial, SyncSlots};
pub use tally::Tally;
