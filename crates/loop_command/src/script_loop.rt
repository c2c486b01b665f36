//! A script whose messages are sent on a channel.
ghost use Rattle.std.specs.Prelude.{◌≡◌, ℕ, suc, List, None, OnOk, OnErr};
ghost use Rattle.line_base.specs.declared.edge.Edge.{Edge};
ghost use Rattle.receiver_core.specs.declared.setup.ChannelSetup.{ChannelSetup};
ghost use Rattle.receiver_core.specs.Setups.{setup_fault_of};
ghost use Rattle.sensor_script.specs.Counted.{is_counted};

use crate::channel::Channel;
use receiver_core::{ChannelSetup, Message};
use sensor_script::Script;
use sim_base::SimFault;

/// A script, and the channel that its messages are sent on. Contracts say by `HasLeft` how far the loop has come.
#[derive(Drop)]
pub struct ScriptLoop {
    /// Gives the messages.
    pub script: Script,
    /// Sends them.
    pub channel: Channel,
}

/// Whether a message is counted: a frame, an answer, a burst or a downlink frame.
fn is_counted(message: &Message) -> bool
    ensures { result ≡ is_counted message.now }
{
    match message {
        Message::Frame(_) | Message::Answer { .. } | Message::Burst { .. } | Message::Down(_) =>
            true,
        Message::Sync => false,
        Message::Short { .. } | Message::Enhanced { .. } | Message::Silent { .. } => false,
    }
}

impl ScriptLoop {
    ghost use Rattle.loop_command.specs.Running.{HasLeft, HasSent, HasSentAll};

    /// A loop on a channel of this setup, which has no fault, that has sent nothing. Its script's seed is one more than
    /// its wobble's, and 0 where that would be 2^64.
    pub fn new(seed: u64, setup: &ChannelSetup) -> ScriptLoop
        requires { setup_fault_of setup.now ≡ None }
        ensures { (count : ℕ) → HasLeft result seed count setup.now count }
    {
        ScriptLoop {
            script: Script::new(seed.wrapping_add(1), *setup),
            channel: Channel::new(seed, setup),
        }
    }

    /// Sends the script's next messages, up to the first that is counted, or to one that is refused.
    fn send_counted(&mut self) -> Result<(), SimFault>
        requires { (setup : ChannelSetup) × (edges : List Edge) × HasSent self.old.channel setup edges }
        ensures sent { OnOk result ((seed count left : ℕ) (setup : ChannelSetup) → HasLeft self.old seed count setup (suc left) → HasLeft self.new seed count setup left) }
        ensures refused { OnErr result ((seed count left : ℕ) (setup : ChannelSetup) → HasLeft self.old seed count setup (suc left) → HasSentAll self.new seed count setup) }
    {
        let message = self.script.next();
        match self.channel.send(&message) {
            Ok(()) => {
                if is_counted(&message) {
                    return Ok(());
                }
                self.send_counted()
            }
            Err(fault) => Err(fault),
        }
    }

    /// Sends the script's next messages, up to the counted one of this number, or to one that is refused.
    pub fn send_all(&mut self, count: u64)
        requires { (seed : ℕ) × (setup : ChannelSetup) × HasLeft self.old seed count setup count }
        ensures { (seed : ℕ) (setup : ChannelSetup) → HasLeft self.old seed count setup count → HasSentAll self.new seed count setup }
    {
        for _sent in 0..count {
            if let Err(_fault) = self.send_counted() {
                return;
            }
        }
    }
}
