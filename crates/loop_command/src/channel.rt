//! A channel whose sensor is simulated, and that is listened to.
ghost use Rattle.std.specs.Prelude.{◌≡◌, [], List, None, OnOk, OnErr};
ghost use Rattle.line_base.specs.declared.edge.Edge.{Edge};
ghost use Rattle.receiver_core.specs.declared.setup.ChannelSetup.{ChannelSetup};
ghost use Rattle.receiver_core.specs.Setups.{setup_fault_of};
ghost use Rattle.sensor_sim.specs.Played.{wobble_of};
ghost use Rattle.sensor_sim.specs.Sims.{started_by};

use crate::listeners::Listeners;
use receiver_core::{ChannelSetup, Message};
use sensor_sim::{Sim, setups_are_accepted, simulated_edges_are_honest};
use sim_base::{SimFault, Wobble};

/// A simulated sensor, and what listens to it. Contracts say by `HasSent` which edges were sent.
#[derive(Drop)]
pub struct Channel {
    /// Makes edges of messages.
    pub sim: Sim,
    /// The words by which edges are off.
    pub wobble: Wobble,
    /// Get the edges.
    pub listeners: Listeners,
}

impl Channel {
    ghost use Rattle.loop_command.specs.Running.{HasSent, Refuses, Sends};

    /// A channel of this setup, which has no fault, that has sent nothing; its wobble begins with the seed.
    pub fn new(seed: u64, setup: &ChannelSetup) -> Channel
        requires { setup_fault_of setup.now ≡ None }
        ensures sim { result.sim ≡ started_by setup.now }
        ensures wobble { result.wobble ≡ wobble_of seed }
        ensures sent { HasSent result setup.now [] }
    {
        setups_are_accepted(setup);
        Channel {
            sim: Sim::new(*setup),
            wobble: Wobble::new(seed),
            listeners: Listeners::new(setup),
        }
    }

    /// Sends a message, or says why it is refused.
    pub fn send(&mut self, message: &Message) -> Result<(), SimFault>
        requires { (setup : ChannelSetup) × (edges : List Edge) × HasSent self.old setup edges }
        ensures sent { OnOk result ((setup : ChannelSetup) (edges : List Edge) → HasSent self.old setup edges → Sends self.old self.new message.now setup edges) }
        ensures refused { OnErr result ((setup : ChannelSetup) (edges : List Edge) → HasSent self.old setup edges → Refuses self.old self.new message.now setup edges) }
    {
        simulated_edges_are_honest();
        match self.sim.next(message, &mut self.wobble) {
            Ok(edges) => {
                self.listeners.take_edges(edges.as_slice());
                Ok(())
            }
            Err(fault) => Err(fault),
        }
    }
}
