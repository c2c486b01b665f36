//! A channel's simulator.
ghost use Rattle.std.specs.Prelude.{◌≡◌, None};
ghost use Rattle.receiver_core.specs.Setups.{setup_fault_of};
ghost use Rattle.sim_base.specs.Outcomes.{outcome_of};
ghost use Rattle.sensor_sim.specs.Sims.{sim_next, started_by};

use arrayvec::ArrayVec;
use line_base::Edge;
use psi5_downlink_sim::ToothSim;
use psi5_sim::Psi5Sim;
use receiver_core::{ChannelSetup, Message};
use sent_sim::SentSim;
use sim_base::{MAX_EDGES, SimFault, Wobble};
use spc_sim::SpcSim;

/// A channel's simulator. Contracts see by which link it sends, and what the simulator of this link has come to.
#[derive(Drop)]
pub enum Sim {
    /// A SENT sensor.
    Sent(SentSim),
    /// PSI5 sensors, and the control unit that they answer where there are slots.
    Psi5(Psi5Sim),
    /// A receiver and its sensor on an SPC line.
    Spc(SpcSim),
    /// A control unit that sends by the tooth gap.
    Tooth(ToothSim),
}

impl Sim {
    /// A simulator of this setup, which has no fault, that has sent nothing.
    pub fn new(setup: ChannelSetup) -> Sim
        requires { setup_fault_of setup ≡ None }
        ensures { result ≡ started_by setup }
    {
        match setup {
            ChannelSetup::Sent {
                line,
                setup,
                serial,
                ..
            } => Sim::Sent(SentSim::new(line, setup, serial)),
            ChannelSetup::Psi5 {
                line,
                setup,
                slots,
                ..
            } => Sim::Psi5(Psi5Sim::new(line, setup, slots)),
            ChannelSetup::Spc { line, setup } => Sim::Spc(SpcSim::new(line, setup)),
            ChannelSetup::Tooth { line, setup } => Sim::Tooth(ToothSim::new(line, setup)),
        }
    }

    /// Sends a message, or says why it can't: `Kind` where it isn't one of the channel's setup, then `Range` where a
    /// value doesn't fit, then `Order` where it may not come at this place, and then `Late` where its last ideal time
    /// would be above 9 * 10^17 ps. After a fault the simulator is as it was. So is the wobble, but after `Late`: then
    /// it has drawn the message's words other than those of its timed edges.
    pub fn next(
        &mut self,
        message: &Message,
        wobble: &mut Wobble,
    ) -> Result<ArrayVec<Edge, MAX_EDGES>, SimFault>
        ensures { outcome_of result self.new wobble.new ≡ sim_next self.old message.now wobble.old }
    {
        match self {
            Sim::Sent(sim) => sim.next(message, wobble),
            Sim::Psi5(sim) => sim.next(message, wobble),
            Sim::Spc(sim) => sim.next(message, wobble),
            Sim::Tooth(sim) => sim.next(message, wobble),
        }
    }
}
