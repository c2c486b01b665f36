//! What a channel's simulator has sent is honest.
ghost use Rattle.std.specs.Prelude.{◌≡◌, None, List, map};
ghost use Rattle.line_base.specs.declared.edge.Edge.{Edge};
ghost use Rattle.line_base.specs.declared.edge.Item.TheVariants as Item;
ghost use Rattle.line_base.specs.Orderly.{IsOrderly};
ghost use Rattle.psi5_downlink.specs.Setup as downlink;
ghost use Rattle.psi5_frame.specs.Setup as psi5_frame;
ghost use Rattle.psi5_sim.specs.Psi5States.{AreAccepted};
ghost use Rattle.sent_frame.specs.Setup as frame;
ghost use Rattle.spc_link.specs.Setup as spc_link;
ghost use Rattle.receiver_core.specs.declared.message.Message.{Message};
ghost use Rattle.receiver_core.specs.declared.setup.ChannelSetup as declared;
ghost use Rattle.receiver_core.specs.Setups.{setup_fault_of};
ghost use Rattle.receiver_core.specs.Traces.{IsHonest};
ghost use Rattle.sim_base.specs.Runs.{HasRun};
ghost use Rattle.sensor_sim.specs.Sims.{IsAccepted, SimState, lines_of, sim_next, started_by};

use psi5_downlink::ToothSetup;
use psi5_frame::Psi5Setup;
use receiver_core::{ChannelSetup, SyncSlots};
use sent_frame::SentSetup;
use spc_link::SpcSetup;

/// Does nothing; its contract is a law. The frames of SENT that are set up are accepted.
fn frames_are_accepted(setup: &SentSetup)
    ensures { frame.fault_of setup.now.tick setup.now.jitter setup.now.nibbles ≡ None }
{
    let _tick = setup.tick();
}

/// Does nothing; its contract is a law. The frames of PSI5 that are set up are accepted.
fn bursts_are_accepted(setup: &Psi5Setup)
    ensures { psi5_frame.fault_of setup.now.bit setup.now.parts setup.now.jitter ≡ None }
{
    let _bit = setup.bit();
}

/// Does nothing; its contract is a law. Slots that are set up, if there are any, are accepted.
fn slots_are_accepted(slots: &Option<SyncSlots>)
    ensures { AreAccepted slots.now }
{
    if let Some(slots) = slots {
        let _frame = slots.setup.frame();
    }
}

/// Does nothing; its contract is a law. Triggers and answers that are set up are accepted.
fn transactions_are_accepted(setup: &SpcSetup)
    ensures transaction { spc_link.fault_of setup.now.sent setup.now.windows setup.now.delay setup.now.quiet ≡ None }
    ensures answer { frame.fault_of setup.now.sent.tick setup.now.sent.jitter setup.now.sent.nibbles ≡ None }
{
    let sent = setup.sent();
    frames_are_accepted(&sent);
}

/// Does nothing; its contract is a law. A downlink that is set up is accepted.
fn downlinks_are_accepted(setup: &ToothSetup)
    ensures { downlink.fault_of setup.now.period setup.now.jitter ≡ None }
{
    let _period = setup.period();
}

/// Does nothing; its contract is a law. What a channel's link is set up with is accepted.
pub fn setups_are_accepted(setup: &ChannelSetup)
    ensures { IsAccepted setup.now }
{
    match setup {
        ChannelSetup::Sent { setup, .. } => frames_are_accepted(setup),
        ChannelSetup::Psi5 { setup, slots, .. } => {
            bursts_are_accepted(setup);
            slots_are_accepted(slots);
        }
        ChannelSetup::Spc { setup, .. } => transactions_are_accepted(setup),
        ChannelSetup::Tooth { setup, .. } => downlinks_are_accepted(setup),
    }
}

/// Does nothing; its contract is a law. The edges that a simulator has sent are an honest trace of the messages that
/// it has accepted, and orderly for the channel's lines, whatever wobble each call was given.
pub fn simulated_edges_are_honest()
    ensures honest { (setup : declared.ChannelSetup) (state : SimState) (messages : List Message) (edges : List Edge) → IsAccepted setup → setup_fault_of setup ≡ None
        → HasRun SimState sim_next (started_by setup) state messages edges → IsHonest setup messages edges }
    ensures orderly { (setup : declared.ChannelSetup) (state : SimState) (messages : List Message) (edges : List Edge) → IsAccepted setup → setup_fault_of setup ≡ None
        → HasRun SimState sim_next (started_by setup) state messages edges → IsOrderly (lines_of setup) (map Item.Edge edges) }
{}
