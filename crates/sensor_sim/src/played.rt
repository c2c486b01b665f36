//! What one simulator plays of messages.
ghost use Rattle.std.specs.Prelude.{◌≡◌, ℕ, None, Some, List, map, take};
ghost use Rattle.line_base.specs.declared.edge.Item.TheVariants as Item;
ghost use Rattle.line_base.specs.Orderly.{IsOrderly};
ghost use Rattle.receiver_core.specs.declared.message.Message.{Message};
ghost use Rattle.receiver_core.specs.declared.setup.ChannelSetup as declared;
ghost use Rattle.receiver_core.specs.Setups.{setup_fault_of};
ghost use Rattle.receiver_core.specs.Traces.{IsHonest};
ghost use Rattle.sim_base.specs.declared.sim_fault.SimFault.{SimFault};
ghost use Rattle.sim_base.specs.Runs.{HasRun};
ghost use Rattle.sensor_sim.specs.Sims.{IsAccepted, SimState, lines_of, sim_next, started_by};
ghost use Rattle.sensor_sim.specs.Played.{accepted, played, refusal};

/// Does nothing; its contract is a law. What is played of messages is what a simulator has sent that has accepted
/// those before the first that is refused; so it is an honest trace of these, and orderly for the channel's lines.
pub fn played_edges_are_honest()
    ensures run { (setup : declared.ChannelSetup) (seed : ℕ) (messages : List Message)
        → (state : SimState) × HasRun SimState sim_next (started_by setup) state (accepted setup seed messages) (played setup seed messages) }
    ensures all { (setup : declared.ChannelSetup) (seed : ℕ) (messages : List Message) → refusal setup seed messages ≡ None → accepted setup seed messages ≡ messages }
    ensures before { (setup : declared.ChannelSetup) (seed index : ℕ) (fault : SimFault) (messages : List Message) → refusal setup seed messages ≡ Some (index, fault)
        → accepted setup seed messages ≡ take index messages }
    ensures honest { (setup : declared.ChannelSetup) (seed : ℕ) (messages : List Message) → IsAccepted setup → setup_fault_of setup ≡ None
        → IsHonest setup (accepted setup seed messages) (played setup seed messages) }
    ensures orderly { (setup : declared.ChannelSetup) (seed : ℕ) (messages : List Message) → IsAccepted setup → setup_fault_of setup ≡ None
        → IsOrderly (lines_of setup) (map Item.Edge (played setup seed messages)) }
{}
