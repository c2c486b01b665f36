//! What was sent on the lines of PSI5 is honest.
ghost use Rattle.std.specs.Prelude.{◌≡◌, ℕ, None, Option, List, map};
ghost use Rattle.line_base.specs.declared.edge.Edge.{Edge};
ghost use Rattle.line_base.specs.declared.edge.Item.TheVariants as Item;
ghost use Rattle.line_base.specs.Orderly.{IsOrderly};
ghost use Rattle.psi5_frame.specs.Setup.{Settings, fault_of};
ghost use Rattle.receiver_core.specs.declared.message.Message.{Message};
ghost use Rattle.receiver_core.specs.declared.setup.ChannelSetup.TheVariants.{Psi5};
ghost use Rattle.receiver_core.specs.declared.setup.SyncSlots.{SyncSlots};
ghost use Rattle.receiver_core.specs.Psi5Traces.{IsPsi5Trace};
ghost use Rattle.receiver_core.specs.Setups.{setup_fault_of};
ghost use Rattle.receiver_core.specs.Traces.{numbered};
ghost use Rattle.sim_base.specs.Runs.{HasRun};
ghost use Rattle.psi5_sim.specs.Psi5Sims as psi5_sim;
ghost use Rattle.psi5_sim.specs.Psi5States.{AreAccepted, Psi5State, lines_of};

/// Does nothing; its contract is a law. The edges that were sent on the lines of a PSI5 channel whose setup has no
/// fault are an honest trace of the messages that were accepted, and orderly for the lines, whatever wobble each call
/// was given.
pub fn psi5_edges_are_honest()
    ensures honest { (line : ℕ) (setup : Settings) (slots : Option SyncSlots) (init : Option ℕ) (state : Psi5State) (messages : List Message) (edges : List Edge) → fault_of setup.bit setup.parts setup.jitter ≡ None
        → AreAccepted slots → setup_fault_of (Psi5 line setup slots init) ≡ None
        → HasRun Psi5State psi5_sim.psi5_next (psi5_sim.started line setup slots) state messages edges → IsPsi5Trace setup slots messages (numbered 0 edges) }
    ensures orderly { (line : ℕ) (setup : Settings) (slots : Option SyncSlots) (init : Option ℕ) (state : Psi5State) (messages : List Message) (edges : List Edge) → fault_of setup.bit setup.parts setup.jitter ≡ None
        → AreAccepted slots → setup_fault_of (Psi5 line setup slots init) ≡ None
        → HasRun Psi5State psi5_sim.psi5_next (psi5_sim.started line setup slots) state messages edges → IsOrderly (lines_of line slots) (map Item.Edge edges) }
{}
