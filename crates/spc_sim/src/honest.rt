//! What was sent on an SPC line is honest.
ghost use Rattle.std.specs.Prelude.{◌≡◌, ℕ, None, List, [], ◌∷◌, map};
ghost use Rattle.line_base.specs.declared.edge.Edge.{Edge};
ghost use Rattle.line_base.specs.declared.edge.Item.TheVariants as Item;
ghost use Rattle.line_base.specs.Orderly.{IsOrderly};
ghost use Rattle.sent_frame.specs.Setup.{fault_of};
ghost use Rattle.receiver_core.specs.declared.message.Message.{Message};
ghost use Rattle.receiver_core.specs.Traces.{numbered};
ghost use Rattle.sim_base.specs.Runs.{HasRun};
ghost use Rattle.spc_link.specs.Setup as spc;
ghost use Rattle.receiver_core.specs.SpcTraces.{IsSpcTrace};
ghost use Rattle.spc_sim.specs.SpcSims as spc_sim;
ghost use Rattle.spc_sim.specs.SpcStates.{SpcState};

/// Does nothing; its contract is a law. The edges that were sent on an SPC line are an honest trace of the messages
/// that were accepted, and orderly for the line, whatever wobble each call was given.
pub fn spc_edges_are_honest()
    ensures honest { (line : ℕ) (setup : spc.Settings) (state : SpcState) (messages : List Message) (edges : List Edge) → spc.fault_of setup.sent setup.windows setup.delay setup.quiet ≡ None
        → fault_of setup.sent.tick setup.sent.jitter setup.sent.nibbles ≡ None
        → HasRun SpcState spc_sim.spc_next (spc_sim.started line setup) state messages edges → IsSpcTrace setup messages (numbered 0 edges) }
    ensures orderly { (line : ℕ) (setup : spc.Settings) (state : SpcState) (messages : List Message) (edges : List Edge) → spc.fault_of setup.sent setup.windows setup.delay setup.quiet ≡ None
        → fault_of setup.sent.tick setup.sent.jitter setup.sent.nibbles ≡ None
        → HasRun SpcState spc_sim.spc_next (spc_sim.started line setup) state messages edges → IsOrderly (line ∷ []) (map Item.Edge edges) }
{}
