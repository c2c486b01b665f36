//! What a control unit has sent by the tooth gap is honest.
ghost use Rattle.std.specs.Prelude.{◌≡◌, ℕ, None, List, [], ◌∷◌, map};
ghost use Rattle.line_base.specs.declared.edge.Edge.{Edge};
ghost use Rattle.line_base.specs.declared.edge.Item.TheVariants as Item;
ghost use Rattle.line_base.specs.Orderly.{IsOrderly};
ghost use Rattle.psi5_downlink.specs.Setup.{Settings, fault_of};
ghost use Rattle.receiver_core.specs.declared.message.Message.{Message};
ghost use Rattle.receiver_core.specs.ToothTraces.{IsToothTrace};
ghost use Rattle.receiver_core.specs.Traces.{numbered};
ghost use Rattle.sim_base.specs.Runs.{HasRun};
ghost use Rattle.psi5_downlink_sim.specs.ToothSims.{started, tooth_next};
ghost use Rattle.psi5_downlink_sim.specs.ToothStates.{ToothState};

/// Does nothing; its contract is a law. The edges that a control unit has sent by the tooth gap are an honest trace
/// of the messages that it has accepted, and orderly for its line, whatever wobble each call was given.
pub fn tooth_edges_are_honest()
    ensures honest { (line : ℕ) (setup : Settings) (state : ToothState) (messages : List Message) (edges : List Edge) → fault_of setup.period setup.jitter ≡ None
        → HasRun ToothState tooth_next (started line setup) state messages edges → IsToothTrace setup messages (numbered 0 edges) }
    ensures orderly { (line : ℕ) (setup : Settings) (state : ToothState) (messages : List Message) (edges : List Edge) → fault_of setup.period setup.jitter ≡ None
        → HasRun ToothState tooth_next (started line setup) state messages edges → IsOrderly (line ∷ []) (map Item.Edge edges) }
{}
