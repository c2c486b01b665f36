//! What a SENT sensor has sent is honest.
ghost use Rattle.std.specs.Prelude.{◌≡◌, ℕ, None, List, [], ◌∷◌, map};
ghost use Rattle.line_base.specs.declared.edge.Edge.{Edge};
ghost use Rattle.line_base.specs.declared.edge.Item.TheVariants as Item;
ghost use Rattle.line_base.specs.Orderly.{IsOrderly};
ghost use Rattle.sent_frame.specs.Setup.{Settings, fault_of};
ghost use Rattle.receiver_core.specs.declared.message.Message.{Message};
ghost use Rattle.receiver_core.specs.declared.setup.Serial.{Serial};
ghost use Rattle.receiver_core.specs.SentTraces.{IsSentTrace};
ghost use Rattle.receiver_core.specs.Traces.{numbered};
ghost use Rattle.sim_base.specs.Runs.{HasRun};
ghost use Rattle.sent_sim.specs.SentSims.{sent_next, started};
ghost use Rattle.sent_sim.specs.SentStates.{SentState};

/// Does nothing; its contract is a law. The edges that a SENT sensor has sent are an honest trace of the
/// messages that it has accepted, and orderly for its line, whatever wobble each call was given.
pub fn sent_edges_are_honest()
    ensures honest { (line : ℕ) (setup : Settings) (form : Serial) (state : SentState) (messages : List Message) (edges : List Edge) → fault_of setup.tick setup.jitter setup.nibbles ≡ None
        → HasRun SentState sent_next (started line setup form) state messages edges → IsSentTrace setup form messages (numbered 0 edges) }
    ensures orderly { (line : ℕ) (setup : Settings) (form : Serial) (state : SentState) (messages : List Message) (edges : List Edge) → fault_of setup.tick setup.jitter setup.nibbles ≡ None
        → HasRun SentState sent_next (started line setup form) state messages edges → IsOrderly (line ∷ []) (map Item.Edge edges) }
{}
