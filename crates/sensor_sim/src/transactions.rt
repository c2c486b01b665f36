//! What the edges of a call of SPC are like.
ghost use Rattle.std.specs.Prelude.{◌≡◌, ℕ, List};
ghost use Rattle.rand_pcg.specs.Lcg.{Lcg};
ghost use Rattle.line_base.specs.declared.edge.Edge.{Edge};
ghost use Rattle.receiver_core.specs.declared.message.Message.{Message};
ghost use Rattle.receiver_core.specs.declared.setup.ChannelSetup.TheVariants.{Spc};
ghost use Rattle.receiver_core.specs.Traces.{numbered};
ghost use Rattle.sim_base.specs.Outcomes.{Sent};
ghost use Rattle.sim_base.specs.Runs.{HasRun};
ghost use Rattle.spc_link.specs.Setup.{Settings};
ghost use Rattle.sensor_sim.specs.Sims.{IsAccepted, SimState, sim_next, started_by};
ghost use Rattle.sensor_sim.specs.Transactions.{EndsWithRise, FallsAfterQuiet, IsWholeTrace};

/// Does nothing; its contract is a law. The edges that were sent on an SPC line are an honest trace of which nothing
/// was before the opening. The trigger of each message falls after quiet, and the last edge of each message is a rise.
pub fn transactions_keep_quiet()
    ensures whole { (line : ℕ) (setup : Settings) (state : SimState) (messages : List Message) (edges : List Edge) → IsAccepted (Spc line setup)
        → HasRun SimState sim_next (started_by (Spc line setup)) state messages edges → IsWholeTrace setup messages (numbered 0 edges) }
    ensures quiet { (line : ℕ) (setup : Settings) (state behind : SimState) (messages : List Message) (edges more : List Edge) (message : Message) (g later : Lcg) → IsAccepted (Spc line setup)
        → HasRun SimState sim_next (started_by (Spc line setup)) state messages edges → sim_next state message g ≡ Sent more behind later → FallsAfterQuiet setup edges more }
    ensures rise { (line : ℕ) (setup : Settings) (state behind : SimState) (messages : List Message) (edges more : List Edge) (message : Message) (g later : Lcg) → IsAccepted (Spc line setup)
        → HasRun SimState sim_next (started_by (Spc line setup)) state messages edges → sim_next state message g ≡ Sent more behind later → EndsWithRise more }
{}
