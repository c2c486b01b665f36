//! How many messages of SPC are in time.
ghost use Rattle.std.specs.Prelude.{◌≡◌, ℕ, ◌<◌, true, List, length};
ghost use Rattle.rand_pcg.specs.Lcg.{Lcg};
ghost use Rattle.line_base.specs.declared.edge.Edge.{Edge};
ghost use Rattle.receiver_core.specs.declared.message.Message.{Message};
ghost use Rattle.receiver_core.specs.declared.setup.ChannelSetup.TheVariants.{Spc};
ghost use Rattle.message_lines.specs.Messages.{HasNibbles, message_fits};
ghost use Rattle.sim_base.specs.Runs.{HasRun};
ghost use Rattle.spc_link.specs.Setup.{Settings};
ghost use Rattle.sensor_sim.specs.Sims.{IsAccepted, SimState, sim_next, started_by};
ghost use Rattle.scripts_accepted.specs.Taken.{IsSent};

/// Does nothing; its contract is a law. Of messages that fit an SPC channel the first 300,000 are accepted by a
/// simulator of that setup, whatever wobble each call is given: where it has accepted fewer, the next is sent.
pub fn transactions_are_in_time()
    ensures { (line : ℕ) (setup : Settings) (state : SimState) (messages : List Message) (edges : List Edge) (message : Message) (g : Lcg) → IsAccepted (Spc line setup)
        → HasNibbles message → message_fits (Spc line setup) message ≡ true → length messages < 300000
        → HasRun SimState sim_next (started_by (Spc line setup)) state messages edges → IsSent (sim_next state message g) }
{}
