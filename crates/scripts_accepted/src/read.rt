//! What becomes of messages that are read.
ghost use Rattle.std.specs.Prelude.{◌≡◌, ℕ, true, Ok, List};
ghost use Rattle.rand_pcg.specs.Lcg.{Lcg};
ghost use Rattle.line_base.specs.declared.edge.Edge.{Edge};
ghost use Rattle.receiver_core.specs.declared.message.Message.{Message};
ghost use Rattle.receiver_core.specs.declared.setup.ChannelSetup.{ChannelSetup};
ghost use Rattle.message_lines.specs.Lines.{message_in};
ghost use Rattle.message_lines.specs.Messages.{HasNibbles, message_fits};
ghost use Rattle.sim_base.specs.Runs.{HasRun};
ghost use Rattle.sensor_sim.specs.Sims.{SimState, sim_next, started_by};
ghost use Rattle.scripts_accepted.specs.Taken.{IsOfSetup};

/// Does nothing; its contract is a law. A message that fits a channel, and whose data nibbles are 1 to 6 numbers below
/// 16 where it has a frame, is never refused as `Kind` or as `Range` by a simulator of that setup, whatever it has
/// accepted before and whatever wobble each call was given. Nor is a message that is read of a line.
pub fn read_messages_are_of_the_setup()
    ensures fitting { (setup : ChannelSetup) (state : SimState) (messages : List Message) (edges : List Edge) (message : Message) (g : Lcg) → HasNibbles message → message_fits setup message ≡ true
        → HasRun SimState sim_next (started_by setup) state messages edges → IsOfSetup (sim_next state message g) }
    ensures lines { (setup : ChannelSetup) (state : SimState) (messages : List Message) (edges : List Edge) (line : List ℕ) (message : Message) (g : Lcg) → message_in setup line ≡ Ok message
        → HasRun SimState sim_next (started_by setup) state messages edges → IsOfSetup (sim_next state message g) }
{}
