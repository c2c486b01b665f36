//! What is heard of a script's answers.
ghost use Rattle.std.specs.Prelude.{ℕ};
ghost use Rattle.spc_link.specs.Setup.{Settings};
ghost use Rattle.receiver_core.specs.declared.setup.ChannelSetup.TheVariants.{Spc};
ghost use Rattle.sensor_sim.specs.Sims.{IsAccepted};
ghost use Rattle.scripts_heard.specs.Heard.{AreHeard};

/// Does nothing; its contract is a law. On an SPC channel a script's messages are all heard: each answer is good.
pub fn scripted_answers_are_heard()
    ensures { (line : ℕ) (setup : Settings) → IsAccepted (Spc line setup) → AreHeard (Spc line setup) }
{}
