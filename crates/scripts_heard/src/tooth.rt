//! What is heard of a script's downlink frames.
ghost use Rattle.std.specs.Prelude.{ℕ};
ghost use Rattle.psi5_downlink.specs.Setup.{Settings};
ghost use Rattle.receiver_core.specs.declared.setup.ChannelSetup.TheVariants.{Tooth};
ghost use Rattle.sensor_sim.specs.Sims.{IsAccepted};
ghost use Rattle.scripts_heard.specs.Heard.{AreHeard};

/// Does nothing; its contract is a law. On a tooth-gap channel a script's messages are all heard: each downlink frame
/// is good.
pub fn scripted_downlinks_are_heard()
    ensures { (line : ℕ) (setup : Settings) → IsAccepted (Tooth line setup) → AreHeard (Tooth line setup) }
{}
