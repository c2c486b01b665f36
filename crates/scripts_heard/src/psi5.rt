//! What is heard of a script's bursts.
ghost use Rattle.std.specs.Prelude.{◌≡◌, ℕ, Option, None};
ghost use Rattle.psi5_frame.specs.Setup.{Settings};
ghost use Rattle.receiver_core.specs.declared.setup.ChannelSetup.TheVariants.{Psi5};
ghost use Rattle.receiver_core.specs.declared.setup.SyncSlots.{SyncSlots};
ghost use Rattle.receiver_core.specs.Setups.{setup_fault_of};
ghost use Rattle.sensor_sim.specs.Sims.{IsAccepted};
ghost use Rattle.scripts_heard.specs.Heard.{AreHeard};

/// Does nothing; its contract is a law. On a PSI5 channel a script's messages are all heard: each burst is good, in its
/// slot where there are slots, and where an initialisation is read its codes break no rule, nor do those behind it.
pub fn scripted_bursts_are_heard()
    ensures { (line : ℕ) (setup : Settings) (slots : Option SyncSlots) (init : Option ℕ) → IsAccepted (Psi5 line setup slots init) → setup_fault_of (Psi5 line setup slots init) ≡ None
        → AreHeard (Psi5 line setup slots init) }
{}
