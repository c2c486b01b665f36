//! What becomes of a script's messages.
ghost use Rattle.std.specs.Prelude.{◌≡◌, ℕ, ◌<◌, None};
ghost use Rattle.rand_pcg.specs.Lcg.{Lcg};
ghost use Rattle.receiver_core.specs.declared.setup.ChannelSetup.{ChannelSetup};
ghost use Rattle.receiver_core.specs.Setups.{setup_fault_of};
ghost use Rattle.sensor_script.specs.Scripts.{ScriptState, script_next};
ghost use Rattle.sensor_sim.specs.Sims.{IsAccepted, SimState, sim_next};
ghost use Rattle.scripts_accepted.specs.Followed.{HasFollowed};
ghost use Rattle.scripts_accepted.specs.Taken.{IsSent};

/// Does nothing; its contract is a law. The messages of a script are accepted by a simulator of the same setup, one
/// after the other, up to the 100,000th counted one: where it has accepted those so far, and fewer than 100,000 of them
/// are frames, answers, bursts or downlink frames, the next is sent, whatever the script's seed and whatever wobble each
/// call is given.
pub fn scripted_messages_are_never_refused()
    ensures { (setup : ChannelSetup) (first : Lcg) (script : ScriptState) (state : SimState) (count : ℕ) (g : Lcg) → IsAccepted setup → setup_fault_of setup ≡ None
        → HasFollowed setup first script state count → count < 100000 → IsSent (sim_next state (script_next script).message g) }
{}
