//! What becomes of a script's messages.
ghost use Rattle.std.specs.Prelude.{◌≡◌, ℕ, ◌≤◌, None, List, map};
ghost use Rattle.rand_pcg.specs.Lcg.{Lcg};
ghost use Rattle.line_base.specs.declared.edge.Item.TheVariants as Item;
ghost use Rattle.receiver_core.specs.declared.message.Message.{Message};
ghost use Rattle.receiver_core.specs.declared.setup.ChannelSetup.{ChannelSetup};
ghost use Rattle.receiver_core.specs.Channels.{final};
ghost use Rattle.receiver_core.specs.Setups.{setup_fault_of};
ghost use Rattle.sensor_script.specs.Scripts.{script_from};
ghost use Rattle.sensor_sim.specs.Played.{played, refusal};
ghost use Rattle.sensor_sim.specs.Sims.{IsAccepted};
ghost use Rattle.scripts_heard.specs.AllGood.{AllGood};
ghost use Rattle.sensor_script.specs.Scripted.{IsScripted};

use crate::psi5::scripted_bursts_are_heard;
use crate::sent::scripted_frames_are_heard;
use crate::spc::scripted_answers_are_heard;
use crate::tooth::scripted_downlinks_are_heard;
use scripts_accepted::scripted_messages_are_never_refused;

/// Does nothing; its contract is a law. A simulator that is handed a script's messages up to a counted one of at most
/// number 100,000 refuses none of them. And a receiver that gets all edges that are played of them counts as many good
/// reports as messages are counted, and no bad one; whatever the seeds of the script and of the simulator are.
pub fn scripted_messages_are_all_heard()
    ensures sent { (setup : ChannelSetup) (first : Lcg) (seed count : ℕ) (messages : List Message) → IsAccepted setup → setup_fault_of setup ≡ None → count ≤ 100000
        → IsScripted (script_from setup first) count messages → refusal setup seed messages ≡ None }
    ensures heard { (setup : ChannelSetup) (first : Lcg) (seed count : ℕ) (messages : List Message) → IsAccepted setup → setup_fault_of setup ≡ None → count ≤ 100000
        → IsScripted (script_from setup first) count messages → AllGood (final setup (map Item.Edge (played setup seed messages))) count }
{
    scripted_messages_are_never_refused();
    scripted_frames_are_heard();
    scripted_bursts_are_heard();
    scripted_answers_are_heard();
    scripted_downlinks_are_heard();
}
