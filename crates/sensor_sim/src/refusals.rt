//! What a message leaves that is refused.
ghost use Rattle.rand_pcg.specs.Lcg.{Lcg};
ghost use Rattle.receiver_core.specs.declared.message.Message.{Message};
ghost use Rattle.sensor_sim.specs.Refusals.{ChangesNothing, past_own_words};
ghost use Rattle.sensor_sim.specs.Sims.{SimState, sim_next};

/// Does nothing; its contract is a law. A message that is refused leaves the simulator as it was. It draws no word
/// either, but where it comes too late: then it has drawn its words other than those of its timed edges.
pub fn refused_messages_change_nothing()
    ensures { (state : SimState) (message : Message) (g : Lcg) → ChangesNothing state g (past_own_words state message g) (sim_next state message g) }
{}
