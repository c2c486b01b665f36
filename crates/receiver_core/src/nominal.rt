//! Messages of each kind of channel, and an honest trace of them.
ghost use Rattle.std.specs.Prelude.{◌≡◌, ℕ, ◌≤◌, None, Option, List};
ghost use Rattle.receiver_core.specs.declared.message.Message.{Message};
ghost use Rattle.receiver_core.specs.declared.setup.ChannelSetup.TheVariants.{Sent, Psi5, Spc, Tooth};
ghost use Rattle.receiver_core.specs.declared.setup.Serial.{Serial};
ghost use Rattle.receiver_core.specs.declared.setup.SyncSlots.{SyncSlots};
ghost use Rattle.receiver_core.specs.Traces.{IsHonest};
ghost use Rattle.sent_fast.specs.declared.layout.Layout.{Layout};
ghost use Rattle.sent_frame.specs.Setup as sent;
ghost use Rattle.spc_link.specs.Setup as spc;
ghost use Rattle.psi5_frame.specs.Setup as frames;
ghost use Rattle.psi5_downlink.specs.Setup as tooth;
ghost use Rattle.receiver_core.specs.Psi5Traces.{windows_of};
ghost use Rattle.psi5_tolerance.specs.Exact.{AreTwoLines};
ghost use Rattle.psi5_tolerance.specs.Traces.{AreSlots};
ghost use Rattle.psi5_tolerance.specs.Trains.{IsTrain, Sending};
ghost use Rattle.receiver_core.specs.Nominal.{FitsSent, FitsSpc, FitsTooth, SaysPsi5, HasPause, psi5_edges, sent_edges, spc_edges, tooth_edges};

/// Does nothing; its contract is a law. Messages of SENT that the setup has room for, with their serial messages,
/// are honest where their frames are sent from this time in ns on, with the nominal tick and with pauses of so
/// many ticks.
pub fn sent_messages_have_honest_traces()
    ensures { (line start pause : ℕ) (setup : sent.Settings) (layout : Layout) (serial : Serial) (messages : List Message)
        → FitsSent setup serial messages → HasPause setup pause → IsHonest (Sent line setup layout serial) messages (sent_edges setup start pause messages) }
{}

/// Does nothing; its contract is a law. Messages of SPC that the setup has room for are honest where they are sent
/// from this time in ps on, with the nominal tick, widths and delays in the middle of their spans, and each as soon
/// as the quiet time is kept.
pub fn spc_messages_have_honest_traces()
    ensures { (line start : ℕ) (setup : spc.Settings) (messages : List Message)
        → FitsSpc setup messages → IsHonest (Spc line setup) messages (spc_edges setup start messages) }
{}

/// Does nothing; its contract is a law. Messages of PSI5, on a bus or without slots, are honest where they are sent
/// as this train, and each of its edges is recorded at the nearest ns.
pub fn psi5_messages_have_honest_traces()
    ensures { (line : ℕ) (setup : frames.Settings) (slots : Option SyncSlots) (init : Option ℕ) (sent : List Sending) (messages : List Message)
        → frames.fault_of setup.bit setup.parts setup.jitter ≡ None → AreSlots setup (windows_of slots) → AreTwoLines line (windows_of slots)
        → IsTrain setup (windows_of slots) sent → SaysPsi5 sent messages
        → IsHonest (Psi5 line setup slots init) messages (psi5_edges line setup slots sent) }
{}

/// Does nothing; its contract is a law. Downlink frames whose values fit are honest where they are sent from this
/// time in ns on, with the nominal period, gaps of five missing pulses, and at least one interval of one period
/// before each.
pub fn downlink_messages_have_honest_traces()
    ensures { (line start idle : ℕ) (setup : tooth.Settings) (messages : List Message)
        → FitsTooth setup messages → 1 ≤ idle → IsHonest (Tooth line setup) messages (tooth_edges setup start idle messages) }
{}
