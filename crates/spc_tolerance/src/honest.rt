//! What is read of an honest trace, and that there are honest traces of all messages.
ghost use Rattle.std.specs.Prelude.{◌≡◌, ℕ, None, true, List, [], ◌∷◌, ◌++◌, All, drop, map};
ghost use Rattle.line_base.specs.Edges.{NumberedEdge};
ghost use Rattle.sent_frame.specs.declared.frame.SentFrame.{SentFrame};
ghost use Rattle.sent_frame.specs.Setup as frame;
ghost use Rattle.spc_link.specs.Setup.{Settings, fault_of};
ghost use Rattle.spc_link.specs.Reading.{spc_ends, spc_reading};
ghost use Rattle.spc_tolerance.specs.FromFirst.{heard_of};
ghost use Rattle.spc_tolerance.specs.Nominal.{KeepsQuietTimes, exact_trace, nominal_edges};
ghost use Rattle.spc_tolerance.specs.Traces.{IsHonest};
ghost use Rattle.spc_tolerance.specs.Trains.{Answer, FitsMessage, IsTrain, SpcMessage, Transaction, message_of};

/// Does nothing; its contract is a law. What is read of an honest trace, with what its end adds, is exactly the
/// transactions that were sent, from the first on whose trigger's recorded fall is after quiet: each answer is
/// reported as good at the fall that ends its CRC pulse, each trigger that nobody answers at its rise, and
/// nothing else is reported. The trace may begin anywhere.
pub fn honest_answers_are_read()
    ensures { (setup : Settings) (messages : List SpcMessage) (edges : List NumberedEdge) → IsHonest setup messages edges
        → spc_reading setup edges ++ spc_ends setup edges ≡ heard_of setup messages edges }
{}

/// Does nothing; its contract is a law. All messages that fit a setup have an honest trace: they are sent with
/// the nominal tick, triggers and delays in the middle of their spans, and each transaction as soon as the quiet
/// time is kept.
pub fn nominal_answers_are_honest()
    ensures { (setup : Settings) (start : ℕ) (messages : List SpcMessage)
        → fault_of setup.sent setup.windows setup.delay setup.quiet ≡ None
        → frame.fault_of setup.sent.tick setup.sent.jitter setup.sent.nibbles ≡ None
        → All (FitsMessage setup) messages
        → IsHonest setup messages (nominal_edges setup start messages) }
{}

/// Does nothing; its contract is a law. However transactions may be sent, they have an honest trace, if each
/// keeps the quiet time behind the one before: that of an exact clock, which tells whole ns.
pub fn trains_have_honest_traces()
    ensures { (setup : Settings) (train : List Transaction)
        → fault_of setup.sent setup.windows setup.delay setup.quiet ≡ None
        → frame.fault_of setup.sent.tick setup.sent.jitter setup.sent.nibbles ≡ None
        → IsTrain setup train → KeepsQuietTimes setup train
        → IsHonest setup (map message_of train) (exact_trace setup train) }
{}

/// Does nothing; its contract is a law. An honest trace may be opened later, at any of its edges: what is left
/// of it is an honest trace of the same messages.
pub fn honest_traces_may_open_later()
    ensures { (setup : Settings) (messages : List SpcMessage) (edges : List NumberedEdge) (count : ℕ)
        → IsHonest setup messages edges → IsHonest setup messages (drop count edges) }
{}

/// Does nothing; its contract is a law. Where the last message is an answer, the rise that follows its last fall
/// may be missing in an honest trace.
pub fn a_last_rise_may_be_missing()
    ensures { (setup : Settings) (messages : List SpcMessage) (code : ℕ) (frame : SentFrame) (edges : List NumberedEdge) (rise : NumberedEdge) → rise.edge.level ≡ true
        → IsHonest setup (messages ++ Answer code frame ∷ []) (edges ++ rise ∷ []) → IsHonest setup (messages ++ Answer code frame ∷ []) edges }
{}
