//! What is read of an honest trace, and that there are honest traces of all frames.
ghost use Rattle.std.specs.Prelude.{◌≡◌, ℕ, ◌+◌, ◌≤◌, None, true, List, All, drop, map, take};
ghost use Rattle.line_base.specs.Edges.{NumberedEdge};
ghost use Rattle.sent_frame.specs.declared.frame.SentFrame.{SentFrame};
ghost use Rattle.sent_frame.specs.Setup.{Settings, fault_of};
ghost use Rattle.sent_frame.specs.Reading.{sent_reading};
ghost use Rattle.sent_tolerance.specs.FromFirst.{good_step, heard_of};
ghost use Rattle.sent_tolerance.specs.Nominal.{AreJittered, edges_of, nominal_edges, nominal_falls, told_in_ns};
ghost use Rattle.sent_tolerance.specs.Traces.{IsHonest};
ghost use Rattle.sent_tolerance.specs.Trains.{FitsSetup, IsTrain, Sending, ideal_falls};

/// Does nothing; its contract is a law. What is read of an honest trace is exactly the frames that were sent,
/// from the first on whose calibration pulse begins with a recorded fall: each is reported as good at the fall
/// that ends its CRC pulse, and nothing else is reported. The trace may begin anywhere, with or without pauses.
pub fn honest_frames_are_read()
    ensures { (setup : Settings) (frames : List SentFrame) (edges : List NumberedEdge) → IsHonest setup frames edges
        → sent_reading setup edges ≡ map good_step (heard_of setup frames edges) }
{}

/// Does nothing; its contract is a law. Frames that are sent with the nominal tick and recorded with no jitter
/// are an honest trace.
pub fn nominal_frames_are_honest()
    ensures { (setup : Settings) (start pause : ℕ) (frames : List SentFrame) → fault_of setup.tick setup.jitter setup.nibbles ≡ None
        → All (FitsSetup setup) frames → (setup.pause ≡ true → (12 ≤ pause) × (pause ≤ 768))
        → IsHonest setup frames (nominal_edges setup start pause frames) }
{}

/// Does nothing; its contract is a law. Frames that are sent with the nominal tick are an honest trace wherever
/// their falls are recorded, as long as each is off by at most the jitter; and the line may be opened at any
/// time, so that the falls before that are left out.
pub fn jittered_frames_are_honest()
    ensures { (setup : Settings) (start pause left_out opening : ℕ) (frames : List SentFrame) (times : List ℕ)
        → fault_of setup.tick setup.jitter setup.nibbles ≡ None
        → All (FitsSetup setup) frames → (setup.pause ≡ true → (12 ≤ pause) × (pause ≤ 768))
        → All (λ fall. fall ≤ opening + setup.jitter) (take left_out (nominal_falls setup start pause frames))
        → AreJittered setup.jitter (drop left_out (nominal_falls setup start pause frames)) times
        → IsHonest setup frames (edges_of setup opening times) }
{}

/// Does nothing; its contract is a law. Whatever ticks a sensor may send frames with, they have an honest trace:
/// that of an exact clock, which tells whole ns.
pub fn trains_have_honest_traces()
    ensures { (setup : Settings) (start : ℕ) (sent : List Sending) → fault_of setup.tick setup.jitter setup.nibbles ≡ None → IsTrain setup sent
        → IsHonest setup (map (λ (sending : Sending). sending.frame) sent) (edges_of setup 0 (told_in_ns (ideal_falls setup start sent))) }
{}
