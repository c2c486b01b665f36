//! What is read of an honest trace, and that there are honest traces of all messages.
ghost use Rattle.std.specs.Prelude.{◌≡◌, ℕ, ◌-◌, ◌≤◌, None, Option, List, [], All, drop, flat_map, length, map, take};
ghost use Rattle.psi5_downlink.specs.declared.down.Down.{Down};
ghost use Rattle.psi5_downlink.specs.Frames.{Fits};
ghost use Rattle.psi5_downlink.specs.Reading.{tooth_reading};
ghost use Rattle.psi5_downlink.specs.Rises.{Rise, intervals_of};
ghost use Rattle.psi5_downlink.specs.Setup.{Settings, fault_of};
ghost use Rattle.psi5_downlink_tolerance.specs.FromFirst.{from_first, gap_count, said};
ghost use Rattle.psi5_downlink_tolerance.specs.Nominal.{nominal_rises, rises_at, told_in_ns};
ghost use Rattle.psi5_downlink_tolerance.specs.Traces.{IsHonest, OpensBehind};
ghost use Rattle.psi5_downlink_tolerance.specs.Trains.{IsTrain, Lasts, Sending, Span, ideal_rises, train_periods};

/// Does nothing; its contract is a law. What is read of an honest trace is exactly the messages that were sent,
/// from the first on whose gap lies between two recorded rises: each is reported as good at the rise that ends
/// its frame, and nothing else is reported. The trace may begin anywhere, also within a gap or a frame.
pub fn honest_downlinks_are_read()
    ensures { (setup : Settings) (messages : List Down) (opening : Option ℕ) (rises : List Rise) → IsHonest setup messages opening rises
        → tooth_reading setup rises ≡ from_first setup messages rises }
{}

/// Does nothing; its contract is a law. Of an honest trace as many messages are read as it has intervals of six
/// periods, the last ones that were sent; and all of them, where no rise was left out.
pub fn recorded_gaps_are_read()
    ensures as_many { (setup : Settings) (messages : List Down) (opening : Option ℕ) (rises : List Rise) → IsHonest setup messages opening rises
        → flat_map said (tooth_reading setup rises) ≡ drop (length messages - gap_count (intervals_of setup.period rises)) messages }
    ensures all { (setup : Settings) (messages : List Down) (opening : Option ℕ) (rises : List Rise) (honest : IsHonest setup messages opening rises) → honest.left_out ≡ 0
        → flat_map said (tooth_reading setup rises) ≡ messages }
{}

/// Does nothing; its contract is a law. Messages that fit and are sent with exactly the nominal period and with
/// the shortest gaps are an honest trace if they are recorded with no jitter.
pub fn nominal_downlinks_are_honest()
    ensures { (setup : Settings) (opening : Option ℕ) (start idle : ℕ) (messages : List Down) → fault_of setup.period setup.jitter ≡ None
        → All (Fits setup.form) messages → 1 ≤ idle
        → IsHonest setup messages opening (nominal_rises setup start idle messages) }
{}

/// Does nothing; its contract is a law. However long the intervals last, messages have an honest trace: that of an
/// exact clock, which tells whole ns; and the line may be opened at any time.
pub fn trains_have_honest_traces()
    ensures { (setup : Settings) (opening : Option ℕ) (start idle left_out : ℕ) (sent : List Sending) (spans : List Span) → fault_of setup.period setup.jitter ≡ None
        → IsTrain setup.form sent → map (λ (span : Span). span.periods) spans ≡ train_periods setup.form sent idle → All (Lasts setup.period) spans
        → OpensBehind setup.jitter opening (take left_out (ideal_rises start spans))
        → IsHonest setup (map (λ (sending : Sending). sending.down) sent) opening (rises_at 1 (told_in_ns (drop left_out (ideal_rises start spans)))) }
{}

/// Does nothing; its contract is a law. A line with no rise behind its opening is an honest trace of no message.
pub fn silent_lines_are_honest()
    ensures { (setup : Settings) (opening : Option ℕ) → fault_of setup.period setup.jitter ≡ None → IsHonest setup [] opening [] }
{}
