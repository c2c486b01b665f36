//! What is heard of the intervals between pulses that a control unit sends.
ghost use Rattle.std.specs.Prelude.{◌≡◌, ℕ, ◌≤◌, None};
ghost use Rattle.link_math.specs.Periods.{periods_in};
ghost use Rattle.psi5_downlink.specs.Setup.{Settings, fault_of};
ghost use Rattle.link_tolerance.specs.Recorded.{IsHeard};
ghost use Rattle.psi5_downlink_tolerance.specs.Trains.{Lasts, Span};

/// Does nothing; its contract is a law. An interval of up to five periods is heard as it is, and one of six or more
/// as six, where each of its two rises is recorded with jitter. So what begins a frame is a gap, and nothing else.
pub fn intervals_are_heard()
    ensures few { (setup : Settings) (span : Span) (distance : ℕ) → fault_of setup.period setup.jitter ≡ None → Lasts setup.period span
        → IsHeard setup.jitter span.length distance → span.periods ≤ 5 → periods_in distance setup.period ≡ span.periods }
    ensures many { (setup : Settings) (span : Span) (distance : ℕ) → fault_of setup.period setup.jitter ≡ None → Lasts setup.period span
        → IsHeard setup.jitter span.length distance → 6 ≤ span.periods → periods_in distance setup.period ≡ 6 }
{}
