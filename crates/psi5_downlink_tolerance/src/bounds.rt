//! Where the bounds on what a control unit sends lie.
ghost use Rattle.std.specs.Prelude.{◌≡◌, ℕ, ◌+◌, ◌*◌};
ghost use Rattle.psi5_downlink.specs.declared.down.Form.{Form};
ghost use Rattle.psi5_downlink_tolerance.specs.Trains.{IsSent, Lasts, Sending, Span};

/// Does nothing; its contract is a law. An interval lasts up to a twentieth less or more than its periods, and
/// not one ps more. The period is in ns, and an interval's length in ps.
pub fn intervals_end_at_a_twentieth()
    ensures shortest { (period count : ℕ) → Lasts period (record { periods = count; length = 950 * (count * period) }) }
    ensures too_short { (period : ℕ) (span : Span) → span.length + 1 ≡ 950 * (span.periods * period) → Lasts period span → ⊥ }
    ensures longest { (period count : ℕ) → Lasts period (record { periods = count; length = 1050 * (count * period) }) }
    ensures too_long { (period count : ℕ) → Lasts period (record { periods = count; length = 1050 * (count * period) + 1 }) → ⊥ }
{}

/// Does nothing; its contract is a law. In a gap five pulses may be missing, and not four.
pub fn gaps_miss_five_pulses()
    ensures shortest { (form : Form) (sending : Sending) → IsSent form sending → IsSent form (record sending { missing = 5 }) }
    ensures too_short { (form : Form) (sending : Sending) → IsSent form (record sending { missing = 4 }) → ⊥ }
{}
