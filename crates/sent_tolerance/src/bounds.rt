//! Where the bounds on what a SENT sensor sends lie.
ghost use Rattle.std.specs.Prelude.{◌≡◌, true};
ghost use Rattle.sent_frame.specs.Setup.{Settings};
ghost use Rattle.sent_tolerance.specs.Trains.{IsSent, Sending};

/// Does nothing; its contract is a law. A pause may have 12 ticks or 768, and neither 11 nor 769.
pub fn pauses_end_at_12_and_768_ticks()
    ensures shortest { (setup : Settings) (sending : Sending) → IsSent setup sending → IsSent setup (record sending { pause = 12 }) }
    ensures too_short { (setup : Settings) (sending : Sending) → setup.pause ≡ true → IsSent setup (record sending { pause = 11 }) → ⊥ }
    ensures longest { (setup : Settings) (sending : Sending) → IsSent setup sending → IsSent setup (record sending { pause = 768 }) }
    ensures too_long { (setup : Settings) (sending : Sending) → setup.pause ≡ true → IsSent setup (record sending { pause = 769 }) → ⊥ }
{}
