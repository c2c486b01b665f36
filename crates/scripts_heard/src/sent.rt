//! What is heard of a script's frames.
ghost use Rattle.std.specs.Prelude.{ℕ};
ghost use Rattle.sent_frame.specs.Setup.{Settings};
ghost use Rattle.sent_fast.specs.declared.layout.Layout.{Layout};
ghost use Rattle.receiver_core.specs.declared.setup.ChannelSetup.TheVariants.{Sent};
ghost use Rattle.receiver_core.specs.declared.setup.Serial.{Serial};
ghost use Rattle.scripts_heard.specs.Heard.{AreHeard};

/// Does nothing; its contract is a law. On a SENT channel a script's messages are all heard: each frame is good, no
/// counter jumps, and no nibbles break their layout's rule.
pub fn scripted_frames_are_heard()
    ensures { (line : ℕ) (setup : Settings) (layout : Layout) (form : Serial) → AreHeard (Sent line setup layout form) }
{}
