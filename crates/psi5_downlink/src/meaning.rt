//! What the steps of a sync line stand for.
ghost use Rattle.std.specs.Prelude.{◌≡◌, ◌++◌, All, Bool, List};
ghost use Rattle.line_base.specs.Streams.{IsFrontOf};
ghost use Rattle.psi5_downlink.specs.Setup.{Settings};
ghost use Rattle.psi5_downlink.specs.Frames.{Fits, frame_of};
ghost use Rattle.psi5_downlink.specs.Rises.{Rise};
ghost use Rattle.psi5_downlink.specs.Reading.{forbidden, judged, tooth_reading};
ghost use Rattle.psi5_downlink.specs.Meanings.{Means};

use crate::down::{Down, Form};
use crate::verdict::Verdict;

/// Does nothing; its contract is a law. No two values that fit their fields share the bits of a frame.
pub fn frames_differ()
    ensures { (form : Form) (d e : Down) → Fits form d → Fits form e → frame_of form d ≡ frame_of form e → d ≡ e }
{}

/// Does nothing; its contract is a law. The bits behind a start come to a whole frame exactly where they are the
/// bits of what it says.
pub fn whole_frames_are_sent()
    ensures whole { (form : Form) (bits : List Bool) (down : Down) → judged form bits (forbidden bits) ≡ Verdict.Whole down → Fits form down × (bits ≡ frame_of form down) }
    ensures frame { (form : Form) (down : Down) → Fits form down → judged form (frame_of form down) (forbidden (frame_of form down)) ≡ Verdict.Whole down }
{}

/// Does nothing; its contract is a law. Each step that is told of a line's rises stands for a frame among them: a
/// good one for the bits of what it says, and a bad one for the first rule that is violated, at the rise that
/// violates it.
pub fn steps_have_meaning()
    ensures { (setup : Settings) (rises : List Rise) → All (Means setup rises) (tooth_reading setup rises) }
{}

/// Does nothing; its contract is a law. What is told stays when more rises come.
pub fn steps_stay()
    ensures { (setup : Settings) (rises more : List Rise) → IsFrontOf (tooth_reading setup rises) (tooth_reading setup (rises ++ more)) }
{}
