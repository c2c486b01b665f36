//! What the steps of serial messages stand for in the statuses of the frames.
ghost use Rattle.std.specs.Prelude.{◌++◌, [], ◌∷◌, All, List, ℕ, drop, length};
ghost use Rattle.sent_serial.specs.Short.{short_reading};
ghost use Rattle.sent_serial.specs.Enhanced.{enhanced_reading};
ghost use Rattle.sent_serial.specs.Meanings.{EnhancedMeans, ShortMeans};

/// Does nothing; its contract is a law. Each step by which the short messages of some statuses, or the
/// enhanced ones, grow with one status more stands for something in the statuses with this one last: a
/// message for frames that carry it, and a violated rule for the frames that violate it.
pub fn steps_have_meaning()
    ensures short { (before : List ℕ) (status : ℕ)
        → All (ShortMeans (before ++ status ∷ [])) (drop (length (short_reading before)) (short_reading (before ++ status ∷ []))) }
    ensures enhanced { (before : List ℕ) (status : ℕ)
        → All (EnhancedMeans (before ++ status ∷ [])) (drop (length (enhanced_reading before)) (enhanced_reading (before ++ status ∷ []))) }
{}
