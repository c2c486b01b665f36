//! One honest trace in numbers.
ghost use Rattle.std.specs.Prelude.{◌≡◌, Some, [], ◌∷◌};
ghost use Rattle.psi5_downlink.specs.Reading.{tooth_reading};
ghost use Rattle.psi5_downlink_tolerance.specs.Traces.{IsHonest};
ghost use Rattle.psi5_downlink_tolerance.specs.Worked.{cut_message, whole_message, worked_rises, worked_setup, worked_steps};

/// Does nothing; its contract is a law. A trace with jitter and intervals up to their bounds, which begins within
/// a frame, is honest, and the message behind that is read.
pub fn a_worked_trace_is_read()
    ensures honest { IsHonest worked_setup (cut_message ∷ whole_message ∷ []) (Some 11400000) worked_rises }
    ensures read { tooth_reading worked_setup worked_rises ≡ worked_steps }
{}
