//! One honest trace in numbers.
ghost use Rattle.std.specs.Prelude.{◌≡◌, [], ◌∷◌};
ghost use Rattle.sent_frame.specs.Reading.{sent_reading};
ghost use Rattle.sent_tolerance.specs.Traces.{IsHonest};
ghost use Rattle.sent_tolerance.specs.Worked.{cut_frame, whole_frame, worked_edges, worked_reports, worked_setup};

/// Does nothing; its contract is a law. A trace with jitter, drift and own ticks up to their bounds, which begins
/// within a frame, is honest, and the frame behind that is read.
pub fn a_worked_trace_is_read()
    ensures honest { IsHonest worked_setup (cut_frame ∷ whole_frame ∷ []) worked_edges }
    ensures read { sent_reading worked_setup worked_edges ≡ worked_reports }
{}
