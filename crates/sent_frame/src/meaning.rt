//! What the reports of a line's edges stand for in its pulses.
ghost use Rattle.std.specs.Prelude.{All, List};
ghost use Rattle.line_base.specs.Edges.{NumberedEdge};
ghost use Rattle.sent_frame.specs.Setup.{Settings};
ghost use Rattle.sent_frame.specs.Pulses.{pulses_of};
ghost use Rattle.sent_frame.specs.Reading.{sent_reading};
ghost use Rattle.sent_frame.specs.Frames.{Means};

/// Does nothing; its contract is a law. Each report of a line's edges stands for something in the pulses
/// of these edges: a good frame for pulses that carry it, and a fault for the pulse that breaks its rule.
pub fn reports_have_meaning()
    ensures { (setup : Settings) (edges : List NumberedEdge) → All (Means setup (pulses_of edges)) (sent_reading setup edges) }
{}
