//! What the reports of a line's edges stand for.
ghost use Rattle.std.specs.Prelude.{◌≡◌, ◌≤◌, ◌++◌, All, List, None, Some, ℕ};
ghost use Rattle.line_base.specs.Edges.{NumberedEdge};
ghost use Rattle.line_base.specs.Streams.{IsFrontOf};
ghost use Rattle.spc_link.specs.Setup.{Settings, fault_of};
ghost use Rattle.spc_link.specs.Reading.{code_of, spc_at_end, spc_ends, spc_reading};
ghost use Rattle.spc_link.specs.Transactions.{IsInWindow, Means, MeansAtEnd};

/// Does nothing; its contract is a law. Each report of a line's edges stands for something in these edges: a good
/// answer for a trigger of its code, a delay and a frame of SENT; a fault for what breaks its rule; and a missing
/// answer for a trigger with a code, and the next fall after quiet or, at the end, no edge behind it.
pub fn steps_have_meaning()
    ensures so_far { (setup : Settings) (edges : List NumberedEdge) → All (Means setup edges) (spc_reading setup edges) }
    ensures at_end { (setup : Settings) (edges : List NumberedEdge) → All (MeansAtEnd setup edges) (spc_ends setup edges) }
{}

/// Does nothing; its contract is a law. What is told so far is a front of what is told when more comes, and of
/// what is told at the end.
pub fn steps_grow()
    ensures so_far { (setup : Settings) (edges more : List NumberedEdge) → IsFrontOf (spc_reading setup edges) (spc_reading setup (edges ++ more)) }
    ensures at_end { (setup : Settings) (edges more : List NumberedEdge) → IsFrontOf (spc_reading setup edges) (spc_at_end setup (edges ++ more)) }
{}

/// Does nothing; its contract is a law. A width in one of the windows of a setup asks for that window's number, and
/// no other window has it.
pub fn windows_are_codes()
    ensures { (setup : Settings) (code width : ℕ) → fault_of setup.sent setup.windows setup.delay setup.quiet ≡ None → 1 ≤ setup.sent.tick
        → IsInWindow setup code width → code_of setup width ≡ Some code }
{}
