//! What holds of every edge list, over the definitions of its lines, answers and edges.
ghost use Rattle.std.specs.Prelude.{◌≡◌, ℕ, ◌^◌, ◌≤◌, None, Some, Ok, List, [], ◌∷◌, ◌++◌};
ghost use Rattle.line_base.specs.Orderly.{IsOrderly};
ghost use Rattle.line_base.specs.declared.edge.Edge.{Edge};
ghost use Rattle.line_base.specs.declared.faults.LineFault.{LineFault};
ghost use Rattle.edge_trace.specs.Items.{items_on};
ghost use Rattle.edge_trace.specs.Limits.{edges_of, fault_of, answers_of, whole_edges_of, whole_answers_of};
ghost use Rattle.edge_trace.specs.MoreBytes.{Stays, TellsNoMore};
ghost use Rattle.edge_trace.specs.Ordered.{AreOrdered};
ghost use Rattle.edge_trace.specs.Texts.{narrow_text};

/// Does nothing; its contract is a law. The row that `edge_line` writes of an edge on a line 0 to 15, at most
/// at 10^15 ns, gives that one edge and nothing else: as a whole input, and as a line with its LF.
pub fn written_edges_are_read_back()
    ensures row { (edge : Edge) → edge.line ≤ 15 → edge.time ≤ 10 ^ 15 → whole_answers_of (narrow_text edge) ≡ Ok (edge ∷ []) ∷ [] }
    ensures line { (edge : Edge) → edge.line ≤ 15 → edge.time ≤ 10 ^ 15 → answers_of (narrow_text edge ++ 10 ∷ []) ≡ Ok (edge ∷ []) ∷ [] }
{}

/// Does nothing; its contract is a law. The edges of an edge list are on lines 0 to 15, their times don't go
/// back and are at most 10^15 ns, and their levels alternate on each line: so far, and of a whole input.
pub fn edges_are_ordered()
    ensures so_far { (bytes : List ℕ) → AreOrdered 0 (λ _. None) (edges_of bytes) }
    ensures whole { (bytes : List ℕ) → AreOrdered 0 (λ _. None) (whole_edges_of bytes) }
{}

/// Does nothing; its contract is a law. What a channel on any lines is handed of an edge list is orderly for
/// these lines, as a receiver asks for: so far, and of a whole input.
pub fn edges_are_orderly()
    ensures so_far { (bytes lines : List ℕ) → IsOrderly lines (items_on lines (edges_of bytes)) }
    ensures whole { (bytes lines : List ℕ) → IsOrderly lines (items_on lines (whole_edges_of bytes)) }
{}

/// Does nothing; its contract is a law. What was answered stands when more bytes come and when the input
/// ends, and so do the edges.
pub fn answers_grow()
    ensures answers { (bytes more : List ℕ) → Stays answers_of whole_answers_of bytes more }
    ensures edges { (bytes more : List ℕ) → Stays edges_of whole_edges_of bytes more }
{}

/// Does nothing; its contract is a law. Behind a fault nothing more is answered, whatever follows, and the
/// fault stays the same.
pub fn faults_stay()
    ensures { (bytes more : List ℕ) (number : ℕ) (fault : LineFault) → fault_of bytes ≡ Some (number, fault) → TellsNoMore bytes more (number, fault) }
{}
