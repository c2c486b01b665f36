//! What holds of the lines of all bytes, over their definitions.
ghost use Rattle.std.specs.Prelude.{◌≡◌, ◌≢◌, ℕ, List, [], ◌∷◌, ◌++◌, flat_map, All};
ghost use Rattle.text_lines.specs.Inputs.{Stays};
ghost use Rattle.text_lines.specs.Lines.{ended_lines, open_line};

/// Does nothing; its contract is a law. Bytes are cut into lines at each LF and nowhere else: the lines
/// that ended, each with its LF, and then the line that goes on, are the bytes, and no line holds an LF.
pub fn lines_are_cut_at_each_line_feed()
    ensures joined { (bytes : List ℕ) → flat_map (λ line. line ++ 10 ∷ []) (ended_lines bytes) ++ open_line bytes ≡ bytes }
    ensures no_line_feed { (bytes : List ℕ) → All (λ line. All (λ byte. byte ≢ 10) line) (ended_lines bytes ++ open_line bytes ∷ []) }
{}

/// Does nothing; its contract is a law. The lines stand when more bytes come and when the input ends.
pub fn lines_grow()
    ensures { (bytes more : List ℕ) → Stays bytes more }
{}
