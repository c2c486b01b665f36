//! What the codes of a phase come to, and that what is told stays.
ghost use Rattle.std.specs.Prelude.{◌≡◌, ◌≤◌, ◌++◌, All, List, ℕ, drop, length};
ghost use Rattle.line_base.specs.Streams.{IsFrontOf};
ghost use Rattle.psi5_init.specs.declared.code.Code.{Code};
ghost use Rattle.psi5_init.specs.Phases.{phase};
ghost use Rattle.psi5_init.specs.Readings.{init_reading};
ghost use Rattle.psi5_init.specs.Meanings.{IsInitStep, told};

/// Does nothing; its contract is a law. A phase that is read from any place on comes to the blocks that are
/// whole from there on, each at its last code, and to the phase's end with the number of these blocks, where
/// at least two codes were read before it; and to nothing else.
pub fn phases_are_read()
    ensures { (repeats from : ℕ) (nibbles : List ℕ) → 1 ≤ repeats → init_reading repeats (drop from (phase repeats nibbles)) ≡ told repeats from nibbles }
{}

/// Does nothing; its contract is a law. Each code has one step, which stays when more codes come.
pub fn steps_stay()
    ensures as_many { (repeats : ℕ) (codes : List Code) → length (init_reading repeats codes) ≡ length codes }
    ensures front { (repeats : ℕ) (codes more : List Code) → IsFrontOf (init_reading repeats codes) (init_reading repeats (codes ++ more)) }
{}

/// Does nothing; its contract is a law. No step violates a rule but `InitOrder` and `InitRepeat`.
pub fn steps_break_two_rules()
    ensures { (repeats : ℕ) (codes : List Code) → All IsInitStep (init_reading repeats codes) }
{}
