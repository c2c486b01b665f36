//! What a place stands for.
ghost use Rattle.std.specs.Prelude.{ℕ, List};
ghost use Rattle.line_base.specs.declared.edge.Span.{Span};
ghost use Rattle.psi5_slots.specs.History.{Event, placed_in};
ghost use Rattle.psi5_slots.specs.Meanings.{PlaceStands};

/// Does nothing; its contract is a law. Each place says that there was no sync pulse, or where the offset from the
/// last one lies: in the window with this number, in which no earlier one lies, or one does; in no window; or above
/// the last.
pub fn places_have_meaning()
    ensures { (windows : List Span) (history : List Event) (time : ℕ) → PlaceStands windows history time (placed_in windows history time) }
{}
