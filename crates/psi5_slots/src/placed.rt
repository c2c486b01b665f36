//! Where a burst begins.
use line_base::Rule;

/// Where a burst begins whose first edge is a rise.
#[derive(Clone, Copy, Debug, PartialEq, Eq)]
pub enum Placed {
    /// There was no sync pulse.
    Before,
    /// In the slot with this number, counted from 0 in the order of the windows, 0 to 7.
    Slot(u8),
    /// A rule is violated: `NoSync`, `NoSlot` or `SlotTwice`.
    Bad(Rule),
}
