//! The sync line of a PSI5 channel, and the slots of its bursts.
ghost use Rattle.std.specs.Prelude.{◌≡◌, ◌<◌, ◌++◌, [], ◌∷◌, List, ℕ, Some, true, false};
ghost use Rattle.line_base.specs.Edges.{NumberedEdge};
ghost use Rattle.psi5_frame.specs.Setup.{Settings};
ghost use Rattle.receiver_core.specs.declared.setup.SyncSlots.{SyncSlots};
ghost use Rattle.receiver_core.specs.Psi5Places.{burst_place, is_on_sync, place_in_slots, starts_added};
ghost use Rattle.receiver_core.specs.Psi5Stretches.{LineStandsFor, IsPlace};

use crate::psi5_burst::BurstPlace;
use crate::setup::SyncSlots;
use line_base::Edge;
use psi5_slots::{Placed, SlotReader};

/// Reads the edges of the sync line, and says where bursts stand.
#[derive(Debug, Drop)]
pub struct SyncLine {
    /// The line.
    line: u8,
    /// Whether an edge of it was seen.
    opened: bool,
    /// Reads the slots.
    slots: SlotReader,
}

/// Where a burst stands whose first edge, a rise, has this number.
fn placed_at(number: u64, placed: Placed) -> BurstPlace
    requires { (slot : ℕ) → placed ≡ Placed.Slot slot → slot < 8 }
    ensures place { result ≡ place_in_slots number placed }
    ensures valid { IsPlace result }
{
    match placed {
        Placed::Before => BurstPlace::Unread,
        Placed::Slot(slot) => BurstPlace::Slot(slot),
        Placed::Bad(rule) => BurstPlace::Outside {
            first: number,
            wrong: rule,
        },
    }
}

impl SyncLine {
    /// The sync line of these slots, of which no edge was seen.
    pub fn new(slots: SyncSlots) -> SyncLine
        ensures { (s : Settings) → LineStandsFor s slots result [] }
    {
        SyncLine {
            line: slots.line,
            opened: false,
            slots: SlotReader::new(slots.setup),
        }
    }

    /// Whether the edge is on the line.
    #[inline(always)]
    pub fn has(&self, edge: Edge) -> bool
        ensures { (s : Settings) (slots : SyncSlots) (seen : List NumberedEdge) (number : ℕ) → LineStandsFor s slots self.now seen
            → result ≡ is_on_sync (Some slots) (record { number = number; edge = edge }) }
    {
        edge.line == self.line
    }

    /// Takes an edge of the line. A rise that isn't the opening is a sync.
    pub fn push(&mut self, edge: Edge)
        ensures { (s : Settings) (slots : SyncSlots) (seen : List NumberedEdge) (number : ℕ) → LineStandsFor s slots self.old seen
            → is_on_sync (Some slots) (record { number = number; edge = edge }) ≡ true
            → LineStandsFor s slots self.new (seen ++ record { number = number; edge = edge } ∷ []) }
    {
        if edge.level && self.opened {
            self.slots.sync(edge.time);
            return;
        }
        self.opened = true;
    }

    /// Takes an edge of the data line that is the first of a burst, with its number, and says where the burst
    /// stands.
    pub fn place(&mut self, number: u64, edge: Edge) -> BurstPlace
        ensures place { (s : Settings) (slots : SyncSlots) (seen : List NumberedEdge) → LineStandsFor s slots self.old seen
            → result ≡ burst_place s (Some slots) seen (record { number = number; edge = edge }) }
        ensures valid { IsPlace result }
        ensures stands { (s : Settings) (slots : SyncSlots) (seen : List NumberedEdge) → LineStandsFor s slots self.old seen
            → is_on_sync (Some slots) (record { number = number; edge = edge }) ≡ false
            → starts_added s (Some slots) seen (record { number = number; edge = edge }) ≡ number ∷ []
            → LineStandsFor s slots self.new (seen ++ record { number = number; edge = edge } ∷ []) }
    {
        if edge.level {
            let placed = self.slots.place(edge.time);
            return placed_at(number, placed);
        }
        if self.slots.synced() {
            BurstPlace::Free
        } else {
            BurstPlace::Unread
        }
    }

    /// Forgets all edges.
    pub fn reset(&mut self)
        ensures { (s : Settings) (slots : SyncSlots) (seen : List NumberedEdge) → LineStandsFor s slots self.old seen → LineStandsFor s slots self.new [] }
    {
        self.opened = false;
        self.slots.reset();
    }
}
