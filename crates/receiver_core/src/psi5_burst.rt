//! Where a burst stands in its channel, and what is told of it.
ghost use Rattle.std.specs.Prelude.{◌≡◌, IfSome, option_to_list};
ghost use Rattle.psi5_frame.specs.Setup.{Settings};
ghost use Rattle.psi5_frame.specs.Meanings.{BurstFits};
ghost use Rattle.receiver_core.specs.Psi5Reports.{told_of};
ghost use Rattle.receiver_core.specs.Psi5Stretches.{IsPlace, IsTold};

use line_base::Rule;
use psi5_frame::{Burst, Payload};

/// Where a burst stands whose first edge was seen.
#[derive(Clone, Copy, Debug, PartialEq, Eq)]
pub enum BurstPlace {
    /// It isn't read, since no sync came before it.
    Unread,
    /// It asks for no slot: the channel has none, or its first edge is a fall.
    Free,
    /// In this slot, 0 to 7, which it is the first to answer.
    Slot(u8),
    /// In no slot of its own.
    Outside {
        /// The number of its first edge.
        first: u64,
        /// The rule that its place violates: `NoSync`, `NoSlot` or `SlotTwice`.
        wrong: Rule,
    },
}

/// What is told of a burst.
#[derive(Clone, Copy, Debug, PartialEq, Eq)]
pub enum Told {
    /// It is a frame.
    Good {
        /// The number of its last edge.
        place: u64,
        /// The slot that it answers, 0 to 7, where there are slots.
        slot: Option<u8>,
        /// What the frame says.
        payload: Payload,
    },
    /// It violates a rule.
    Bad {
        /// The number of the edge that violates it.
        place: u64,
        /// The rule.
        rule: Rule,
    },
}

/// What is told of a burst at its place, if anything is.
pub fn what_is_told(place: BurstPlace, burst: Burst) -> Option<Told>
    ensures value { option_to_list result ≡ told_of place burst }
    ensures fits { (s : Settings) → IsPlace place → BurstFits s burst → IfSome result (IsTold s) }
{
    match burst {
        Burst::Good {
            place: last,
            payload,
        } => match place {
            BurstPlace::Unread => None,
            BurstPlace::Free => Some(Told::Good {
                place: last,
                slot: None,
                payload,
            }),
            BurstPlace::Slot(slot) => Some(Told::Good {
                place: last,
                slot: Some(slot),
                payload,
            }),
            BurstPlace::Outside { first, wrong } => Some(Told::Bad {
                place: first,
                rule: wrong,
            }),
        },
        Burst::Bad { place: at, rule } => match place {
            BurstPlace::Unread => None,
            BurstPlace::Free | BurstPlace::Slot(_) | BurstPlace::Outside { .. } => {
                Some(Told::Bad { place: at, rule })
            }
        },
    }
}
