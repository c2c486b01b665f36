//! Places of bursts behind sync pulses, one at a time.
ghost use Rattle.std.specs.Prelude.{◌≡◌, ◌<◌, ◌++◌, [], ◌∷◌, ℕ, List, IfSome, length};
ghost use Rattle.psi5_slots.specs.declared.placed.Placed.TheVariants.{Slot};
ghost use Rattle.psi5_slots.specs.Setup.{Settings, InRange};
ghost use Rattle.psi5_slots.specs.History.{Event, has_sync, placed_behind, placed_in};
ghost use Rattle.psi5_slots.specs.History.Event.{Sync, Start};
ghost use Rattle.psi5_slots.specs.Kept.{AnsweredIn, window_in};

use crate::placed::Placed;
use crate::setup::{SlotSetup, last_high};
use line_base::{Rule, Span};
use std::marker::Model;

/// How many slots there are at most.
const MAX_SLOTS: usize = 8;

/// The number of the first of these windows in which the offset lies, if there is one.
fn window_at(windows: &[Span], offset: u64) -> Option<usize>
    ensures number { result ≡ window_in windows.now offset }
    ensures few { IfSome result (λ number. number < length windows.now) }
{
    let mut number = 0;
    let mut rest = windows;
    'windows: while let Some((window, others)) = rest.split_first() {
        if u64::from(window.low) <= offset && offset <= u64::from(window.high) {
            return Some(number);
        }
        number += 1;
        rest = others;
    }
    None
}

/// Where a burst begins at this offset from the last sync pulse, and that its slot is answered from now on.
fn placed(setup: &SlotSetup, answered: &mut [bool; MAX_SLOTS], offset: u64) -> Placed
    ensures value { (earlier : List ℕ) → AnsweredIn setup.now.windows answered.old earlier → result ≡ placed_behind setup.now.windows earlier offset }
    ensures kept { (earlier : List ℕ) → AnsweredIn setup.now.windows answered.old earlier → AnsweredIn setup.now.windows answered.new (earlier ++ offset ∷ []) }
    ensures few { (slot : ℕ) → result ≡ Slot slot → slot < 8 }
{
    let windows = setup.windows();
    let Some(slot) = window_at(windows, offset) else {
        if offset > u64::from(last_high(0, windows)) {
            return Placed::Bad(Rule::NoSync);
        }
        return Placed::Bad(Rule::NoSlot);
    };
    let twice = answered[slot];
    answered[slot] = true;
    if twice {
        return Placed::Bad(Rule::SlotTwice);
    }
    Placed::Slot(slot as u8)
}

/// Says in which slot a burst begins. It is told of each sync pulse, and of each first edge of a read burst that
/// is a rise. Contracts see the setup, the last sync pulse and which slots were answered since, and say by
/// `StandsFor` for which sync pulses and first edges it stands. After a fault it goes on; the slot that was
/// answered twice counts as answered.
#[derive(Debug, Drop)]
pub struct SlotReader {
    setup: SlotSetup,
    last: Option<u64>,
    answered: [bool; MAX_SLOTS],
}

impl Model for SlotReader {
    ghost use Rattle.std.specs.Prelude.{List, Bool, Option, ℕ};
    ghost use Rattle.psi5_slots.specs.Setup.{InRange, Settings};

    ghost Value = { Settings × Option ℕ × List Bool };

    ghost view = { λ r. (r.setup, r.last, r.answered) };

    ghost invariant = { λ r. InRange r.setup.windows r.setup.frame };
}

impl SlotReader {
    ghost use Rattle.psi5_slots.specs.Readers.{StandsFor};

    /// A reader of slots with this setup, which has seen no sync pulse.
    pub fn new(setup: SlotSetup) -> SlotReader
        ensures { StandsFor setup result [] }
    {
        SlotReader {
            setup,
            last: None,
            answered: [false; MAX_SLOTS],
        }
    }

    /// Takes a sync pulse by the time of its rise in ns.
    pub fn sync(&mut self, time: u64)
        ensures { (setup : Settings) (history : List Event) → StandsFor setup self.old history → StandsFor setup self.new (history ++ Sync time ∷ []) }
    {
        self.last = Some(time);
        self.answered = [false; MAX_SLOTS];
    }

    /// Whether there was a sync pulse since the reader was new or reset.
    pub fn synced(&self) -> bool
        ensures { (setup : Settings) (history : List Event) → StandsFor setup self.now history → result ≡ has_sync history }
    {
        self.last.is_some()
    }

    /// Takes the first edge of a read burst that is a rise, by its time in ns, and says where the burst begins.
    pub fn place(&mut self, time: u64) -> Placed
        ensures placed { (setup : Settings) (history : List Event) → StandsFor setup self.old history → result ≡ placed_in setup.windows history time }
        ensures stands { (setup : Settings) (history : List Event) → StandsFor setup self.old history → StandsFor setup self.new (history ++ Start time ∷ []) }
        ensures few { (slot : ℕ) → result ≡ Slot slot → slot < 8 }
    {
        match self.last {
            None => Placed::Before,
            Some(sync) => placed(&self.setup, &mut self.answered, time.saturating_sub(sync)),
        }
    }

    /// Forgets all sync pulses and bursts.
    pub fn reset(&mut self)
        ensures { (setup : Settings) (history : List Event) → StandsFor setup self.old history → StandsFor setup self.new [] }
    {
        self.last = None;
        self.answered = [false; MAX_SLOTS];
    }
}
