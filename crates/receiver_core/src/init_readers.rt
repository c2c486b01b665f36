//! The initialisation of each slot.
ghost use Rattle.std.specs.Prelude.{◌≡◌, ◌<◌, ◌≤◌, ◌^◌, ◌++◌, [], ◌∷◌, List, ℕ, Option, length, replicate};
ghost use Rattle.psi5_frame.specs.declared.burst.Payload.{Payload};
ghost use Rattle.psi5_init.specs.declared.code.Code.{Code};
ghost use Rattle.psi5_init.specs.Codes.{class_in};
ghost use Rattle.psi5_init.specs.Readings.{init_reading};
ghost use Rattle.receiver_core.specs.declared.psi5_burst.Told.{Told};
ghost use Rattle.receiver_core.specs.Psi5Reports.{codes_of, slot_number};
ghost use Rattle.receiver_core.specs.Psi5Stretches.{ReadersStandFor};

use psi5_init::{Code, InitReader, InitStep};

/// A reader of an initialisation for each of eight slots. A channel without slots uses the first.
#[derive(Debug, Drop)]
pub struct InitReaders {
    /// How often a block is sent, 1 to 16.
    repeats: u8,
    /// The readers, by the number of their slot.
    slots: [InitReader; 8],
}

/// The same reader for each slot.
fn eight(reader: InitReader) -> [InitReader; 8]
    ensures { result ≡ replicate 8 reader }
{
    [reader; 8]
}

impl InitReaders {
    /// Readers of phases that send each block `repeats` times, 1 to 16, none of which has seen a code.
    pub fn new(repeats: u8) -> InitReaders
        requires some { 1 ≤ repeats }
        requires few { repeats ≤ 16 }
        ensures { ReadersStandFor repeats result [] }
    {
        InitReaders {
            repeats,
            slots: eight(InitReader::new(repeats)),
        }
    }

    /// Takes the next code of a slot, 0 to 7, and answers what it ends.
    pub fn push(&mut self, number: u8, code: Code) -> InitStep
        requires slot { number < 8 }
        requires stands { (repeats : ℕ) × (since : List Told) × ReadersStandFor repeats self.old since × (length (codes_of number since) < 2 ^ 60) }
        ensures stands { (repeats : ℕ) (since : List Told) (place : ℕ) (slot : Option ℕ) (payload : Payload) → ReadersStandFor repeats self.old since
            → slot_number slot ≡ number → class_in payload.a ≡ code → ReadersStandFor repeats self.new (since ++ Told.Good place slot payload ∷ []) }
        ensures grows { (repeats : ℕ) (since : List Told) → ReadersStandFor repeats self.old since
            → init_reading repeats (codes_of number since ++ code ∷ []) ≡ init_reading repeats (codes_of number since) ++ result ∷ [] }
    {
        let mut reader = self.slots[usize::from(number)];
        let step = reader.push(code);
        self.slots[usize::from(number)] = reader;
        step
    }

    /// Forgets all codes.
    pub fn reset(&mut self)
        ensures { (repeats : ℕ) (since : List Told) → ReadersStandFor repeats self.old since → ReadersStandFor repeats self.new [] }
    {
        let mut fresh = self.slots[0];
        fresh.reset();
        self.slots = eight(fresh);
    }
}
