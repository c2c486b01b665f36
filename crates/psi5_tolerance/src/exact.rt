//! Traces that are honest.
ghost use Rattle.std.specs.Prelude.{◌≡◌, ℕ, List, Option, None, map};
ghost use Rattle.psi5_frame.specs.Setup.{Settings, fault_of};
ghost use Rattle.psi5_tolerance.specs.Exact.{AreNominal, AreTwoLines, NominalBurst, StartsQuietly, exact_trace, nominal_messages, nominal_train};
ghost use Rattle.psi5_tolerance.specs.FromFirst.{from_first, said};
ghost use Rattle.psi5_tolerance.specs.Lines.{SyncWindows};
ghost use Rattle.psi5_tolerance.specs.Traces.{AreSlots, IsHonest};
ghost use Rattle.psi5_tolerance.specs.Trains.{IsTrain, Sending, message_of};

/// Does nothing; its contract is a law. With a setup that is accepted, frames with half-bits of half the
/// nominal bit time, whose payloads fit, and which start at least 1.05 bit times after the end of the one
/// before, are honest where all their edges are recorded at the nearest ns.
pub fn nominal_bursts_are_honest()
    ensures { (line : ℕ) (s : Settings) (bursts : List NominalBurst) → fault_of s.bit s.parts s.jitter ≡ None → AreNominal s bursts
        → IsHonest s None (nominal_messages bursts) (exact_trace line s None (nominal_train s bursts)) }
{}

/// Does nothing; its contract is a law. So is each train that may be sent, with slots and without.
pub fn exact_trains_are_honest()
    ensures { (line : ℕ) (s : Settings) (sync : Option SyncWindows) (sent : List Sending) → fault_of s.bit s.parts s.jitter ≡ None → AreSlots s sync → AreTwoLines line sync → IsTrain s sync sent
        → IsHonest s sync (map message_of sent) (exact_trace line s sync sent) }
{}

/// Does nothing; its contract is a law. Where the first of such frames starts at least 1.05 bit times after
/// the opening of the line, all of them are read.
pub fn nominal_bursts_are_read()
    ensures { (line : ℕ) (s : Settings) (bursts : List NominalBurst) → fault_of s.bit s.parts s.jitter ≡ None → AreNominal s bursts → StartsQuietly s bursts
        → map said (from_first s None (nominal_messages bursts) (exact_trace line s None (nominal_train s bursts))) ≡ nominal_messages bursts }
{}
