//! A PSI5 channel between two gaps: bursts, the slots that they answer, and the initialisation of each slot.
ghost use Rattle.std.specs.Prelude.{◌≡◌, ◌^◌, ◌≤◌, ◌++◌, ◌<◌, [], ◌∷◌, List, ℕ, Option, IfSome, length, nat_eq, option_to_list, true, false};
ghost use Rattle.arrayvec.specs.ArrayVec.{array_vec_len};
ghost use Rattle.line_base.specs.Edges.{NumberedEdge};
ghost use Rattle.psi5_frame.specs.Setup.{Settings};
ghost use Rattle.psi5_frame.specs.Meanings.{BurstFits};
ghost use Rattle.psi5_init.specs.Codes.{class_in};
ghost use Rattle.receiver_core.specs.Setups.{are_wrong_repeats};
ghost use Rattle.receiver_core.specs.declared.setup.SyncSlots.{SyncSlots};
ghost use Rattle.receiver_core.specs.Psi5Places.{burst_place, is_on_sync, starts_added};
ghost use Rattle.receiver_core.specs.Psi5Reports.{burst_reports, code_of, codes_of, init_report, init_reports, psi5_at_end, psi5_so_far, slot_number, told_past, told_reports, told_with};
ghost use Rattle.receiver_core.specs.Psi5Stretches.{InitStandsFor, IsPlace, IsSmall, IsTold, ReadsCodes, SyncStandsFor, told_ended};

use crate::init_readers::InitReaders;
use crate::psi5_burst::{BurstPlace, Told, what_is_told};
use crate::report::{Report, What};
use crate::setup::SyncSlots;
use crate::sync_line::SyncLine;
use arrayvec::ArrayVec;
use line_base::Edge;
use psi5_frame::{Burst, BurstReader, BurstStep, Payload, Psi5Setup};
use psi5_init::{Code, InitStep, class_of};

/// How many bits a code has.
const CODE_BITS: u8 = 10;

/// Reads one stretch of the edges of a PSI5 channel's lines at a time. A violated rule of a burst or of its
/// place changes nothing for the bursts that follow, and the next code of each slot is the first.
#[derive(Debug, Drop)]
pub struct Psi5Channel {
    /// Whether data A has the 10 bits of a code.
    has_codes: bool,
    /// The sync line, where there are slots.
    sync: Option<SyncLine>,
    /// Reads the bursts of the data line.
    bursts: BurstReader,
    /// Where the last burst stands that has begun.
    place: BurstPlace,
    /// Reads the initialisation of each slot, where one is read.
    init: Option<InitReaders>,
}

/// What data A says, where it has 10 bits.
fn code_in(has_codes: bool, payload: &Payload) -> Option<Code>
    requires { has_codes ≡ true → payload.now.a < 1024 }
    ensures { (s : Settings) → has_codes ≡ nat_eq s.parts.a 10 → result ≡ code_of s payload.now }
{
    if has_codes {
        return Some(class_of(payload.a as u16));
    }
    None
}

/// Adds the report, at this place, of what a code ended.
fn push_step(place: u64, step: InitStep, reports: &mut ArrayVec<Report, 8>)
    requires { array_vec_len reports.old ≤ 7 }
    ensures { reports.new.items ≡ reports.old.items ++ init_report place step }
{
    let what = match step {
        InitStep::Nothing => return,
        InitStep::Block { id, value } => What::Block { id, value },
        InitStep::Done { blocks } => What::Done { blocks },
        InitStep::Bad(rule) => What::Bad(rule),
    };
    reports.push(Report { place, what });
}

/// The number of a slot, 0 where there are no slots.
fn number_of(slot: Option<u8>) -> u8
    ensures { result ≡ slot_number slot }
{
    match slot {
        None => 0,
        Some(slot) => slot,
    }
}

/// Takes the code of a good burst in its slot, and adds the report of what it ends, where initialisations are
/// read.
fn push_code(
    init: &mut Option<InitReaders>,
    place: u64,
    slot: Option<u8>,
    payload: Payload,
    reports: &mut ArrayVec<Report, 8>,
)
    requires room { array_vec_len reports.old ≤ 7 }
    requires slot { slot_number slot < 8 }
    requires stands { (repeats : Option ℕ) × (since : List Told) × InitStandsFor repeats init.old since × IsSmall repeats payload × (length (codes_of (slot_number slot) since) < 2 ^ 60) }
    ensures stands { (repeats : Option ℕ) (since : List Told) → InitStandsFor repeats init.old since → InitStandsFor repeats init.new (since ++ Told.Good place slot payload ∷ []) }
    ensures reports { (repeats : Option ℕ) (since : List Told) → InitStandsFor repeats init.old since
        → reports.new.items ≡ reports.old.items ++ init_reports repeats place (codes_of (slot_number slot) since) (class_in payload.a) }
{
    match init {
        None => {}
        Some(readers) => {
            let step = readers.push(number_of(slot), class_of(payload.a as u16));
            push_step(place, step, reports);
        }
    }
}

/// Forgets the codes, where initialisations are read.
fn forget(init: &mut Option<InitReaders>)
    ensures { (repeats : Option ℕ) (since : List Told) → InitStandsFor repeats init.old since → InitStandsFor repeats init.new [] }
{
    match init {
        None => {}
        Some(readers) => readers.reset(),
    }
}

/// Takes what is told of a burst, and adds the reports of it to none.
fn push_told(
    has_codes: bool,
    init: &mut Option<InitReaders>,
    told: Told,
    reports: &mut ArrayVec<Report, 8>,
)
    requires empty { reports.old.items ≡ [] }
    requires stands { (s : Settings) × (repeats : Option ℕ) × (since : List Told) × ReadsCodes s repeats has_codes init.old since × IsTold s told × (length since < 2 ^ 60) }
    ensures stands { (s : Settings) (repeats : Option ℕ) (since : List Told) → ReadsCodes s repeats has_codes init.old since → ReadsCodes s repeats has_codes init.new (told_with since told) }
    ensures reports { (s : Settings) (repeats : Option ℕ) (since : List Told) → ReadsCodes s repeats has_codes init.old since → reports.new.items ≡ told_reports s repeats since told }
{
    match told {
        Told::Good {
            place,
            slot,
            payload,
        } => {
            reports.push(Report {
                place,
                what: What::Burst {
                    slot,
                    payload,
                    code: code_in(has_codes, &payload),
                },
            });
            push_code(init, place, slot, payload, reports);
        }
        Told::Bad { place, rule } => {
            forget(init);
            reports.push(Report {
                place,
                what: What::Bad(rule),
            });
        }
    }
}

/// Takes what is told, if anything is, and adds the reports of it to none.
fn push_any(
    has_codes: bool,
    init: &mut Option<InitReaders>,
    told: Option<Told>,
    reports: &mut ArrayVec<Report, 8>,
)
    requires empty { reports.old.items ≡ [] }
    requires stands { (s : Settings) × (repeats : Option ℕ) × (since : List Told) × ReadsCodes s repeats has_codes init.old since × IfSome told (IsTold s) × (length since < 2 ^ 60) }
    ensures stands { (s : Settings) (repeats : Option ℕ) (since : List Told) → ReadsCodes s repeats has_codes init.old since
        → ReadsCodes s repeats has_codes init.new (told_past since (option_to_list told)) }
    ensures reports { (s : Settings) (repeats : Option ℕ) (since : List Told) → ReadsCodes s repeats has_codes init.old since
        → reports.new.items ≡ burst_reports s repeats since (option_to_list told) }
{
    match told {
        None => {}
        Some(next) => push_told(has_codes, init, next, reports),
    }
}

/// Takes a burst that is complete, if there is one, and adds the reports of what is told of it to none.
fn tell(
    has_codes: bool,
    place: BurstPlace,
    init: &mut Option<InitReaders>,
    ended: Option<Burst>,
    reports: &mut ArrayVec<Report, 8>,
)
    requires empty { reports.old.items ≡ [] }
    requires place { IsPlace place }
    requires stands { (s : Settings) × (repeats : Option ℕ) × (since : List Told) × ReadsCodes s repeats has_codes init.old since × IfSome ended (BurstFits s) × (length since < 2 ^ 60) }
    ensures stands { (s : Settings) (repeats : Option ℕ) (since : List Told) → ReadsCodes s repeats has_codes init.old since
        → ReadsCodes s repeats has_codes init.new (told_past since (told_ended place ended)) }
    ensures reports { (s : Settings) (repeats : Option ℕ) (since : List Told) → ReadsCodes s repeats has_codes init.old since
        → reports.new.items ≡ burst_reports s repeats since (told_ended place ended) }
{
    match ended {
        None => {}
        Some(burst) => push_any(has_codes, init, what_is_told(place, burst), reports),
    }
}

/// Takes an edge, where it is on the sync line, and says whether it is. Else nothing changes.
#[inline(always)]
fn take_sync(sync: &mut Option<SyncLine>, edge: Edge) -> bool
    ensures on { (s : Settings) (slots : Option SyncSlots) (seen : List NumberedEdge) (number : ℕ) → SyncStandsFor s slots sync.old seen
        → result ≡ is_on_sync slots (record { number = number; edge = edge }) }
    ensures stands { result ≡ true → (s : Settings) (slots : Option SyncSlots) (seen : List NumberedEdge) (number : ℕ) → SyncStandsFor s slots sync.old seen
        → SyncStandsFor s slots sync.new (seen ++ record { number = number; edge = edge } ∷ []) }
    ensures left { result ≡ false → sync.new ≡ sync.old }
{
    match sync {
        None => false,
        Some(line) => {
            if !line.has(edge) {
                return false;
            }
            line.push(edge);
            true
        }
    }
}

/// Takes the first edge of a burst, with its number, and says where the burst stands.
fn place_of(sync: &mut Option<SyncLine>, number: u64, edge: Edge) -> BurstPlace
    ensures place { (s : Settings) (slots : Option SyncSlots) (seen : List NumberedEdge) → SyncStandsFor s slots sync.old seen
        → result ≡ burst_place s slots seen (record { number = number; edge = edge }) }
    ensures valid { IsPlace result }
    ensures stands { (s : Settings) (slots : Option SyncSlots) (seen : List NumberedEdge) → SyncStandsFor s slots sync.old seen
        → is_on_sync slots (record { number = number; edge = edge }) ≡ false
        → starts_added s slots seen (record { number = number; edge = edge }) ≡ number ∷ []
        → SyncStandsFor s slots sync.new (seen ++ record { number = number; edge = edge } ∷ []) }
{
    match sync {
        None => BurstPlace::Free,
        Some(line) => line.place(number, edge),
    }
}

/// Forgets the edges of the sync line, where there is one.
fn forget_syncs(sync: &mut Option<SyncLine>)
    ensures { (s : Settings) (slots : Option SyncSlots) (seen : List NumberedEdge) → SyncStandsFor s slots sync.old seen → SyncStandsFor s slots sync.new [] }
{
    match sync {
        None => {}
        Some(line) => line.reset(),
    }
}

/// The sync line of a channel with these slots, of which no edge was seen.
fn sync_line(slots: Option<SyncSlots>) -> Option<SyncLine>
    ensures { (s : Settings) → SyncStandsFor s slots result [] }
{
    match slots {
        None => None,
        Some(slots) => Some(SyncLine::new(slots)),
    }
}

/// The readers of initialisations whose blocks are sent so many times, 1 to 16, where they are read.
fn init_readers(setup: Psi5Setup, repeats: Option<u8>) -> Option<InitReaders>
    requires { are_wrong_repeats setup repeats ≡ false }
    ensures { InitStandsFor repeats result [] }
{
    match repeats {
        None => None,
        Some(repeats) => Some(InitReaders::new(repeats)),
    }
}

impl Psi5Channel {
    ghost use Rattle.receiver_core.specs.Psi5Stretches.{StandsForBursts};

    /// A channel for these frames, these slots and initialisations whose blocks are sent so many times, 1 to
    /// 16, that has seen no edge. Where initialisations are read, data A has 10 bits.
    pub fn new(setup: Psi5Setup, slots: Option<SyncSlots>, init: Option<u8>) -> Psi5Channel
        requires { are_wrong_repeats setup init ≡ false }
        ensures { StandsForBursts setup slots init result [] }
    {
        Psi5Channel {
            has_codes: setup.parts().a == CODE_BITS,
            sync: sync_line(slots),
            bursts: BurstReader::new(setup),
            place: BurstPlace::Unread,
            init: init_readers(setup, init),
        }
    }

    /// Takes the next edge of the lines, with its number in the channel, and adds the reports of what it
    /// ends to none. Its time is at most 10^15 ns, and fewer than 2^60 edges come before it.
    #[inline(always)]
    pub fn push(&mut self, number: u64, edge: Edge, reports: &mut ArrayVec<Report, 8>)
        requires in_range { edge.time ≤ 10 ^ 15 }
        requires empty { reports.old.items ≡ [] }
        requires stands { (s : Settings) × (slots : Option SyncSlots) × (repeats : Option ℕ) × (seen : List NumberedEdge) × StandsForBursts s slots repeats self.old seen × (length seen < 2 ^ 60) }
        ensures stands { (s : Settings) (slots : Option SyncSlots) (repeats : Option ℕ) (seen : List NumberedEdge) → StandsForBursts s slots repeats self.old seen
            → StandsForBursts s slots repeats self.new (seen ++ record { number = number; edge = edge } ∷ []) }
        ensures grows { (s : Settings) (slots : Option SyncSlots) (repeats : Option ℕ) (seen : List NumberedEdge) → StandsForBursts s slots repeats self.old seen
            → psi5_so_far s slots repeats (seen ++ record { number = number; edge = edge } ∷ []) ≡ psi5_so_far s slots repeats seen ++ reports.new.items }
    {
        if take_sync(&mut self.sync, edge) {
            return;
        }
        if self.bursts.passes(number, edge) {
            return;
        }
        // The call gets an edge of its own, so that one that is passed is never put in memory.
        let Edge { line, time, level } = edge;
        self.read(number, Edge { line, time, level }, reports);
    }

    /// The same for an edge of the data line that may end a burst and begin another.
    #[inline(never)]
    fn read(&mut self, number: u64, edge: Edge, reports: &mut ArrayVec<Report, 8>)
        requires in_range { edge.time ≤ 10 ^ 15 }
        requires empty { reports.old.items ≡ [] }
        requires stands { (s : Settings) × (slots : Option SyncSlots) × (repeats : Option ℕ) × (seen : List NumberedEdge) × StandsForBursts s slots repeats self.old seen
            × (is_on_sync slots (record { number = number; edge = edge }) ≡ false) × (length seen < 2 ^ 60) }
        ensures stands { (s : Settings) (slots : Option SyncSlots) (repeats : Option ℕ) (seen : List NumberedEdge) → StandsForBursts s slots repeats self.old seen
            → is_on_sync slots (record { number = number; edge = edge }) ≡ false
            → StandsForBursts s slots repeats self.new (seen ++ record { number = number; edge = edge } ∷ []) }
        ensures grows { (s : Settings) (slots : Option SyncSlots) (repeats : Option ℕ) (seen : List NumberedEdge) → StandsForBursts s slots repeats self.old seen
            → is_on_sync slots (record { number = number; edge = edge }) ≡ false
            → psi5_so_far s slots repeats (seen ++ record { number = number; edge = edge } ∷ []) ≡ psi5_so_far s slots repeats seen ++ reports.new.items }
    {
        let BurstStep { ended, began } = self.bursts.push(number, edge);
        tell(self.has_codes, self.place, &mut self.init, ended, reports);
        if began {
            self.place = place_of(&mut self.sync, number, edge);
        }
    }

    /// The lines have ended: adds the reports of the burst that isn't complete to none, if there is one. At
    /// most 2^60 edges came before. Then the channel is as if it had seen no edge, but for what its
    /// initialisations have read.
    pub fn end(&mut self, reports: &mut ArrayVec<Report, 8>)
        requires empty { reports.old.items ≡ [] }
        requires stands { (s : Settings) × (slots : Option SyncSlots) × (repeats : Option ℕ) × (seen : List NumberedEdge) × StandsForBursts s slots repeats self.old seen × (length seen ≤ 2 ^ 60) }
        ensures grows { (s : Settings) (slots : Option SyncSlots) (repeats : Option ℕ) (seen : List NumberedEdge) → StandsForBursts s slots repeats self.old seen
            → psi5_at_end s slots repeats seen ≡ psi5_so_far s slots repeats seen ++ reports.new.items }
    {
        let last = self.bursts.finish();
        tell(self.has_codes, self.place, &mut self.init, last, reports);
    }

    /// Forgets all edges: the next one of each line is an opening, and the next code of each slot is the first.
    pub fn reset(&mut self)
        ensures { (s : Settings) (slots : Option SyncSlots) (repeats : Option ℕ) (seen : List NumberedEdge) → StandsForBursts s slots repeats self.old seen
            → StandsForBursts s slots repeats self.new [] }
    {
        forget_syncs(&mut self.sync);
        self.bursts.reset();
        self.place = BurstPlace::Unread;
        forget(&mut self.init);
    }
}
