//! A tooth-gap channel between two gaps.
ghost use Rattle.std.specs.Prelude.{◌≡◌, ◌^◌, ◌≤◌, ◌++◌, [], ◌∷◌, List, flat_map};
ghost use Rattle.line_base.specs.Edges.{NumberedEdge};
ghost use Rattle.psi5_downlink.specs.Setup.{Settings};
ghost use Rattle.psi5_downlink.specs.Rises.{Rise};
ghost use Rattle.psi5_downlink.specs.Reading.{tooth_reading};
ghost use Rattle.psi5_downlink.specs.Readers.{StandsFor};
ghost use Rattle.receiver_core.specs.ToothReports.{down_report, tooth_so_far};

use crate::report::{Report, What};
use arrayvec::ArrayVec;
use line_base::Edge;
use psi5_downlink::{ToothReader, ToothSetup, ToothStep};

/// Reads one stretch of a sync line's edges at a time.
#[derive(Debug, Drop)]
pub struct ToothChannel {
    /// Whether an edge was seen.
    opened: bool,
    /// Reads the frames.
    reader: ToothReader,
}

/// Adds the report of a step to none.
fn push_step(step: ToothStep, reports: &mut ArrayVec<Report, 8>)
    requires { reports.old.items ≡ [] }
    ensures { reports.new.items ≡ down_report step }
{
    match step {
        ToothStep::Nothing => {}
        ToothStep::Good { place, down } => reports.push(Report {
            place,
            what: What::Down(down),
        }),
        ToothStep::Bad { place, rule } => reports.push(Report {
            place,
            what: What::Bad(rule),
        }),
    }
}

/// Takes the next rise of the line, with its number in the channel and its time in ns, at most 10^15, and adds the
/// report of what it ends to none.
#[inline(never)]
fn read(reader: &mut ToothReader, number: u64, time: u64, reports: &mut ArrayVec<Report, 8>)
    requires in_range { time ≤ 10 ^ 15 }
    requires empty { reports.old.items ≡ [] }
    ensures stands { (s : Settings) (seen : List Rise) → StandsFor s reader.old seen → StandsFor s reader.new (seen ++ record { number = number; time = time } ∷ []) }
    ensures grows { (s : Settings) (seen : List Rise) → StandsFor s reader.old seen
        → flat_map down_report (tooth_reading s (seen ++ record { number = number; time = time } ∷ [])) ≡ flat_map down_report (tooth_reading s seen) ++ reports.new.items }
{
    let step = reader.push(number, time);
    push_step(step, reports);
}

/// Takes the next rise of the line, most of which end nothing: these are taken in place.
#[inline(never)]
fn take_rise(reader: &mut ToothReader, number: u64, time: u64, reports: &mut ArrayVec<Report, 8>)
    requires in_range { time ≤ 10 ^ 15 }
    requires empty { reports.old.items ≡ [] }
    ensures stands { (s : Settings) (seen : List Rise) → StandsFor s reader.old seen → StandsFor s reader.new (seen ++ record { number = number; time = time } ∷ []) }
    ensures grows { (s : Settings) (seen : List Rise) → StandsFor s reader.old seen
        → flat_map down_report (tooth_reading s (seen ++ record { number = number; time = time } ∷ [])) ≡ flat_map down_report (tooth_reading s seen) ++ reports.new.items }
{
    if !reader.passes(time) {
        read(reader, number, time, reports);
    }
}

impl ToothChannel {
    ghost use Rattle.receiver_core.specs.ToothReports.{StandsForRises};

    /// A channel of this setup that has seen no edge.
    pub fn new(setup: ToothSetup) -> ToothChannel
        ensures { StandsForRises setup result [] }
    {
        ToothChannel {
            opened: false,
            reader: ToothReader::new(setup),
        }
    }

    /// Takes the next edge of the line, with its number in the channel, and adds the report of what it ends to
    /// none. Its time is at most 10^15 ns. The first edge is an opening, and no rise.
    #[inline(always)]
    pub fn push(&mut self, number: u64, edge: Edge, reports: &mut ArrayVec<Report, 8>)
        requires in_range { edge.time ≤ 10 ^ 15 }
        requires empty { reports.old.items ≡ [] }
        ensures stands { (s : Settings) (seen : List NumberedEdge) → StandsForRises s self.old seen → StandsForRises s self.new (seen ++ record { number = number; edge = edge } ∷ []) }
        ensures grows { (s : Settings) (seen : List NumberedEdge) → StandsForRises s self.old seen
            → tooth_so_far s (seen ++ record { number = number; edge = edge } ∷ []) ≡ tooth_so_far s seen ++ reports.new.items }
    {
        if !self.opened {
            self.opened = true;
            return;
        }
        if !edge.level {
            return;
        }
        take_rise(&mut self.reader, number, edge.time, reports);
    }

    /// Forgets all edges: the next one is an opening.
    pub fn reset(&mut self)
        ensures { (s : Settings) (seen : List NumberedEdge) → StandsForRises s self.old seen → StandsForRises s self.new [] }
    {
        self.opened = false;
        self.reader.reset();
    }
}
