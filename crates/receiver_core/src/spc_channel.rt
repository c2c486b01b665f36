//! An SPC channel between two gaps.
ghost use Rattle.std.specs.Prelude.{◌≡◌, ◌^◌, ◌≤◌, ◌++◌, [], ◌∷◌, List};
ghost use Rattle.line_base.specs.Edges.{NumberedEdge};
ghost use Rattle.spc_link.specs.Setup.{Settings};
ghost use Rattle.receiver_core.specs.SpcReports.{answer_report, spc_end, spc_so_far};

use crate::report::{Report, What};
use arrayvec::ArrayVec;
use line_base::Edge;
use spc_link::{SpcReader, SpcSetup, SpcStep};

/// Reads one stretch of an SPC line's edges at a time.
#[derive(Debug, Drop)]
pub struct SpcChannel {
    /// Reads the transactions.
    reader: SpcReader,
}

/// Adds the report of a step to none.
fn push_step(step: SpcStep, reports: &mut ArrayVec<Report, 8>)
    requires { reports.old.items ≡ [] }
    ensures { reports.new.items ≡ answer_report step }
{
    match step {
        SpcStep::Nothing => {}
        SpcStep::Good { place, code, frame } => reports.push(Report {
            place,
            what: What::Answer { code, frame },
        }),
        SpcStep::Bad { place, rule } => reports.push(Report {
            place,
            what: What::Bad(rule),
        }),
        SpcStep::NoAnswer { place, code } => reports.push(Report {
            place,
            what: What::NoAnswer { code },
        }),
    }
}

impl SpcChannel {
    ghost use Rattle.receiver_core.specs.SpcReports.{StandsForAnswers};

    /// A channel of this setup that has seen no edge.
    pub fn new(setup: SpcSetup) -> SpcChannel
        ensures { StandsForAnswers setup result [] }
    {
        SpcChannel {
            reader: SpcReader::new(setup),
        }
    }

    /// Takes the next edge of the line, with its number in the channel, and adds the report of what it decides
    /// to none. Its time is at most 10^15 ns.
    #[inline(always)]
    pub fn push(&mut self, number: u64, edge: Edge, reports: &mut ArrayVec<Report, 8>)
        requires in_range { edge.time ≤ 10 ^ 15 }
        requires empty { reports.old.items ≡ [] }
        ensures stands { (s : Settings) (seen : List NumberedEdge) → StandsForAnswers s self.old seen → StandsForAnswers s self.new (seen ++ record { number = number; edge = edge } ∷ []) }
        ensures grows { (s : Settings) (seen : List NumberedEdge) → StandsForAnswers s self.old seen
            → spc_so_far s (seen ++ record { number = number; edge = edge } ∷ []) ≡ spc_so_far s seen ++ reports.new.items }
    {
        // The call gets an edge of its own, so that those of other links are never put in memory.
        let Edge { line, time, level } = edge;
        let step = self.reader.push(number, Edge { line, time, level });
        push_step(step, reports);
    }

    /// The line has ended: adds the report of a trigger without an answer to none, if it stands at the end.
    pub fn end(&mut self, reports: &mut ArrayVec<Report, 8>)
        requires { reports.old.items ≡ [] }
        ensures ends { (s : Settings) (seen : List NumberedEdge) → StandsForAnswers s self.old seen → reports.new.items ≡ spc_end s seen }
    {
        let step = self.reader.finish();
        push_step(step, reports);
    }

    /// Forgets all edges: the next one is an opening.
    pub fn reset(&mut self)
        ensures { (s : Settings) (seen : List NumberedEdge) → StandsForAnswers s self.old seen → StandsForAnswers s self.new [] }
    {
        self.reader.reset();
    }
}
