//! What is counted of a channel's reports.
ghost use Rattle.std.specs.Prelude.{◌≡◌, [], ◌∷◌, ◌++◌, List};
ghost use Rattle.receiver_core.specs.declared.report.Report.{Report};
ghost use Rattle.receiver_core.specs.Tallies.{counted_with, tally_of, HasRoom};

use crate::report::{Report, What};

/// The counts of a channel's reports.
#[derive(Clone, Copy, Debug, PartialEq, Eq)]
pub struct Tally {
    /// Good frames, answers, bursts and downlink frames.
    pub good: u64,
    /// Violated rules, counters that don't follow, and triggers without an answer.
    pub bad: u64,
    /// Serial messages, and blocks of an initialisation.
    pub messages: u64,
    /// Gaps.
    pub gaps: u64,
    /// Edges that were lost in gaps.
    pub lost: u64,
}

impl Tally {
    /// The tally of no reports.
    pub fn new() -> Tally
        ensures { result ≡ tally_of [] }
    {
        Tally {
            good: 0,
            bad: 0,
            messages: 0,
            gaps: 0,
            lost: 0,
        }
    }

    /// Counts one report more. Each sum stays below 2^64.
    pub fn add(&mut self, report: &Report)
        requires { HasRoom (counted_with self.old report.now) }
        ensures counted { self.new ≡ counted_with self.old report.now }
        ensures whole { (reports : List Report) → self.old ≡ tally_of reports → self.new ≡ tally_of (reports ++ report.now ∷ []) }
    {
        match report.what {
            What::Frame(_) | What::Answer { .. } | What::Burst { .. } | What::Down(_) => {
                self.good += 1;
            }
            What::Fast(_) | What::Done { .. } => {}
            What::Counter { .. } | What::NoAnswer { .. } | What::Bad(_) => self.bad += 1,
            What::Short { .. } | What::Enhanced { .. } | What::Block { .. } => self.messages += 1,
            What::Gap { count } => {
                self.gaps += 1;
                self.lost += count;
            }
        }
    }
}
