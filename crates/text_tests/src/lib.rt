//! Tests of the texts below the commands: what no clause says, and no command reaches.
//!
//! The lines of reports, written and read, up to their greatest values; texts that are no line of a report, with the
//! fault that is told; and which rows of an edge list are taken whole. What the program reads and writes is shown by the
//! cases in .ci/cases.
#![tactic(auto)]

#[cfg(test)]
mod no_reports;
#[cfg(test)]
mod reports;
#[cfg(test)]
mod rows;
