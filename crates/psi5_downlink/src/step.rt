//! What a reader of rises answers.
use crate::down::Down;
use line_base::Rule;

/// What a rise ends.
#[derive(Clone, Copy, Debug, PartialEq, Eq)]
pub enum ToothStep {
    /// Nothing.
    Nothing,
    /// A frame, with its last inserted 1.
    Good {
        /// The number of the rise.
        place: u64,
        /// What the frame says.
        down: Down,
    },
    /// A rule is violated: `StartPattern`, `SyncBit` or `DownCheck`.
    Bad {
        /// The number of the rise.
        place: u64,
        /// The rule.
        rule: Rule,
    },
}
