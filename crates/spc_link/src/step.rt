//! What a reader of transactions answers.

use line_base::Rule;
use sent_frame::SentFrame;

/// What a reader answers to an edge, or to the end of the edges.
#[derive(Clone, Copy, Debug, PartialEq, Eq)]
pub enum SpcStep {
    /// Nothing is to be told.
    Nothing,
    /// The edge ends the CRC pulse of a good answer.
    Good {
        /// The number of that edge.
        place: u64,
        /// The code of the trigger, below the number of windows.
        code: u8,
        /// What the answer says.
        frame: SentFrame,
    },
    /// The edge ends a trigger, a delay or a pulse that breaks a rule.
    Bad {
        /// The number of that edge.
        place: u64,
        /// The rule: `TriggerWidth`, `Delay`, `NoCalibration`, `NibbleRange` or `Check`.
        rule: Rule,
    },
    /// The edge is a fall after quiet behind a trigger, or the edges have ended: nobody has answered.
    NoAnswer {
        /// The number of the trigger's rise.
        place: u64,
        /// The code of the trigger, below the number of windows.
        code: u8,
    },
}
