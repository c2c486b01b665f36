//! A SENT frame, and what a reader answers.

use line_base::{Nibbles, Rule};

/// What a frame says (SAE J2716).
#[derive(Clone, Copy, Debug, PartialEq, Eq)]
pub struct SentFrame {
    /// The status nibble, below 16.
    pub status: u8,
    /// The data nibbles, 1 to 6.
    pub nibbles: Nibbles,
}

/// What a reader answers to an edge.
#[derive(Clone, Copy, Debug, PartialEq, Eq)]
pub enum SentStep {
    /// The edge ends no frame and breaks no rule.
    Nothing,
    /// The edge ends the CRC pulse of a good frame.
    Good {
        /// The number of that edge.
        place: u64,
        /// What the frame says.
        frame: SentFrame,
    },
    /// The edge ends a pulse that breaks a rule.
    Bad {
        /// The number of that edge.
        place: u64,
        /// The rule.
        rule: Rule,
    },
}
