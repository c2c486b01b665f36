//! What a burst says, and what a reader answers.

use line_base::Rule;

/// What a frame says: the values of its parts (PSI5 V2.1), each 0 where its part has no bits.
#[derive(Clone, Copy, Debug, PartialEq, Eq)]
pub struct Payload {
    /// The messaging bits, 0 to 3.
    pub m: u8,
    /// The frame control bits, 0 to 15.
    pub f: u8,
    /// The status bits, 0 to 3.
    pub s: u8,
    /// Data B, 0 to 4,095.
    pub b: u16,
    /// Data A, 0 to 16,777,215.
    pub a: u32,
}

/// What a complete burst says.
#[derive(Clone, Copy, Debug, PartialEq, Eq)]
pub enum Burst {
    /// It is a frame.
    Good {
        /// The number of its last edge.
        place: u64,
        /// What the frame says.
        payload: Payload,
    },
    /// It violates a rule, one of `FirstFall` to `Psi5Check`.
    Bad {
        /// The number of the edge that violates it: the last one for `TooFew`, `EndsHigh` and `Psi5Check`.
        place: u64,
        /// The first rule that is violated, by edge and then by the rule's number.
        rule: Rule,
    },
}

/// What a reader answers to an edge.
#[derive(Clone, Copy, Debug, PartialEq, Eq)]
pub struct BurstStep {
    /// The burst that is complete with this edge, the first of another.
    pub ended: Option<Burst>,
    /// Whether the edge is the first of a burst that is read.
    pub began: bool,
}
