//! What a reader of codes answers.
use line_base::Rule;

/// What a code ends.
#[derive(Clone, Copy, Debug, PartialEq, Eq)]
pub enum InitStep {
    /// Nothing.
    Nothing,
    /// A block all of whose repeats were seen.
    Block {
        /// Its ID, 1 to 16.
        id: u8,
        /// Its value, 0 to 15.
        value: u8,
    },
    /// The phase.
    Done {
        /// How many blocks were told in it.
        blocks: u64,
    },
    /// A rule is violated: `InitOrder` or `InitRepeat`.
    Bad(Rule),
}
