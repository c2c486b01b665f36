//! What a reader of serial messages answers.
use line_base::Rule;

/// What a status ended.
#[derive(Clone, Copy, Debug, PartialEq, Eq)]
pub enum SerialStep {
    /// Nothing.
    Nothing,
    /// A short message.
    Short {
        /// The message ID, 0 to 15.
        id: u8,
        /// The value, 0 to 255.
        value: u8,
    },
    /// An enhanced message.
    Enhanced {
        /// The message ID, 0 to 255, or 0 to 15 where the value is wide.
        id: u8,
        /// The value, 0 to 4,095, or 0 to 65,535 where it is wide.
        value: u16,
        /// Whether the value has 16 bits and the ID 4, and not 12 and 8.
        wide: bool,
    },
    /// A rule is violated: `Restart`, `Zero13`, `Zero18` or `SerialCheck`.
    Bad(Rule),
}
