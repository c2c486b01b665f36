//! The layouts, and what a frame says in them.

/// The greatest 12-bit value, 4,095.
pub const MAX_TWELVE_BITS: u16 = 4095;

/// How a frame's data nibbles are laid out, nibble 1 being the first.
#[derive(Clone, Copy, Debug, PartialEq, Eq)]
pub enum Layout {
    /// Any nibbles, with no values in them. This project's own.
    Raw,
    /// 3 nibbles: one 12-bit value, from its highest nibble down. This project's own.
    One12,
    /// 6 nibbles: a 12-bit value from its highest nibble down, and one from its lowest up (SAE J2716).
    Two12,
    /// 6 nibbles: a 12-bit value from its highest nibble down, a counter from its higher nibble down, and
    /// 15 minus nibble 1 (SAE J2716).
    Secure12,
    /// 6 nibbles: a 16-bit value from its highest nibble down, and an 8-bit one from its lower nibble up.
    /// This project's own.
    Split16x8,
}

/// What a frame's data nibbles say.
#[derive(Clone, Copy, Debug, PartialEq, Eq)]
pub enum Fast {
    /// Nothing but the nibbles themselves.
    Raw,
    /// One value.
    One {
        /// The value, 0 to 4,095.
        a: u16,
    },
    /// Two values.
    Two {
        /// The value in nibbles 1 to 3, 0 to 4,095.
        a: u16,
        /// The value in nibbles 4 to 6, 0 to 4,095.
        b: u16,
    },
    /// A value with a counter.
    Secure {
        /// The value in nibbles 1 to 3, 0 to 4,095.
        a: u16,
        /// The counter in nibbles 4 and 5, 0 to 255.
        counter: u8,
    },
    /// A long value and a short one.
    Split {
        /// The value in nibbles 1 to 4, 0 to 65,535.
        a: u16,
        /// The value in nibbles 5 and 6, 0 to 255.
        b: u8,
    },
}
