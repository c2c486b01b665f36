//! Fast values of a SENT frame: what its data nibbles say in a layout, and whether a counter follows.
//!
//! A layout is a handful of equations between data nibbles and whole numbers. The layouts two12 (two
//! 12-bit values) and secure12 (a 12-bit value, a counter, and an inverted copy of the first nibble) are
//! those of SAE J2716; one12, split16_8 and raw are this project's own.
#![tactic(auto)]

mod counter;
mod layout;
mod packing;
mod unpacking;

pub use counter::CounterWatch;
pub use layout::{Fast, Layout, MAX_TWELVE_BITS};
pub use packing::pack;
pub use unpacking::unpack;
