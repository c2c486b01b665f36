//! The slots of a PSI5 sync period (PSI5 V2.1, base standard: sensors that answer a sync pulse one behind
//! another, each in its time slot): which slot a burst begins in.
//!
//! A slot is a window for the offset of a burst's first edge from the last sync pulse. How long a window is and
//! how far two of them lie apart, the rules' names and their order are this project's own.
#![tactic(auto)]

mod meaning;
mod placed;
mod reader;
mod setup;

pub use meaning::places_have_meaning;
pub use placed::Placed;
pub use reader::SlotReader;
pub use setup::{SlotSetup, last_high};
