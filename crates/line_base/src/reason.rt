//! How a run ended, and its exit status.
ghost use Rattle.std.specs.Prelude.{◌≡◌};
ghost use Rattle.line_base.specs.Reasons.{status_of};

use crate::{ArchiveFault, LineFault, WordFault};

/// How a run ended.
#[derive(Clone, Copy, Debug, PartialEq, Eq)]
pub enum Reason {
    /// All was read and written, and no report speaks of a fault on the link.
    Clean,
    /// All was read and written, and a report speaks of a fault on the link.
    Marked,
    /// The words are outside the grammar. Nothing was read or written.
    Words {
        /// The number of the first refused word, from 1.
        place: u64,
        /// Why it is refused.
        fault: WordFault,
    },
    /// A line of the input is refused.
    Input {
        /// The line's number, from 1.
        line: u64,
        /// Why it is refused.
        fault: LineFault,
    },
    /// The source failed.
    ReadFault,
    /// A sink failed.
    WriteFault {
        /// The lane whose sink failed, or `None` for the output.
        lane: Option<u8>,
    },
    /// Want of memory.
    OutOfMemory,
    /// An archive of reports is refused.
    Archive {
        /// The offset of the byte, counted from 0, at which it is told.
        at: u64,
        /// Why it is refused.
        fault: ArchiveFault,
    },
}

impl Reason {
    /// The exit status, 0 to 7.
    pub fn status(&self) -> u8
        ensures { result ≡ status_of self.now }
    {
        match self {
            Reason::Clean => 0,
            Reason::Marked => 1,
            Reason::Words { .. } => 2,
            Reason::Input { .. } => 3,
            Reason::ReadFault => 4,
            Reason::WriteFault { .. } => 5,
            Reason::OutOfMemory => 6,
            Reason::Archive { .. } => 7,
        }
    }
}
