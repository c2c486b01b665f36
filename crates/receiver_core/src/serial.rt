//! The serial messages of a SENT channel.
ghost use Rattle.std.specs.Prelude.{◌≡◌, ◌++◌, ◌<◌, [], ◌∷◌, List, ℕ};
ghost use Rattle.sent_serial.specs.Steps.{steps_of};
ghost use Rattle.receiver_core.specs.Serials.{serial_reading};

use crate::setup::Serial;
use sent_serial::{EnhancedReader, SerialStep, ShortReader};

/// Reads the serial messages that the statuses of good frames carry, where the channel has any.
#[derive(Debug, Drop)]
pub enum SerialReader {
    /// There are none.
    Absent,
    /// Short messages.
    Short(ShortReader),
    /// Enhanced messages.
    Enhanced(EnhancedReader),
}

impl SerialReader {
    ghost use Rattle.receiver_core.specs.Serials.{SerialStandsFor};

    /// A reader of these messages that has seen no status.
    pub fn new(serial: Serial) -> SerialReader
        ensures { SerialStandsFor serial result [] }
    {
        match serial {
            Serial::Absent => SerialReader::Absent,
            Serial::Short => SerialReader::Short(ShortReader::new()),
            Serial::Enhanced => SerialReader::Enhanced(EnhancedReader::new()),
        }
    }

    /// Takes the status, 0 to 15, of the next good frame, and gives what it ends.
    pub fn push(&mut self, status: u8) -> SerialStep
        requires { status < 16 }
        ensures stands { (serial : Serial) (seen : List ℕ) → SerialStandsFor serial self.old seen → SerialStandsFor serial self.new (seen ++ status ∷ []) }
        ensures grows { (serial : Serial) (seen : List ℕ) → SerialStandsFor serial self.old seen
            → serial_reading serial (seen ++ status ∷ []) ≡ serial_reading serial seen ++ steps_of result }
    {
        match self {
            SerialReader::Absent => SerialStep::Nothing,
            SerialReader::Short(reader) => reader.push(status),
            SerialReader::Enhanced(reader) => reader.push(status),
        }
    }

    /// Forgets all statuses.
    pub fn reset(&mut self)
        ensures { (serial : Serial) (seen : List ℕ) → SerialStandsFor serial self.old seen → SerialStandsFor serial self.new [] }
    {
        match self {
            SerialReader::Absent => {}
            SerialReader::Short(reader) => reader.reset(),
            SerialReader::Enhanced(reader) => reader.reset(),
        }
    }
}
