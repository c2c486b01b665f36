//! Why an archive of reports is refused. The names and the numbers are this project's own.
ghost use Rattle.std.specs.Prelude.{◌≡◌, ◌≤◌, length};
ghost use Rattle.line_base.specs.Faults.{archive_fault_name, archive_fault_number};

use thiserror::Error;

/// What is wrong at a byte of an archive, with the offset of which, counted from 0, it is told. It is printed by its
/// name.
#[derive(Clone, Copy, Debug, PartialEq, Eq, Error)]
#[error("{}", self.name())]
pub enum ArchiveFault {
    /// One of the first five bytes is another. It is told at that byte.
    Header,
    /// The byte of a channel is above 15, and isn't the one of the end. It is told at that byte.
    Channel,
    /// The byte of a tag is none of the table's. It is told at that byte.
    Tag,
    /// A number has more bytes than it needs, or is 2^64 or more. It is told at the byte that shows it.
    Number,
    /// A field is outside its bound. It is told at the field's last byte.
    Range,
    /// The number of records at the end isn't how many there are. It is told at that number's last byte.
    Count,
    /// A byte stands behind the end. It is told at that byte.
    Trailing,
    /// The bytes stop before the end is whole. It is told at the number of bytes.
    Truncated,
    /// Byte number 2^36, counted from 1, is there. It is told at that byte.
    TooLong,
}

impl ArchiveFault {
    /// The fault's name, as it is printed: that of its variant, at most 12 letters.
    pub fn name(self) -> &'static str
        ensures name { result.now ≡ archive_fault_name self }
        ensures short { length result.now ≤ 12 }
    {
        match self {
            ArchiveFault::Header => "Header",
            ArchiveFault::Channel => "Channel",
            ArchiveFault::Tag => "Tag",
            ArchiveFault::Number => "Number",
            ArchiveFault::Range => "Range",
            ArchiveFault::Count => "Count",
            ArchiveFault::Trailing => "Trailing",
            ArchiveFault::Truncated => "Truncated",
            ArchiveFault::TooLong => "TooLong",
        }
    }

    /// The fault's number, 1 to 9.
    pub fn number(self) -> u8
        ensures { result ≡ archive_fault_number self }
    {
        match self {
            ArchiveFault::Header => 1,
            ArchiveFault::Channel => 2,
            ArchiveFault::Tag => 3,
            ArchiveFault::Number => 4,
            ArchiveFault::Range => 5,
            ArchiveFault::Count => 6,
            ArchiveFault::Trailing => 7,
            ArchiveFault::Truncated => 8,
            ArchiveFault::TooLong => 9,
        }
    }
}
