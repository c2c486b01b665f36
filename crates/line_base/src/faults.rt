//! Why a call, a word, a line of input or a setup is refused. The names and the numbers are this project's
//! own; a number that has no fault isn't used again.
ghost use Rattle.std.specs.Prelude.{◌≡◌, ◌≤◌, length};
ghost use Rattle.line_base.specs.Faults.{line_fault_name, line_fault_number, setup_fault_number, word_fault_name, word_fault_number};

use thiserror::Error;

/// A pull or a put failed: the count of faults of the object rose.
#[derive(Clone, Copy, Debug, PartialEq, Eq)]
pub struct Failed;

/// Why a word of the command line is refused. It is printed by its name.
#[derive(Clone, Copy, Debug, PartialEq, Eq, Error)]
#[error("{}", self.name())]
pub enum WordFault {
    /// The word has to be there and isn't.
    Missing,
    /// The first word is no command.
    Command,
    /// The word has no colon, or the part before it is no kind of channel.
    Kind,
    /// A pair has no `=`, the kind doesn't have its key, or the key stands before.
    Key,
    /// A value is outside its row.
    Value,
    /// A required key isn't there.
    Absent,
    /// The values are refused together.
    Setup,
    /// More than sixteen channels.
    Channels,
    /// A word stands after the last one.
    Extra,
    /// The word names a part that isn't built yet.
    NotBuilt,
    /// The channel isn't of the kind that the command wants.
    Unfit,
}

impl WordFault {
    /// The fault's name, as it is printed: that of its variant, at most 12 letters.
    pub fn name(self) -> &'static str
        ensures name { result.now ≡ word_fault_name self }
        ensures short { length result.now ≤ 12 }
    {
        match self {
            WordFault::Missing => "Missing",
            WordFault::Command => "Command",
            WordFault::Kind => "Kind",
            WordFault::Key => "Key",
            WordFault::Value => "Value",
            WordFault::Absent => "Absent",
            WordFault::Setup => "Setup",
            WordFault::Channels => "Channels",
            WordFault::Extra => "Extra",
            WordFault::NotBuilt => "NotBuilt",
            WordFault::Unfit => "Unfit",
        }
    }

    /// The fault's number, 1 to 11.
    pub fn number(self) -> u8
        ensures { result ≡ word_fault_number self }
    {
        match self {
            WordFault::Missing => 1,
            WordFault::Command => 2,
            WordFault::Kind => 3,
            WordFault::Key => 4,
            WordFault::Value => 5,
            WordFault::Absent => 6,
            WordFault::Setup => 7,
            WordFault::Channels => 8,
            WordFault::Extra => 9,
            WordFault::NotBuilt => 10,
            WordFault::Unfit => 11,
        }
    }
}

/// Why a line of input is refused. It is printed by its name.
#[derive(Clone, Copy, Debug, PartialEq, Eq, Error)]
#[error("{}", self.name())]
pub enum LineFault {
    /// A wrong number of fields, or a bad header.
    Field,
    /// A number isn't in its spelling.
    Number,
    /// A line above 15.
    Line,
    /// A level that is neither `0` nor `1`.
    Level,
    /// The time is less than that of the row before.
    TimeBack,
    /// The time is above 10^15 ns, or a value doesn't fit.
    TooLarge,
    /// The line has more than 512 bytes before its end.
    LineTooLong,
    /// Byte number 2^36, counted from 1, is there.
    InputTooLong,
    /// The line may not stand at this place.
    Order,
    /// Line 1 begins as a version line and isn't one.
    Version,
}

impl LineFault {
    /// The fault's name, as it is printed: that of its variant, at most 12 letters.
    pub fn name(self) -> &'static str
        ensures name { result.now ≡ line_fault_name self }
        ensures short { length result.now ≤ 12 }
    {
        match self {
            LineFault::Field => "Field",
            LineFault::Number => "Number",
            LineFault::Line => "Line",
            LineFault::Level => "Level",
            LineFault::TimeBack => "TimeBack",
            LineFault::TooLarge => "TooLarge",
            LineFault::LineTooLong => "LineTooLong",
            LineFault::InputTooLong => "InputTooLong",
            LineFault::Order => "Order",
            LineFault::Version => "Version",
        }
    }

    /// The fault's number, 1 to 9 or 11.
    pub fn number(self) -> u8
        ensures { result ≡ line_fault_number self }
    {
        match self {
            LineFault::Field => 1,
            LineFault::Number => 2,
            LineFault::Line => 3,
            LineFault::Level => 4,
            LineFault::TimeBack => 5,
            LineFault::TooLarge => 6,
            LineFault::LineTooLong => 7,
            LineFault::InputTooLong => 8,
            LineFault::Order => 9,
            LineFault::Version => 11,
        }
    }
}

/// The first value of a setup that is refused.
#[derive(Clone, Copy, Debug, PartialEq, Eq)]
pub enum SetupFault {
    /// The nominal tick is outside 3,000 to 90,000 ns.
    Tick,
    /// The jitter is 0 ns, or too large for the tick, the bit or the period.
    Jitter,
    /// The frame hasn't 1 to 6 data nibbles.
    Nibbles,
    /// The layout wants another number of nibbles.
    Layout,
    /// A pause pulse where none may be.
    Pause,
    /// The trigger windows.
    Windows,
    /// The delay's span.
    Delay,
    /// The quiet time.
    Quiet,
    /// The bit time is neither 8,000 nor 5,300 ns.
    Bit,
    /// The widths of the payload's parts.
    Parts,
    /// The slots' windows.
    Slots,
    /// The repeat count.
    Repeats,
    /// The sync period is outside 10,000 to 10,000,000 ns.
    Period,
    /// A line above 15, or one line for two uses.
    Lines,
}

impl SetupFault {
    /// The fault's number, 1 to 14.
    pub fn number(self) -> u8
        ensures { result ≡ setup_fault_number self }
    {
        match self {
            SetupFault::Tick => 1,
            SetupFault::Jitter => 2,
            SetupFault::Nibbles => 3,
            SetupFault::Layout => 4,
            SetupFault::Pause => 5,
            SetupFault::Windows => 6,
            SetupFault::Delay => 7,
            SetupFault::Quiet => 8,
            SetupFault::Bit => 9,
            SetupFault::Parts => 10,
            SetupFault::Slots => 11,
            SetupFault::Repeats => 12,
            SetupFault::Period => 13,
            SetupFault::Lines => 14,
        }
    }
}
