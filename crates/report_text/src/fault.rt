//! Why a text is no line of a report. The names and the numbers are this project's own.
ghost use Rattle.std.specs.Prelude.{◌≡◌};
ghost use Rattle.report_text.specs.Faults.{text_fault_number};

/// The first thing that is wrong with a text that is no line of a report, from the left.
#[derive(Clone, Copy, Debug, PartialEq, Eq)]
pub enum TextFault {
    /// A field is needed and the text has ended or the field is empty, or a word is no keyword, no name of a
    /// rule or no word of what data A says.
    Word,
    /// A number isn't in its spelling: a wrong digit, a wrong number of hexadecimal digits, a leading zero, a
    /// hyphen without a number or before a 0, a slot of more than one digit.
    Number,
    /// A number is spelled right and is outside its range: a channel above 15, a place or a count of 2^64 or
    /// more, a gap of no edges, a slot above 7.
    Range,
    /// The text goes on behind the last field.
    End,
}

impl TextFault {
    /// The fault's number, 1 to 4.
    pub fn number(self) -> u8
        ensures { result ≡ text_fault_number self }
    {
        match self {
            TextFault::Word => 1,
            TextFault::Number => 2,
            TextFault::Range => 3,
            TextFault::End => 4,
        }
    }
}
