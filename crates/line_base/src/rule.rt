//! The rules that a reader reports as violated.
ghost use Rattle.std.specs.Prelude.{◌≡◌};
ghost use Rattle.line_base.specs.Rules.{rule_number};

/// The first thing that is wrong, as a reader reports it. Names, numbers and their order are this
/// project's own.
#[derive(Clone, Copy, Debug, PartialEq, Eq)]
pub enum Rule {
    /// SENT, SPC: a calibration pulse was due and the pulse is none.
    NoCalibration,
    /// SENT: two successive calibration pulses differ by more than 1/64 of the earlier.
    Drift,
    /// SENT, SPC: a nibble pulse carries no value.
    NibbleRange,
    /// SENT, SPC: the CRC-4 is wrong.
    Check,
    /// SENT: the pause pulse doesn't fit.
    PauseRange,
    /// SENT: the last nibble isn't the inverted copy of the first.
    Copy,
    /// Short serial message: a start bit in frames 2 to 16.
    Restart,
    /// Enhanced serial message: bit 3 of frame 13 is 1.
    Zero13,
    /// Enhanced serial message: bit 3 of frame 18 is 1.
    Zero18,
    /// Serial message: the CRC-4 or CRC-6 is wrong.
    SerialCheck,
    /// SPC: the trigger's width is in no window.
    TriggerWidth,
    /// SPC: the answer's first fall is neither in the delay nor after quiet.
    Delay,
    /// PSI5: the burst begins with a fall.
    FirstFall,
    /// PSI5: an interval is below a quarter bit.
    TooShort,
    /// PSI5: no change in the middle of a bit.
    Phase,
    /// PSI5: the second start bit is 1.
    StartBit,
    /// PSI5: an edge stands after the frame's end.
    TooLong,
    /// PSI5: bits are missing.
    TooFew,
    /// PSI5: the line stays high.
    EndsHigh,
    /// PSI5: the parity or the CRC-3 is wrong.
    Psi5Check,
    /// PSI5 slots: the offset is above the last window; a sync pulse is missing.
    NoSync,
    /// PSI5 slots: the offset is in no window.
    NoSlot,
    /// PSI5 slots: the slot was answered since the last sync pulse.
    SlotTwice,
    /// PSI5 initialisation: a code that may not stand here.
    InitOrder,
    /// PSI5 initialisation: another value, or too few or too many repeats.
    InitRepeat,
    /// Tooth gap: an inserted one is 0, or a pulse comes too soon.
    SyncBit,
    /// Tooth gap: the CRC-3 is wrong.
    DownCheck,
    /// Tooth gap: the start's last 0 is 1.
    StartPattern,
}

impl Rule {
    /// The rule's number, 1 to 28.
    pub fn number(self) -> u8
        ensures { result ≡ rule_number self }
    {
        match self {
            Rule::NoCalibration => 1,
            Rule::Drift => 2,
            Rule::NibbleRange => 3,
            Rule::Check => 4,
            Rule::PauseRange => 5,
            Rule::Copy => 6,
            Rule::Restart => 7,
            Rule::Zero13 => 8,
            Rule::Zero18 => 9,
            Rule::SerialCheck => 10,
            Rule::TriggerWidth => 11,
            Rule::Delay => 12,
            Rule::FirstFall => 13,
            Rule::TooShort => 14,
            Rule::Phase => 15,
            Rule::StartBit => 16,
            Rule::TooLong => 17,
            Rule::TooFew => 18,
            Rule::EndsHigh => 19,
            Rule::Psi5Check => 20,
            Rule::NoSync => 21,
            Rule::NoSlot => 22,
            Rule::SlotTwice => 23,
            Rule::InitOrder => 24,
            Rule::InitRepeat => 25,
            Rule::SyncBit => 26,
            Rule::DownCheck => 27,
            Rule::StartPattern => 28,
        }
    }
}
