//! What a channel is set up with.
ghost use Rattle.std.specs.Prelude.{◌≡◌};
ghost use Rattle.receiver_core.specs.Setups.{high_line_fault, setup_fault_of, line_of_setup, reads_line, nibbles_fit, same_check, same_parts, same_setup, are_wrong_lines, are_other_slots, are_wrong_repeats};

use line_base::SetupFault;
use psi5_downlink::ToothSetup;
use psi5_frame::{Check, Parts, Psi5Setup};
use psi5_slots::SlotSetup;
use sent_fast::Layout;
use sent_frame::SentSetup;
use spc_link::SpcSetup;

/// The greatest line of an edge list.
const MAX_LINE: u8 = 15;

/// How often a block of an initialisation is sent at most.
const MAX_REPEATS: u8 = 16;

/// How many bits a code has.
const CODE_BITS: u8 = 10;

/// Which serial messages the status nibbles carry.
#[derive(Clone, Copy, Debug, PartialEq, Eq)]
pub enum Serial {
    /// None.
    Absent,
    /// Short messages.
    Short,
    /// Enhanced messages.
    Enhanced,
}

/// The sync line of a PSI5 channel, and its time slots.
#[derive(Clone, Copy, Debug, PartialEq, Eq)]
pub struct SyncSlots {
    /// The sync line, 0 to 15, another than the data line.
    pub line: u8,
    /// The slots, made for the channel's frames.
    pub setup: SlotSetup,
}

/// One link on its lines, and what is read of it.
#[derive(Clone, Copy, Debug, PartialEq, Eq)]
pub enum ChannelSetup {
    /// SENT frames.
    Sent {
        /// The line, 0 to 15.
        line: u8,
        /// The frames.
        setup: SentSetup,
        /// How their data nibbles are laid out.
        layout: Layout,
        /// Which serial messages their status nibbles carry.
        serial: Serial,
    },
    /// PSI5 bursts.
    Psi5 {
        /// The data line, 0 to 15.
        line: u8,
        /// The frames.
        setup: Psi5Setup,
        /// The sync line and the slots, where bursts are read by them.
        slots: Option<SyncSlots>,
        /// How often a block of an initialisation is sent, 1 to 16, where one is read; data A has 10 bits
        /// then.
        init: Option<u8>,
    },
    /// SPC transactions.
    Spc {
        /// The line, 0 to 15.
        line: u8,
        /// The triggers and the answers.
        setup: SpcSetup,
    },
    /// The tooth-gap downlink of PSI5.
    Tooth {
        /// The sync line, 0 to 15.
        line: u8,
        /// The frames.
        setup: ToothSetup,
    },
}

/// Whether the layout has so many nibbles: 3 in one12, any number in raw, 6 in the others.
fn fits(layout: Layout, nibbles: u8) -> bool
    ensures { result ≡ nibbles_fit layout nibbles }
{
    match layout {
        Layout::Raw => true,
        Layout::One12 => nibbles == 3,
        Layout::Two12 | Layout::Secure12 | Layout::Split16x8 => nibbles == 6,
    }
}

/// Whether two frames end in the same check.
fn is_same_check(one: Check, other: Check) -> bool
    ensures { result ≡ same_check one other }
{
    match one {
        Check::Parity => match other {
            Check::Parity => true,
            Check::Crc => false,
        },
        Check::Crc => match other {
            Check::Parity => false,
            Check::Crc => true,
        },
    }
}

/// Whether the parts of two frames have the same widths.
fn are_same_parts(one: Parts, other: Parts) -> bool
    ensures { result ≡ same_parts one other }
{
    one.m == other.m && one.f == other.f && one.s == other.s && one.b == other.b && one.a == other.a
}

/// Whether two PSI5 setups are the same.
fn is_same_setup(one: &Psi5Setup, other: &Psi5Setup) -> bool
    ensures { result ≡ same_setup one.now other.now }
{
    one.bit() == other.bit()
        && are_same_parts(one.parts(), other.parts())
        && is_same_check(one.check(), other.check())
        && one.jitter() == other.jitter()
}

/// Whether a line is above 15, or the sync line is the data line.
fn wrong_lines(line: u8, slots: &Option<SyncSlots>) -> bool
    ensures { result ≡ are_wrong_lines line slots.now }
{
    match slots {
        None => line > MAX_LINE,
        Some(slots) => line > MAX_LINE || slots.line > MAX_LINE || slots.line == line,
    }
}

/// Whether the slots were made for other frames.
fn other_slots(setup: &Psi5Setup, slots: &Option<SyncSlots>) -> bool
    ensures { result ≡ are_other_slots setup.now slots.now }
{
    match slots {
        None => false,
        Some(slots) => !is_same_setup(&slots.setup.frame(), setup),
    }
}

/// Whether a block is sent less than once or more than 16 times, or data A doesn't have 10 bits.
fn wrong_repeats(setup: &Psi5Setup, init: Option<u8>) -> bool
    ensures { result ≡ are_wrong_repeats setup.now init }
{
    match init {
        None => false,
        Some(repeats) => repeats < 1 || repeats > MAX_REPEATS || setup.parts().a != CODE_BITS,
    }
}

/// The fault of a line above 15.
fn high_line(line: u8) -> Option<SetupFault>
    ensures { result ≡ high_line_fault line }
{
    if line > MAX_LINE {
        return Some(SetupFault::Lines);
    }
    None
}

impl ChannelSetup {
    /// The first fault of the setup: `Lines` where a line is above 15, or the sync line is the data line;
    /// then, for SENT, `Layout` where the layout wants another number of nibbles; for PSI5 `Slots` where the
    /// slots were made for other frames, and `Repeats` where `init` is outside 1 to 16 or data A doesn't have
    /// 10 bits.
    pub fn fault(&self) -> Option<SetupFault>
        ensures { result ≡ setup_fault_of self.now }
    {
        match self {
            ChannelSetup::Sent {
                line,
                setup,
                layout,
                ..
            } => {
                if *line > MAX_LINE {
                    return Some(SetupFault::Lines);
                }
                if !fits(*layout, setup.nibbles()) {
                    return Some(SetupFault::Layout);
                }
                None
            }
            ChannelSetup::Psi5 {
                line,
                setup,
                slots,
                init,
            } => {
                if wrong_lines(*line, slots) {
                    return Some(SetupFault::Lines);
                }
                if other_slots(setup, slots) {
                    return Some(SetupFault::Slots);
                }
                if wrong_repeats(setup, *init) {
                    return Some(SetupFault::Repeats);
                }
                None
            }
            ChannelSetup::Spc { line, .. } => high_line(*line),
            ChannelSetup::Tooth { line, .. } => high_line(*line),
        }
    }

    /// The line of the channel, 0 to 15: the data line where there is a sync line too.
    #[inline(always)]
    fn line(&self) -> u8
        ensures { result ≡ line_of_setup self.now }
    {
        match self {
            ChannelSetup::Sent { line, .. }
            | ChannelSetup::Psi5 { line, .. }
            | ChannelSetup::Spc { line, .. }
            | ChannelSetup::Tooth { line, .. } => *line,
        }
    }

    /// Whether the channel reads this line.
    #[inline(always)]
    pub fn reads(&self, number: u8) -> bool
        ensures { result ≡ reads_line self.now number }
    {
        if number == self.line() {
            return true;
        }
        match self {
            ChannelSetup::Psi5 {
                slots: Some(slots),
                ..
            } => number == slots.line,
            _ => false,
        }
    }
}
