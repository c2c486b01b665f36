//! What a receiver answers.
ghost use Rattle.std.specs.Prelude.{◌≡◌};

use line_base::Rule;
use psi5_downlink::Down;
use psi5_frame::Payload;
use psi5_init::Code;
use sent_fast::Fast;
use sent_frame::SentFrame;

/// What a report says.
#[derive(Clone, Copy, Debug, PartialEq, Eq)]
pub enum What {
    /// A good SENT frame.
    Frame(SentFrame),
    /// What the data nibbles of a good frame say in the channel's layout, where that isn't raw.
    Fast(Fast),
    /// The counter of a frame doesn't follow the one before.
    Counter {
        /// The counter before, 0 to 255.
        before: u8,
        /// The counter of this frame.
        now: u8,
    },
    /// A short serial message.
    Short {
        /// The message ID, 0 to 15.
        id: u8,
        /// The value, 0 to 255.
        value: u8,
    },
    /// An enhanced serial message.
    Enhanced {
        /// The message ID, 0 to 255, or 0 to 15 where the value is wide.
        id: u8,
        /// The value, 0 to 4,095, or 0 to 65,535 where it is wide.
        value: u16,
        /// Whether the value has 16 bits and the ID 4, and not 12 and 8.
        wide: bool,
    },
    /// An SPC sensor answered its trigger.
    Answer {
        /// The code that the trigger chose, 0 to 7.
        code: u8,
        /// The frame of the answer.
        frame: SentFrame,
    },
    /// No SPC sensor answered a trigger.
    NoAnswer {
        /// The code that the trigger chose, 0 to 7.
        code: u8,
    },
    /// A good PSI5 burst.
    Burst {
        /// The time slot that it answers, 0 to 7, where the channel has slots.
        slot: Option<u8>,
        /// What its frame says.
        payload: Payload,
        /// What data A says, where it has 10 bits.
        code: Option<Code>,
    },
    /// A whole block of a PSI5 initialisation.
    Block {
        /// The block's ID, 1 to 16.
        id: u8,
        /// The block's value, 0 to 15.
        value: u8,
    },
    /// The end of a PSI5 initialisation.
    Done {
        /// How many blocks were told in it.
        blocks: u64,
    },
    /// A good downlink frame.
    Down(Down),
    /// A rule is violated.
    Bad(Rule),
    /// Edges were lost.
    Gap {
        /// How many, at least 1.
        count: u64,
    },
}

/// What a channel has to tell, and where.
#[derive(Clone, Copy, Debug, PartialEq, Eq)]
pub struct Report {
    /// The number of the edge at which it stands, counted from 0 in the channel; for a gap that of its
    /// first lost edge.
    pub place: u64,
    /// What it says.
    pub what: What,
}

impl Default for Report {
    ghost use Rattle.receiver_core.specs.declared.report.What.TheVariants as What;

    ghost is_default = { λ report. report ≡ record { place = 0; what = What.Gap 0 } };

    /// A gap of no edges at place 0. It says nothing, and stands in the unused places of a list of reports.
    fn default() -> Report {
        Report {
            place: 0,
            what: What::Gap { count: 0 },
        }
    }
}
