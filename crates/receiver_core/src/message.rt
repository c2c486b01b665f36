//! What a sensor, or a control unit, is told to send on a channel's lines.
use psi5_downlink::Down;
use psi5_frame::Payload;
use sent_frame::SentFrame;

/// One message of a sensor, or of the control unit that it answers.
#[derive(Clone, Copy, Debug, PartialEq, Eq)]
pub enum Message {
    /// A SENT frame. While a serial message is on its way, bits 3 and 2 of its status are that message's.
    Frame(SentFrame),
    /// A short serial message, over the status nibbles of the sixteen frames that follow.
    Short {
        /// The message ID, 0 to 15.
        id: u8,
        /// The value, 0 to 255.
        value: u8,
    },
    /// An enhanced serial message, over the status nibbles of the eighteen frames that follow.
    Enhanced {
        /// The message ID, 0 to 255, or 0 to 15 where the value is wide.
        id: u8,
        /// The value, 0 to 4,095, or 0 to 65,535 where it is wide.
        value: u16,
        /// Whether the value has 16 bits and the ID 4, and not 12 and 8.
        wide: bool,
    },
    /// An SPC trigger, and the answer to it.
    Answer {
        /// The code of the trigger, 0 to 7.
        code: u8,
        /// The frame of the answer.
        frame: SentFrame,
    },
    /// An SPC trigger that no sensor answers.
    Silent {
        /// The code of the trigger, 0 to 7.
        code: u8,
    },
    /// A sync pulse of a PSI5 bus.
    Sync,
    /// A PSI5 burst.
    Burst {
        /// The time slot that it answers, 0 to 7, where the channel has slots.
        slot: Option<u8>,
        /// What its frame says.
        payload: Payload,
    },
    /// A downlink frame.
    Down(Down),
}
