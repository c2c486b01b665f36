//! The keys of a SENT channel, and the channel that is made of them (SAE J2716); the keys' names, ranges and
//! usual values are this project's own.
ghost use Rattle.std.specs.Prelude.{◌≡◌, List};
ghost use Rattle.link_words.specs.declared.setting.Setting.{Setting};
ghost use Rattle.link_words.specs.Choices.{Holds};
ghost use Rattle.link_words.specs.Sent.{sent_row, sent_frames, sent_channel};

use crate::setting::{Chosen, Key, Row};
use crate::value::{Values, spells};
use line_base::WordFault;
use receiver_core::{ChannelSetup, Serial};
use sent_fast::Layout;
use sent_frame::{CrcForm, SentSetup};

/// The nominal tick where none is set, in ns.
const USUAL_TICK: u32 = 3_000;

/// The number of data nibbles where none is set.
const USUAL_NIBBLES: u8 = 6;

/// The row of the key that a text names.
#[tactic(auto, unfolding(crate::specs::Sent::sent_row))]
pub(crate) fn row_of(name: &[u8]) -> Option<Row>
    ensures { result ≡ sent_row name.now }
{
    let (key, values) = if spells(name, b"line") {
        (Key::Line, Values::Count { low: 0, high: 15 })
    } else if spells(name, b"tick") {
        (
            Key::Tick,
            Values::Time {
                low: 3_000,
                high: 90_000,
            },
        )
    } else if spells(name, b"jitter") {
        (
            Key::Jitter,
            Values::Time {
                low: 1,
                high: 9_000,
            },
        )
    } else if spells(name, b"nibbles") {
        (Key::Nibbles, Values::Count { low: 1, high: 6 })
    } else if spells(name, b"pause") {
        (Key::Pause, Values::Answer)
    } else if spells(name, b"crc") {
        (Key::Crc, Values::Crc)
    } else if spells(name, b"layout") {
        (Key::Layout, Values::Layout)
    } else if spells(name, b"serial") {
        (Key::Serial, Values::Serial)
    } else {
        return None;
    };
    Some(Row { key, values })
}

/// The frames that are set, or `Setup`.
#[tactic(auto, unfolding(crate::specs::Sent::sent_frames))]
pub(crate) fn frames_of(chosen: &Chosen) -> Result<SentSetup, WordFault>
    ensures { (settings : List Setting) → Holds chosen.now settings → result ≡ sent_frames settings }
{
    let tick = chosen.time(Key::Tick).unwrap_or(USUAL_TICK);
    let jitter = chosen.time(Key::Jitter).unwrap_or(tick / 10);
    let nibbles = chosen.count(Key::Nibbles).unwrap_or(USUAL_NIBBLES);
    let pause = chosen.answer(Key::Pause).unwrap_or(false);
    let crc = chosen.crc(Key::Crc).unwrap_or(CrcForm::New);
    match SentSetup::new(tick, jitter, nibbles, pause, crc) {
        Ok(setup) => Ok(setup),
        Err(_) => Err(WordFault::Setup),
    }
}

/// The channel that is set; `Absent` without a line, `Setup` where its frames are refused.
#[tactic(auto, unfolding(crate::specs::Sent::sent_channel))]
pub(crate) fn channel_of(chosen: &Chosen) -> Result<ChannelSetup, WordFault>
    ensures { (settings : List Setting) → Holds chosen.now settings → result ≡ sent_channel settings }
{
    let line = chosen.count(Key::Line).ok_or(WordFault::Absent)?;
    let setup = frames_of(chosen)?;
    let layout = chosen.layout(Key::Layout).unwrap_or(Layout::Raw);
    let serial = chosen.serial(Key::Serial).unwrap_or(Serial::Absent);
    Ok(ChannelSetup::Sent {
        line,
        setup,
        layout,
        serial,
    })
}
