//! The keys of an SPC channel, and the channel that is made of them; the keys' names, ranges and usual values are
//! this project's own, and no product's table is meant.
ghost use Rattle.std.specs.Prelude.{◌≡◌, List};
ghost use Rattle.link_words.specs.declared.setting.Setting.{Setting};
ghost use Rattle.link_words.specs.Choices.{Holds};
ghost use Rattle.link_words.specs.Spc.{spc_row, windows_of, spc_with, spc_channel};

use crate::sent;
use crate::setting::{Chosen, Key, Row};
use crate::value::{Values, spells};
use line_base::{Span, WordFault};
use receiver_core::ChannelSetup;
use sent_frame::Cover;
use spc_link::SpcSetup;

/// The trigger windows where none are set, in tenths of a tick.
const USUAL_WINDOWS: [Span; 4] = [
    Span {
        low: 100,
        high: 160,
    },
    Span {
        low: 210,
        high: 290,
    },
    Span {
        low: 350,
        high: 450,
    },
    Span {
        low: 520,
        high: 660,
    },
];

/// The delay where none is set, in tenths of a tick.
const USUAL_DELAY: Span = Span { low: 40, high: 400 };

/// The quiet time where none is set, in tenths of a tick.
const USUAL_QUIET: u32 = 800;

/// The row of the key that a text names.
#[tactic(auto, unfolding(crate::specs::Spc::spc_row))]
pub(crate) fn row_of(name: &[u8]) -> Option<Row>
    ensures { result ≡ spc_row name.now }
{
    let (key, values) = if spells(name, b"line") {
        (Key::Line, Values::Count { low: 0, high: 15 })
    } else if spells(name, b"tick") {
        (
            Key::Tick,
            Values::Time {
                low: 3_000,
                high: 90_000,
            },
        )
    } else if spells(name, b"jitter") {
        (
            Key::Jitter,
            Values::Time {
                low: 1,
                high: 9_000,
            },
        )
    } else if spells(name, b"nibbles") {
        (Key::Nibbles, Values::Count { low: 1, high: 6 })
    } else if spells(name, b"crc") {
        (Key::Crc, Values::Crc)
    } else if spells(name, b"cover") {
        (Key::Cover, Values::Cover)
    } else if spells(name, b"windows") {
        (Key::Windows, Values::Spans { most: 10_000 })
    } else if spells(name, b"delay") {
        (Key::Delay, Values::Span { most: 10_000 })
    } else if spells(name, b"quiet") {
        (
            Key::Quiet,
            Values::Time {
                low: 0,
                high: 10_000,
            },
        )
    } else {
        return None;
    };
    Some(Row { key, values })
}

/// The transactions that are set, with these windows; or `Setup`.
#[tactic(auto, unfolding(crate::specs::Spc::spc_with))]
fn setup_with(chosen: &Chosen, windows: &[Span]) -> Result<SpcSetup, WordFault>
    ensures { (settings : List Setting) → Holds chosen.now settings → result ≡ spc_with settings windows.now }
{
    let sent = sent::frames_of(chosen)?;
    let delay = chosen.span(Key::Delay).unwrap_or(USUAL_DELAY);
    let quiet = chosen.time(Key::Quiet).unwrap_or(USUAL_QUIET);
    let cover = chosen.cover(Key::Cover).unwrap_or(Cover::Nibbles);
    match SpcSetup::new(sent, windows, delay, quiet, cover) {
        Ok(setup) => Ok(setup),
        Err(_) => Err(WordFault::Setup),
    }
}

/// The transactions that are set, or `Setup`.
fn setup_of(chosen: &Chosen) -> Result<SpcSetup, WordFault>
    ensures { (settings : List Setting) → Holds chosen.now settings → result ≡ spc_with settings (windows_of settings) }
{
    match chosen.spans(Key::Windows) {
        Some(windows) => setup_with(chosen, windows.as_slice()),
        None => setup_with(chosen, &USUAL_WINDOWS),
    }
}

/// The channel that is set; `Absent` without a line, `Setup` where its transactions are refused.
#[tactic(auto, unfolding(crate::specs::Spc::spc_channel))]
pub(crate) fn channel_of(chosen: &Chosen) -> Result<ChannelSetup, WordFault>
    ensures { (settings : List Setting) → Holds chosen.now settings → result ≡ spc_channel settings }
{
    let line = chosen.count(Key::Line).ok_or(WordFault::Absent)?;
    match setup_of(chosen) {
        Ok(setup) => Ok(ChannelSetup::Spc { line, setup }),
        Err(fault) => Err(fault),
    }
}
