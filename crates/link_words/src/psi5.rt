//! The keys of a PSI5 channel, and the channel that is made of them (PSI5 V2.1, base standard); the keys' names,
//! ranges and usual values are this project's own.
ghost use Rattle.std.specs.Prelude.{◌≡◌, List};
ghost use Rattle.link_words.specs.declared.setting.Setting.{Setting};
ghost use Rattle.link_words.specs.Choices.{Holds};
ghost use Rattle.link_words.specs.Psi5.{psi5_row, parts_of, psi5_frames, psi5_slots, psi5_channel};

use crate::setting::{Chosen, Key, Row};
use crate::value::{Values, spells};
use line_base::{Spans, WordFault};
use psi5_frame::{Check, Parts, Psi5Setup};
use psi5_slots::SlotSetup;
use receiver_core::{ChannelSetup, SyncSlots};

/// The nominal bit time where no rate is set, in ns.
const USUAL_BIT: u32 = 8_000;

/// How many bits data A has where nothing is said of it.
const USUAL_DATA_A: u8 = 10;

/// The row of the key that a text names.
#[tactic(auto, unfolding(crate::specs::Psi5::psi5_row))]
pub(crate) fn row_of(name: &[u8]) -> Option<Row>
    ensures { result ≡ psi5_row name.now }
{
    let (key, values) = if spells(name, b"line") {
        (Key::Line, Values::Count { low: 0, high: 15 })
    } else if spells(name, b"rate") {
        (Key::Rate, Values::Rate)
    } else if spells(name, b"jitter") {
        (Key::Jitter, Values::Time { low: 1, high: 500 })
    } else if spells(name, b"m") {
        (Key::Messaging, Values::Either { one: 0, other: 2 })
    } else if spells(name, b"f") {
        (Key::Control, Values::Count { low: 0, high: 4 })
    } else if spells(name, b"s") {
        (Key::Status, Values::Count { low: 0, high: 2 })
    } else if spells(name, b"b") {
        (Key::DataB, Values::Count { low: 0, high: 12 })
    } else if spells(name, b"a") {
        (Key::DataA, Values::Count { low: 10, high: 24 })
    } else if spells(name, b"check") {
        (Key::Check, Values::Check)
    } else if spells(name, b"sync") {
        (Key::Sync, Values::Count { low: 0, high: 15 })
    } else if spells(name, b"slots") {
        (Key::Slots, Values::Spans { most: 10_000_000 })
    } else if spells(name, b"init") {
        (Key::Init, Values::Count { low: 1, high: 16 })
    } else {
        return None;
    };
    Some(Row { key, values })
}

/// The widths of the parts of a frame, in bits.
fn parts_of(chosen: &Chosen) -> Parts
    ensures { (settings : List Setting) → Holds chosen.now settings → result ≡ parts_of settings }
{
    Parts {
        m: chosen.count(Key::Messaging).unwrap_or(0),
        f: chosen.count(Key::Control).unwrap_or(0),
        s: chosen.count(Key::Status).unwrap_or(0),
        b: chosen.count(Key::DataB).unwrap_or(0),
        a: chosen.count(Key::DataA).unwrap_or(USUAL_DATA_A),
    }
}

/// The frames that are set, or `Setup`.
#[tactic(auto, unfolding(crate::specs::Psi5::psi5_frames))]
fn frames_of(chosen: &Chosen) -> Result<Psi5Setup, WordFault>
    ensures { (settings : List Setting) → Holds chosen.now settings → result ≡ psi5_frames settings }
{
    let bit = chosen.time(Key::Rate).unwrap_or(USUAL_BIT);
    let jitter = chosen.time(Key::Jitter).unwrap_or(bit / 16);
    let check = chosen.check(Key::Check).unwrap_or(Check::Parity);
    match Psi5Setup::new(bit, parts_of(chosen), check, jitter) {
        Ok(setup) => Ok(setup),
        Err(_) => Err(WordFault::Setup),
    }
}

/// The sync line and the slots of these frames; `Setup` where one stands without the other, or where the windows
/// are refused.
#[tactic(auto, unfolding(crate::specs::Psi5::psi5_slots))]
fn slots_of(
    frame: &Psi5Setup,
    sync: Option<u8>,
    windows: Option<Spans>,
) -> Result<Option<SyncSlots>, WordFault>
    ensures { result ≡ psi5_slots frame.now sync windows }
{
    match sync {
        None => match windows {
            None => Ok(None),
            Some(_) => Err(WordFault::Setup),
        },
        Some(line) => match windows {
            None => Err(WordFault::Setup),
            Some(windows) => match SlotSetup::new(windows.as_slice(), frame) {
                Ok(setup) => Ok(Some(SyncSlots { line, setup })),
                Err(_) => Err(WordFault::Setup),
            },
        },
    }
}

/// The channel that is set; `Absent` without a line, `Setup` where its frames or its slots are refused.
#[tactic(auto, unfolding(crate::specs::Psi5::psi5_channel))]
pub(crate) fn channel_of(chosen: &Chosen) -> Result<ChannelSetup, WordFault>
    ensures { (settings : List Setting) → Holds chosen.now settings → result ≡ psi5_channel settings }
{
    let line = chosen.count(Key::Line).ok_or(WordFault::Absent)?;
    let setup = frames_of(chosen)?;
    let slots = slots_of(&setup, chosen.count(Key::Sync), chosen.spans(Key::Slots))?;
    Ok(ChannelSetup::Psi5 {
        line,
        setup,
        slots,
        init: chosen.count(Key::Init),
    })
}
