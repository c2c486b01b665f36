//! The keys of a tooth-gap downlink, and the channel that is made of them; the keys' names, ranges and usual values
//! are this project's own.
ghost use Rattle.std.specs.Prelude.{◌≡◌, List};
ghost use Rattle.link_words.specs.declared.setting.Setting.{Setting};
ghost use Rattle.link_words.specs.Choices.{Holds};
ghost use Rattle.link_words.specs.Tooth.{tooth_row, tooth_setup, tooth_channel};

use crate::setting::{Chosen, Key, Row};
use crate::value::{Values, spells};
use line_base::WordFault;
use psi5_downlink::{Form, ToothSetup};
use receiver_core::ChannelSetup;

/// The nominal sync period where none is set, in ns.
const USUAL_PERIOD: u32 = 500_000;

/// The row of the key that a text names.
#[tactic(auto, unfolding(crate::specs::Tooth::tooth_row))]
pub(crate) fn row_of(name: &[u8]) -> Option<Row>
    ensures { result ≡ tooth_row name.now }
{
    let (key, values) = if spells(name, b"line") {
        (Key::Line, Values::Count { low: 0, high: 15 })
    } else if spells(name, b"period") {
        (
            Key::Period,
            Values::Time {
                low: 10_000,
                high: 10_000_000,
            },
        )
    } else if spells(name, b"jitter") {
        (
            Key::Jitter,
            Values::Time {
                low: 1,
                high: 625_000,
            },
        )
    } else if spells(name, b"form") {
        (Key::Form, Values::Form)
    } else {
        return None;
    };
    Some(Row { key, values })
}

/// The downlink that is set, or `Setup`.
#[tactic(auto, unfolding(crate::specs::Tooth::tooth_setup))]
fn setup_of(chosen: &Chosen) -> Result<ToothSetup, WordFault>
    ensures { (settings : List Setting) → Holds chosen.now settings → result ≡ tooth_setup settings }
{
    let period = chosen.time(Key::Period).unwrap_or(USUAL_PERIOD);
    let jitter = chosen.time(Key::Jitter).unwrap_or(period / 16);
    let form = chosen.form(Key::Form).unwrap_or(Form::Short);
    match ToothSetup::new(period, form, jitter) {
        Ok(setup) => Ok(setup),
        Err(_) => Err(WordFault::Setup),
    }
}

/// The channel that is set; `Absent` without a line, `Setup` where its downlink is refused.
#[tactic(auto, unfolding(crate::specs::Tooth::tooth_channel))]
pub(crate) fn channel_of(chosen: &Chosen) -> Result<ChannelSetup, WordFault>
    ensures { (settings : List Setting) → Holds chosen.now settings → result ≡ tooth_channel settings }
{
    let line = chosen.count(Key::Line).ok_or(WordFault::Absent)?;
    match setup_of(chosen) {
        Ok(setup) => Ok(ChannelSetup::Tooth { line, setup }),
        Err(fault) => Err(fault),
    }
}
