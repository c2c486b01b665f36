//! The words that name a channel: a kind, a colon, and pairs of a key and its value.
ghost use Rattle.std.specs.Prelude.{◌≡◌, None, Ok, Err, IfOk, IfErr, List, []};
ghost use Rattle.receiver_core.specs.Setups.{setup_fault_of};
ghost use Rattle.link_words.specs.declared.setting.Setting.{Setting};
ghost use Rattle.link_words.specs.Choices.{Holds};
ghost use Rattle.link_words.specs.Specs.{kind_in, row_in, pair_read, pairs_read, pairs_in, channel_set, without_fault, spec_read};

use crate::setting::{Chosen, Row, Setting};
use crate::value::{spells, value_of};
use crate::{psi5, sent, spc, tooth};
use line_base::WordFault;
use line_base::text::cut;
use receiver_core::ChannelSetup;

/// A kind of channel.
#[derive(Clone, Copy)]
enum Kind {
    /// SENT frames.
    Sent,
    /// SPC transactions.
    Spc,
    /// PSI5 bursts.
    Psi5,
    /// Frames of a tooth-gap downlink.
    Tooth,
}

/// The kind that a text names, else `Kind`.
#[tactic(auto, unfolding(crate::specs::Specs::kind_in))]
fn kind_of(text: &[u8]) -> Result<Kind, WordFault>
    ensures { result ≡ kind_in text.now }
{
    if spells(text, b"sent") {
        Ok(Kind::Sent)
    } else if spells(text, b"spc") {
        Ok(Kind::Spc)
    } else if spells(text, b"psi5") {
        Ok(Kind::Psi5)
    } else if spells(text, b"tooth") {
        Ok(Kind::Tooth)
    } else {
        Err(WordFault::Kind)
    }
}

/// The row of the key that a text names, if the kind has it.
fn row_of(kind: Kind, name: &[u8]) -> Option<Row>
    ensures { result ≡ row_in kind name.now }
{
    match kind {
        Kind::Sent => sent::row_of(name),
        Kind::Spc => spc::row_of(name),
        Kind::Psi5 => psi5::row_of(name),
        Kind::Tooth => tooth::row_of(name),
    }
}

/// The channel of the kind that is set, or why what is set makes none.
fn channel_of(kind: Kind, chosen: &Chosen) -> Result<ChannelSetup, WordFault>
    ensures { (settings : List Setting) → Holds chosen.now settings → result ≡ channel_set kind settings }
{
    match kind {
        Kind::Sent => sent::channel_of(chosen),
        Kind::Spc => spc::channel_of(chosen),
        Kind::Psi5 => psi5::channel_of(chosen),
        Kind::Tooth => tooth::channel_of(chosen),
    }
}

/// What a pair, cut at its first `=`, says behind what was chosen.
#[tactic(auto, unfolding(crate::specs::Specs::parts_read))]
fn read_pair(kind: Kind, chosen: &Chosen, pair: &[u8]) -> Result<Setting, WordFault>
    ensures { (before : List Setting) → Holds chosen.now before → result ≡ pair_read kind before pair.now }
{
    let (name, text) = cut(pair, b'=');
    let text = text.ok_or(WordFault::Key)?;
    let row = row_of(kind, name).ok_or(WordFault::Key)?;
    if chosen.value(row.key).is_some() {
        return Err(WordFault::Key);
    }
    let value = value_of(row.values, text).ok_or(WordFault::Value)?;
    Ok(Setting {
        key: row.key,
        value,
    })
}

/// What the pairs between the commas choose, or the first fault from the left.
fn read_pairs(kind: Kind, text: &[u8]) -> Result<Chosen, WordFault>
    ensures good { IfOk result (λ chosen. (settings : List Setting) × Holds chosen settings × (pairs_read kind [] (pairs_in text.now) ≡ Ok settings)) }
    ensures fault { IfErr result (λ fault. pairs_read kind [] (pairs_in text.now) ≡ Err fault) }
{
    let mut chosen = Chosen::new();
    let mut rest = Some(text);
    'pairs: while let Some(text) = rest {
        let (pair, others) = cut(text, b',');
        chosen.put(read_pair(kind, &chosen, pair)?);
        rest = others;
    }
    Ok(chosen)
}

/// The setup, or `Setup` where it has a fault.
#[tactic(auto, unfolding(crate::specs::Specs::without_fault))]
fn without_fault(setup: ChannelSetup) -> Result<ChannelSetup, WordFault>
    ensures value { result ≡ without_fault setup }
    ensures faultless { IfOk result (λ setup. setup_fault_of setup ≡ None) }
{
    match setup.fault() {
        None => Ok(setup),
        Some(_) => Err(WordFault::Setup),
    }
}

/// The channel that a SPEC names, or its fault.
#[tactic(auto, unfolding(crate::specs::Specs::channel_read))]
pub(crate) fn read_spec(text: &[u8]) -> Result<ChannelSetup, WordFault>
    ensures value { result ≡ spec_read text.now }
    ensures faultless { IfOk result (λ setup. setup_fault_of setup ≡ None) }
{
    let (kind, pairs) = cut(text, b':');
    let pairs = pairs.ok_or(WordFault::Kind)?;
    let kind = kind_of(kind)?;
    match read_pairs(kind, pairs) {
        Ok(chosen) => match channel_of(kind, &chosen) {
            Ok(setup) => without_fault(setup),
            Err(fault) => Err(fault),
        },
        Err(fault) => Err(fault),
    }
}
