//! The line of a report, and the report of a line.
ghost use Rattle.std.specs.Prelude.{◌≡◌, ◌↔◌, ℕ, ◌<◌, ◌≤◌, ◌==◌, ◌++◌, [], Ok, length};
ghost use Rattle.line_base.specs.Steps.{check};
ghost use Rattle.receiver_core.specs.declared.report.Report.{Report};
ghost use Rattle.report_text.specs.declared.fault.TextFault.{TextFault};
ghost use Rattle.report_text.specs.Fields.{spaced};
ghost use Rattle.report_text.specs.Readings.{Reads, left};
ghost use Rattle.report_text.specs.Reports.{IsTellable, says, report_text, behind_word, what_read, report_read};

use crate::decimal::{push_channel, push_decimal, read_channel, read_number};
use crate::downlink::{push_down, read_down};
use crate::fault::TextFault;
use crate::fields::{Rest, next_field, spells};
use crate::gaps::{push_gap, read_gap};
use crate::rules::{push_bad, read_bad};
use crate::{psi5, sent, spc};
use arrayvec::ArrayString;
use receiver_core::{Report, What};

/// The room for a report line.
pub const LINE_ROOM: usize = 96;

/// Adds what a report says.
fn push_what(out: &mut ArrayString<LINE_ROOM>, what: &What)
    requires { length out.old.bytes ≤ 24 }
    ensures bytes { out.new.bytes ≡ out.old.bytes ++ spaced (says what.now) }
    ensures len { length out.new.bytes ≤ 80 }
{
    match what {
        What::Frame(frame) => sent::push_frame(out, frame),
        What::Fast(value) => sent::push_value(out, value),
        What::Counter { before, now } => sent::push_counter(out, *before, *now),
        What::Short { id, value } => sent::push_short(out, *id, *value),
        What::Enhanced { id, value, wide } => sent::push_enhanced(out, *id, *value, *wide),
        What::Answer { code, frame } => spc::push_answer(out, *code, frame),
        What::NoAnswer { code } => spc::push_no_answer(out, *code),
        What::Burst {
            slot,
            payload,
            code,
        } => psi5::push_burst(out, *slot, payload, code),
        What::Block { id, value } => psi5::push_block(out, *id, *value),
        What::Done { blocks } => psi5::push_done(out, *blocks),
        What::Down(down) => push_down(out, down),
        What::Bad(rule) => push_bad(out, *rule),
        What::Gap { count } => push_gap(out, *count),
    }
}

/// Writes the line of a report of a channel, 0 to 15, without its LF. Of a number that has more hexadecimal
/// digits than its field, the lowest are written; a value that the nibbles alone tell has no fields.
pub fn write_report(channel: u8, report: &Report, out: &mut ArrayString<LINE_ROOM>)
    requires channel { channel < 16 }
    requires empty { out.old.bytes ≡ [] }
    ensures text { out.new.bytes ≡ report_text channel report.now }
    ensures len { length out.new.bytes < LINE_ROOM }
{
    push_channel(out, channel);
    out.push(' ');
    push_decimal(out, report.place);
    push_what(out, &report.what);
}

/// What stands behind a keyword; `Word` for no keyword.
#[tactic(auto, unfolding(crate::specs::Reports::behind_word))]
fn read_behind<'a>(word: &[u8], rest: Rest<'a>) -> Result<(What, Rest<'a>), TextFault>
    ensures { Reads result (behind_word word.now (left rest.entry)) }
{
    if spells(word, b"frame") {
        sent::read_frame(rest)
    } else if spells(word, b"one") {
        sent::read_one(rest)
    } else if spells(word, b"two") {
        sent::read_two(rest)
    } else if spells(word, b"secure") {
        sent::read_secure(rest)
    } else if spells(word, b"split") {
        sent::read_split(rest)
    } else if spells(word, b"counter") {
        sent::read_counter(rest)
    } else if spells(word, b"short") {
        sent::read_short(rest)
    } else if spells(word, b"enhanced8") {
        sent::read_narrow(rest)
    } else if spells(word, b"enhanced4") {
        sent::read_wide(rest)
    } else if spells(word, b"answer") {
        spc::read_answer(rest)
    } else if spells(word, b"noanswer") {
        spc::read_no_answer(rest)
    } else if spells(word, b"psi5") {
        psi5::read_burst(rest)
    } else if spells(word, b"init") {
        psi5::read_init(rest)
    } else if spells(word, b"initdone") {
        psi5::read_done(rest)
    } else if spells(word, b"down") {
        read_down(rest)
    } else if spells(word, b"bad") {
        read_bad(rest)
    } else if spells(word, b"gap") {
        read_gap(rest)
    } else {
        Err(TextFault::Word)
    }
}

/// What the next fields say: a keyword, and what stands behind it.
#[tactic(auto, unfolding(crate::specs::Reports::what_read))]
fn read_what<'a>(rest: Rest<'a>) -> Result<(What, Rest<'a>), TextFault>
    ensures { Reads result (what_read (left rest.entry)) }
{
    let (word, rest) = next_field(rest)?;
    read_behind(word, rest)
}

/// `End` where the text goes on.
#[tactic(auto, using(crate::proofs::Cutting::fields_some))]
fn expect_end(rest: Rest) -> Result<(), TextFault>
    ensures { result ≡ check (length (left rest.entry) == 0) TextFault.End }
{
    match rest {
        None => Ok(()),
        Some(_) => Err(TextFault::End),
    }
}

/// The channel and the report whose line these bytes are.
#[tactic(auto, unfolding(crate::specs::Reports::report_read))]
fn report_of(text: &[u8]) -> Result<(u8, Report), TextFault>
    ensures { result ≡ report_read text.now }
{
    let (channel, rest) = read_channel(Some(text))?;
    let (place, rest) = read_number(rest)?;
    match read_what(rest) {
        Ok((what, rest)) => {
            expect_end(rest)?;
            Ok((channel, Report { place, what }))
        }
        Err(fault) => Err(fault),
    }
}

/// The channel, 0 to 15, and the report whose line, without its LF, a text is; else the first fault from the
/// left. `Word`: a field is needed and the text has ended or the field is empty, or a word is no keyword, no
/// name of a rule or no word of what data A says. `Number`: a number isn't in its spelling. `Range`: a number is
/// outside its range, as a channel above 15, a place of 2^64 or more, or a gap of no edges. `End`: the text goes
/// on behind the last field. What data A says isn't compared with data A.
pub fn read_report(text: &str) -> Result<(u8, Report), TextFault>
    ensures value { result ≡ report_read text.now }
    ensures exact { (channel : ℕ) (report : Report) → (result ≡ Ok (channel, report)) ↔ ((text.now ≡ report_text channel report) × (channel < 16) × IsTellable report) }
{
    report_of(text.as_bytes())
}
