//! The names of the rules, and the line of a violated one.
ghost use Rattle.std.specs.Prelude.{◌≡◌, ◌≤◌, ◌++◌, find, length};
ghost use Rattle.std.specs.Str.{bytes_eq};
ghost use Rattle.report_text.specs.Fields.{spaced, value_read};
ghost use Rattle.report_text.specs.Readings.{Reads, left};
ghost use Rattle.report_text.specs.Rules.{rule_name, rule_named, rule_in, bad_fields, bad_read};

use crate::fault::TextFault;
use crate::fields::{Rest, next_field};
use crate::line::LINE_ROOM;
use arrayvec::ArrayString;
use line_base::Rule;
use receiver_core::What;

/// All rules, in the order of their numbers.
const ALL_RULES: [Rule; 28] = [
    Rule::NoCalibration,
    Rule::Drift,
    Rule::NibbleRange,
    Rule::Check,
    Rule::PauseRange,
    Rule::Copy,
    Rule::Restart,
    Rule::Zero13,
    Rule::Zero18,
    Rule::SerialCheck,
    Rule::TriggerWidth,
    Rule::Delay,
    Rule::FirstFall,
    Rule::TooShort,
    Rule::Phase,
    Rule::StartBit,
    Rule::TooLong,
    Rule::TooFew,
    Rule::EndsHigh,
    Rule::Psi5Check,
    Rule::NoSync,
    Rule::NoSlot,
    Rule::SlotTwice,
    Rule::InitOrder,
    Rule::InitRepeat,
    Rule::SyncBit,
    Rule::DownCheck,
    Rule::StartPattern,
];

/// The rule's name, as a report line shows it: at most 13 letters.
fn rule_name(rule: Rule) -> &'static str
    ensures name { result.now ≡ rule_name rule }
    ensures short { length result.now ≤ 13 }
{
    match rule {
        Rule::NoCalibration => "NoCalibration",
        Rule::Drift => "Drift",
        Rule::NibbleRange => "NibbleRange",
        Rule::Check => "Check",
        Rule::PauseRange => "PauseRange",
        Rule::Copy => "Copy",
        Rule::Restart => "Restart",
        Rule::Zero13 => "Zero13",
        Rule::Zero18 => "Zero18",
        Rule::SerialCheck => "SerialCheck",
        Rule::TriggerWidth => "TriggerWidth",
        Rule::Delay => "Delay",
        Rule::FirstFall => "FirstFall",
        Rule::TooShort => "TooShort",
        Rule::Phase => "Phase",
        Rule::StartBit => "StartBit",
        Rule::TooLong => "TooLong",
        Rule::TooFew => "TooFew",
        Rule::EndsHigh => "EndsHigh",
        Rule::Psi5Check => "Psi5Check",
        Rule::NoSync => "NoSync",
        Rule::NoSlot => "NoSlot",
        Rule::SlotTwice => "SlotTwice",
        Rule::InitOrder => "InitOrder",
        Rule::InitRepeat => "InitRepeat",
        Rule::SyncBit => "SyncBit",
        Rule::DownCheck => "DownCheck",
        Rule::StartPattern => "StartPattern",
    }
}

/// The first of these rules that has this name.
fn find_rule(name: &[u8], rules: &[Rule]) -> Option<Rule>
    ensures { result ≡ find (λ rule. bytes_eq name.now (rule_name rule)) rules.now }
{
    for rule in rules {
        if name == rule_name(*rule).as_bytes() {
            return Some(*rule);
        }
    }
    None
}

/// The rule of this name, if there is one.
#[tactic(auto, unfolding(crate::specs::Rules::rule_named))]
fn rule_named(name: &[u8]) -> Option<Rule>
    ensures { result ≡ rule_named name.now }
{
    find_rule(name, &ALL_RULES)
}

/// The rule whose name the next field is.
#[tactic(auto, unfolding(crate::specs::Fields::value_read))]
fn read_rule<'a>(rest: Rest<'a>) -> Result<(Rule, Rest<'a>), TextFault>
    ensures { Reads result (value_read rule_in (left rest.entry)) }
{
    let (field, rest) = next_field(rest)?;
    let rule = rule_named(field).ok_or(TextFault::Word)?;
    Ok((rule, rest))
}

/// Adds a violated rule.
pub(crate) fn push_bad(out: &mut ArrayString<LINE_ROOM>, rule: Rule)
    requires { length out.old.bytes ≤ 24 }
    ensures bytes { out.new.bytes ≡ out.old.bytes ++ spaced (bad_fields rule) }
    ensures len { length out.new.bytes ≤ 56 }
{
    out.push_str(" bad ");
    out.push_str(rule_name(rule));
}

/// What stands behind `bad`: the name of a rule.
#[tactic(auto, unfolding(crate::specs::Rules::bad_read))]
pub(crate) fn read_bad<'a>(rest: Rest<'a>) -> Result<(What, Rest<'a>), TextFault>
    ensures { Reads result (bad_read (left rest.entry)) }
{
    let (rule, rest) = read_rule(rest)?;
    Ok((What::Bad(rule), rest))
}
