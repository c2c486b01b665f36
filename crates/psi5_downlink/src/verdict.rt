//! What the bits of a frame come to, as far as they are read.
ghost use Rattle.std.specs.Prelude.{◌≡◌, ◌<◌, ◌≤◌, ◌^◌, ◌+◌, ◌++◌, ◌-◌, length, false, IsTrue};
ghost use Rattle.link_math.specs.Division.{number_of};
ghost use Rattle.psi5_downlink.specs.Frames as frames;
ghost use Rattle.psi5_downlink.specs.Reading as reading;
ghost use Rattle.psi5_downlink.specs.Kept.{IsDue, IsOpen, MayGoOn};
ghost use Rattle.psi5_downlink.specs.declared.verdict.Verdict.TheVariants as verdict;

use crate::down::{Down, Form};
use crate::frame_bits::FrameBits;
use line_base::Rule;
use link_math::crc3;

/// What a rise comes to in a frame.
#[derive(Clone, Copy, Debug, PartialEq, Eq)]
pub enum Verdict {
    /// More bits are due behind these.
    Unfinished(FrameBits),
    /// The frame is whole.
    Whole(Down),
    /// A rule is violated.
    Broken(Rule),
}

/// How many bits the register has, 0, 6 or 9, and the value too.
pub fn wide(form: Form) -> u8
    ensures value { result ≡ frames.wide form }
    ensures few { result ≤ 9 }
{
    match form {
        Form::Short => 0,
        Form::Long => 6,
        Form::XLong => 9,
    }
}

/// How many bits a frame has, 14, 30 or 38, from the start's last 0 to the last inserted 1.
fn frame_length(form: Form) -> usize
    ensures value { result ≡ frames.frame_length form }
    ensures few { result ≤ 38 }
{
    match form {
        Form::Short => 14,
        Form::Long => 30,
        Form::XLong => 38,
    }
}

/// Whether an inserted one is 0, from an inserted one on.
#[tactic(auto, using(crate::proofs::Judging::misses_none, crate::proofs::Judging::misses_first, crate::proofs::Judging::misses_more, crate::proofs::Judging::misses_few), unfolding(crate::specs::Reading::misses_one))]
fn misses_one(bits: &[bool]) -> bool
    ensures { result ≡ reading.misses_one bits.now }
{
    let mut rest = bits;
    'ones: while let Some((one, others)) = rest.split_first() {
        if !*one {
            return true;
        }
        if others.len() < 3 {
            return false;
        }
        let (_, behind) = others.split_at(3);
        rest = behind;
    }
    false
}

/// The first of these bits of a frame that is forbidden, by its rule.
fn forbidden(bits: &[bool]) -> Option<Rule>
    ensures { result ≡ reading.forbidden bits.now }
{
    match bits.split_first() {
        None => None,
        Some((first, others)) => {
            if *first {
                return Some(Rule::StartPattern);
            }
            if misses_one(others) {
                Some(Rule::SyncBit)
            } else {
                None
            }
        }
    }
}

/// The number that up to nine bits write, most significant first.
fn number_in(bits: &[bool]) -> u16
    requires { length bits.now ≤ 9 }
    ensures value { result ≡ number_of bits.now }
    ensures few { result < 2 ^ length bits.now }
{
    let mut number = 0;
    for bit in bits {
        number = 2 * number + u16::from(*bit);
    }
    number
}

/// The bits of these groups, without the inserted ones.
fn without_ones(bits: &[bool]) -> FrameBits
    requires { length bits.now ≤ 44 }
    ensures { result ≡ frames.without_ones bits.now }
{
    let mut fields = FrameBits::new();
    let mut rest = bits;
    'groups: while rest.len() >= 4 {
        let (group, others) = rest.split_at(4);
        fields.push(group[0]);
        fields.push(group[1]);
        fields.push(group[2]);
        rest = others;
    }
    fields
}

/// What the bits of the groups of a frame come to.
fn checked_groups(form: Form, groups: &[bool]) -> Verdict
    requires { length groups.now ≡ frames.field_width form + 3 }
    ensures { result ≡ reading.checked_groups form groups.now }
{
    let wide = usize::from(wide(form));
    let (fields, check) = groups.split_at(6 + 2 * wide);
    if number_in(check) != u16::from(crc3(fields)) {
        return Verdict::Broken(Rule::DownCheck);
    }
    let (address, fields) = fields.split_at(3);
    let (function, fields) = fields.split_at(3);
    let (register, value) = fields.split_at(wide);
    Verdict::Whole(Down {
        address: number_in(address) as u8,
        function: number_in(function) as u8,
        register: number_in(register),
        value: number_in(value),
    })
}

/// Puts the bits of an interval of `periods` sync periods, 1 to 6, at the end of at most 38.
fn push_interval(bits: &mut FrameBits, periods: u8)
    requires room { length bits.old ≤ 38 }
    requires some { 1 ≤ periods }
    requires few { periods ≤ 6 }
    ensures { bits.new ≡ bits.old ++ reading.bits_in periods }
{
    for _ in 0..periods - 1 {
        bits.push(false);
    }
    bits.push(true);
}

/// Whether an interval of `periods` sync periods, 1 to 6, leaves a frame unfinished of which so many bits came: behind
/// none, one of two periods does; else as many pulses may be missing as there are bits before the next inserted 1.
#[inline(always)]
fn leaves_unfinished(form: Form, count: usize, periods: u8) -> bool
    requires some { 1 ≤ periods }
    requires few { periods ≤ 6 }
    requires room { count ≤ 38 }
    ensures { IsTrue result → MayGoOn form count periods }
{
    let missing = usize::from(periods - 1);
    if count + missing + 1 >= frame_length(form) {
        return false;
    }
    if count == 0 {
        return missing == 1;
    }
    missing <= (45 - count) % 4
}

/// Puts the bits of an interval of `periods` sync periods, 0 to 6, at the end of those of a frame that isn't whole,
/// where it leaves the frame unfinished. Answers whether it does; if not, nothing changes.
#[inline(always)]
pub fn goes_on(form: Form, bits: &mut FrameBits, periods: u8) -> bool
    requires open { IsOpen form bits.old }
    requires few { periods ≤ 6 }
    ensures open { IsOpen form bits.new }
    ensures value { IsTrue result → verdict.Unfinished bits.new ≡ reading.verdict form bits.old periods }
    ensures left { result ≡ false → bits.new ≡ bits.old }
{
    if periods == 0 || !leaves_unfinished(form, bits.len(), periods) {
        return false;
    }
    push_interval(bits, periods);
    true
}

/// What an interval of `periods` sync periods, 0 to 6, comes to behind these bits of a frame.
pub fn judge(form: Form, bits: FrameBits, periods: u8) -> Verdict
    requires due { length bits < frames.frame_length form }
    requires few { periods ≤ 6 }
    ensures value { result ≡ reading.verdict form bits periods }
    ensures due { IsDue form result }
{
    if periods == 0 {
        return Verdict::Broken(Rule::SyncBit);
    }
    let mut joined = bits;
    push_interval(&mut joined, periods);
    if let Some(rule) = forbidden(joined.as_slice()) {
        return Verdict::Broken(rule);
    }
    if joined.as_slice().len() != frame_length(form) {
        return Verdict::Unfinished(joined);
    }
    let (_, groups) = joined.as_slice().split_at(2);
    checked_groups(form, without_ones(groups).as_slice())
}
