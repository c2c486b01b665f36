//! Decimal numbers in a line.
ghost use Rattle.std.specs.Prelude.{◌≡◌, ◌+◌, ◌<◌, ◌≤◌, ◌++◌, IfOk, decimal, length};
ghost use Rattle.report_text.specs.Decimals.{two_digits, digit_in, channel_in, has_leading_zero, number_spelled, count_spelled, IsBetween, number_between};
ghost use Rattle.report_text.specs.Fields.{value_read};
ghost use Rattle.report_text.specs.Readings.{Reads, left};

use crate::fault::TextFault;
use crate::fields::{Rest, next_field};
use arrayvec::ArrayString;
use itoa::Buffer;
use line_base::text;

/// Adds a number in decimal, at most 20 digits.
pub fn push_decimal<const N: usize>(out: &mut ArrayString<N>, number: u64)
    requires { length out.old.bytes + 20 ≤ N }
    ensures bytes { out.new.bytes ≡ out.old.bytes ++ decimal number }
    ensures len { length out.new.bytes ≤ length out.old.bytes + 20 }
{
    let mut buffer = Buffer::new();
    out.push_str(buffer.format(number));
}

/// Adds a number below 256 in decimal, at most 3 digits.
pub(crate) fn push_small<const N: usize>(out: &mut ArrayString<N>, number: u8)
    requires { length out.old.bytes + 3 ≤ N }
    ensures bytes { out.new.bytes ≡ out.old.bytes ++ decimal number }
    ensures len { length out.new.bytes ≤ length out.old.bytes + 3 }
{
    let mut buffer = Buffer::new();
    out.push_str(buffer.format(number));
}

/// Adds a channel's number in two decimal digits.
pub(crate) fn push_channel<const N: usize>(out: &mut ArrayString<N>, channel: u8)
    requires room { length out.old.bytes + 2 ≤ N }
    requires channel { channel < 16 }
    ensures bytes { out.new.bytes ≡ out.old.bytes ++ two_digits channel }
    ensures len { length out.new.bytes ≡ length out.old.bytes + 2 }
{
    out.push(char::from(b'0' + channel / 10));
    out.push(char::from(b'0' + channel % 10));
}

/// The value of a decimal digit, or `Number`.
pub fn digit_of(byte: u8) -> Result<u8, TextFault>
    ensures value { result ≡ digit_in byte }
    ensures below { IfOk result (λ digit. digit < 10) }
{
    if byte >= b'0' && byte <= b'9' {
        Ok(byte - b'0')
    } else {
        Err(TextFault::Number)
    }
}

/// The channel, 0 to 15, of a field; `Number` where it isn't two decimal digits, `Range` above 15.
#[tactic(auto, unfolding(crate::specs::Decimals::channel_in))]
fn channel_of(field: &[u8]) -> Result<u8, TextFault>
    ensures value { result ≡ channel_in field.now }
    ensures below { IfOk result (λ channel. channel < 16) }
{
    match field {
        [first, second] => {
            let tens = digit_of(*first)?;
            let ones = digit_of(*second)?;
            let channel = 10 * tens + ones;
            if channel < 16 {
                Ok(channel)
            } else {
                Err(TextFault::Range)
            }
        }
        _ => Err(TextFault::Number),
    }
}

/// Whether a field begins with a zero that others follow.
pub fn has_leading_zero(field: &[u8]) -> bool
    ensures { result ≡ has_leading_zero field.now }
{
    match field {
        [first, _, ..] => *first == b'0',
        _ => false,
    }
}

/// The number below 2^64 of a field; `Number` where it isn't decimal digits without a leading zero, `Range`
/// from 2^64 on.
#[tactic(auto, unfolding(crate::specs::Decimals::number_spelled))]
pub(crate) fn number_of(field: &[u8]) -> Result<u64, TextFault>
    ensures { result ≡ number_spelled field.now }
{
    text::number_of(field).ok_or(TextFault::Number)?;
    if has_leading_zero(field) {
        return Err(TextFault::Number);
    }
    text::value_of(field).ok_or(TextFault::Range)
}

/// The count of a field, 1 or more; the faults of a number, and `Range` for 0.
#[tactic(auto, unfolding(crate::specs::Decimals::count_spelled))]
fn count_of(field: &[u8]) -> Result<u64, TextFault>
    ensures { result ≡ count_spelled field.now }
{
    let count = number_of(field)?;
    if count == 0 {
        return Err(TextFault::Range);
    }
    Ok(count)
}

/// The number from `low` to `high` of a field; the faults of a number, and `Range` outside.
#[tactic(auto, unfolding(crate::specs::Decimals::number_between))]
pub(crate) fn number_between(low: u16, high: u16, field: &[u8]) -> Result<u16, TextFault>
    ensures value { result ≡ number_between low high field.now }
    ensures range { IfOk result (λ number. IsBetween low high number) }
{
    let number = number_of(field)?;
    if number >= u64::from(low) && number <= u64::from(high) {
        Ok(number as u16)
    } else {
        Err(TextFault::Range)
    }
}

/// The channel, 0 to 15, of the next field.
#[tactic(auto, unfolding(crate::specs::Fields::value_read))]
pub(crate) fn read_channel<'a>(rest: Rest<'a>) -> Result<(u8, Rest<'a>), TextFault>
    ensures { Reads result (value_read channel_in (left rest.entry)) }
{
    let (field, rest) = next_field(rest)?;
    Ok((channel_of(field)?, rest))
}

/// The number below 2^64 of the next field.
#[tactic(auto, unfolding(crate::specs::Fields::value_read))]
pub(crate) fn read_number<'a>(rest: Rest<'a>) -> Result<(u64, Rest<'a>), TextFault>
    ensures { Reads result (value_read number_spelled (left rest.entry)) }
{
    let (field, rest) = next_field(rest)?;
    Ok((number_of(field)?, rest))
}

/// The count of the next field, from 1 to 2^64 - 1.
#[tactic(auto, unfolding(crate::specs::Fields::value_read))]
pub(crate) fn read_count<'a>(rest: Rest<'a>) -> Result<(u64, Rest<'a>), TextFault>
    ensures { Reads result (value_read count_spelled (left rest.entry)) }
{
    let (field, rest) = next_field(rest)?;
    Ok((count_of(field)?, rest))
}

/// The number from `low` to `high` of the next field, both below 256.
#[tactic(auto, unfolding(crate::specs::Fields::value_read))]
pub(crate) fn read_between<'a>(
    low: u8,
    high: u8,
    rest: Rest<'a>,
) -> Result<(u8, Rest<'a>), TextFault>
    ensures { Reads result (value_read (number_between low high) (left rest.entry)) }
{
    let (field, rest) = next_field(rest)?;
    let number = number_between(u16::from(low), u16::from(high), field)?;
    Ok((number as u8, rest))
}
