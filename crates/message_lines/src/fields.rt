//! The fields of a message line, from the left, each in its spelling.
ghost use Rattle.std.specs.Prelude.{◌≡◌, ◌+◌, ◌^◌, ◌<◌, ◌≤◌, ◌==◌, IfOk, MatchResult, length};
ghost use Rattle.line_base.specs.Steps.{check};
ghost use Rattle.line_base.specs.declared.faults.LineFault.TheVariants.{Field};
ghost use Rattle.report_text.specs.Readings.{left};
ghost use Rattle.message_lines.specs.Fields.{next_field, value_read};
ghost use Rattle.message_lines.specs.Spellings.{hex_spelled, nibbles_spelled, decimal_spelled, slot_spelled, digit_spelled};
ghost use Rattle.message_lines.specs.Readings.{FieldReads, Reads, SmallReads, IsSmall};

use line_base::text::{cut, number_of};
use line_base::{LineFault, Nibbles};
use report_text::{digit_of, has_leading_zero, hex, spells};

/// What is left of a line behind a field: what stands behind the space that ended it, or nothing where the line
/// has ended.
pub(crate) type Rest<'a> = Option<&'a [u8]>;

/// The next field, and what is left behind it; `Field` where the line has ended.
pub(crate) fn next_field<'a>(rest: Rest<'a>) -> Result<(&'a [u8], Rest<'a>), LineFault>
    ensures { FieldReads result (next_field (left rest.entry)) }
{
    let text = rest.ok_or(LineFault::Field)?;
    Ok(cut(text, b' '))
}

/// How many fields are left.
fn count_of(rest: Rest) -> usize
    ensures { result ≡ length (left rest.entry) }
{
    let Some(text) = rest else {
        return 0;
    };
    let mut count = 1;
    for byte in text {
        if *byte == b' ' {
            count += 1;
        }
    }
    count
}

/// `Field` where another number of fields is left.
pub(crate) fn expect_fields(count: usize, rest: Rest) -> Result<(), LineFault>
    ensures { result ≡ check (length (left rest.entry) == count) Field }
{
    if count_of(rest) == count {
        Ok(())
    } else {
        Err(LineFault::Field)
    }
}

/// The number of a field of so many hexadecimal digits, at most 7; `Number` for another spelling.
fn hex_of(width: usize, field: &[u8]) -> Result<u32, LineFault>
    requires { width ≤ 7 }
    ensures value { result ≡ hex_spelled width field.now }
    ensures below { IfOk result (λ number. number < 16 ^ width) }
{
    match hex::number_of(width, field) {
        Ok(number) => Ok(number),
        Err(_) => Err(LineFault::Number),
    }
}

/// The data nibbles, so many, of a field of as many hexadecimal digits; `Number` for another spelling.
#[tactic(auto, unfolding(crate::specs::Spellings::nibbles_spelled))]
fn nibbles_of(count: u8, field: &[u8]) -> Result<Nibbles, LineFault>
    ensures { result ≡ nibbles_spelled count field.now }
{
    if field.len() != usize::from(count) {
        return Err(LineFault::Number);
    }
    match hex::data_of(field) {
        Ok(nibbles) => Ok(nibbles),
        Err(_) => Err(LineFault::Number),
    }
}

/// The number of a field of decimal digits, or 255 where it is greater; `Number` where they aren't digits without
/// a leading zero.
fn small_of(field: &[u8]) -> Result<u8, LineFault>
    ensures { MatchResult result (λ found. IsSmall found (decimal_spelled field.now)) (λ fault. decimal_spelled field.now ≡ Err fault) }
{
    let Some(number) = number_of(field) else {
        return Err(LineFault::Number);
    };
    if has_leading_zero(field) {
        return Err(LineFault::Number);
    }
    Ok(number.min(255) as u8)
}

/// The slot of a field of one decimal digit; `Number` for another spelling.
fn digit_slot(field: &[u8]) -> Result<Option<u8>, LineFault>
    ensures { result ≡ digit_spelled field.now }
{
    match field {
        [byte] => match digit_of(*byte) {
            Ok(slot) => Ok(Some(slot)),
            Err(_) => Err(LineFault::Number),
        },
        _ => Err(LineFault::Number),
    }
}

/// The slot of a field: one decimal digit where the channel has slots, and else a hyphen; `Number` for another
/// spelling.
#[tactic(auto, unfolding(crate::specs::Spellings::slot_spelled))]
fn slot_of(has_slots: bool, field: &[u8]) -> Result<Option<u8>, LineFault>
    ensures { result ≡ slot_spelled has_slots field.now }
{
    if has_slots {
        return digit_slot(field);
    }
    if spells(field, b"-") {
        Ok(None)
    } else {
        Err(LineFault::Number)
    }
}

/// The number of the next field, of so many hexadecimal digits, at most 7.
#[tactic(auto, unfolding(crate::specs::Fields::value_read))]
pub(crate) fn read_hex<'a>(width: usize, rest: Rest<'a>) -> Result<(u32, Rest<'a>), LineFault>
    requires { width ≤ 7 }
    ensures value { Reads result (value_read (hex_spelled width) (left rest.entry)) }
    ensures below { IfOk result (λ found. found.0 < 16 ^ width) }
{
    let (field, rest) = next_field(rest)?;
    Ok((hex_of(width, field)?, rest))
}

/// The data nibbles, so many, of the next field.
#[tactic(auto, unfolding(crate::specs::Fields::value_read))]
pub(crate) fn read_nibbles<'a>(count: u8, rest: Rest<'a>) -> Result<(Nibbles, Rest<'a>), LineFault>
    ensures { Reads result (value_read (nibbles_spelled count) (left rest.entry)) }
{
    let (field, rest) = next_field(rest)?;
    Ok((nibbles_of(count, field)?, rest))
}

/// The decimal number of the next field, or 255 where it is greater.
#[tactic(auto, unfolding(crate::specs::Fields::value_read))]
pub(crate) fn read_small<'a>(rest: Rest<'a>) -> Result<(u8, Rest<'a>), LineFault>
    ensures { SmallReads result (value_read decimal_spelled (left rest.entry)) }
{
    let (field, rest) = next_field(rest)?;
    Ok((small_of(field)?, rest))
}

/// The slot of the next field.
#[tactic(auto, unfolding(crate::specs::Fields::value_read))]
pub(crate) fn read_slot<'a>(
    has_slots: bool,
    rest: Rest<'a>,
) -> Result<(Option<u8>, Rest<'a>), LineFault>
    ensures { Reads result (value_read (slot_spelled has_slots) (left rest.entry)) }
{
    let (field, rest) = next_field(rest)?;
    Ok((slot_of(has_slots, field)?, rest))
}
