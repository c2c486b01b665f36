//! Hexadecimal digits in a line, in upper case.
ghost use Rattle.std.specs.Prelude.{◌≡◌, ◌+◌, ◌^◌, ◌<◌, ◌≤◌, ◌++◌, [], ◌∷◌, IfOk, length, map};
ghost use Rattle.report_text.specs.Hex.{hex_digit, hex_text, nibble_in, hex_in, hex_to, data_in};
ghost use Rattle.report_text.specs.Fields.{value_read};
ghost use Rattle.report_text.specs.Readings.{Reads, left};

use crate::fault::TextFault;
use crate::fields::{Rest, next_field};
use crate::line::LINE_ROOM;
use arrayvec::ArrayString;
use line_base::Nibbles;

/// The hexadecimal digits.
const HEX_DIGITS: &[u8; 16] = b"0123456789ABCDEF";

/// Adds a nibble as a hexadecimal digit.
fn push_nibble(out: &mut ArrayString<LINE_ROOM>, nibble: u8)
    requires { length out.old.bytes < LINE_ROOM }
    ensures bytes { out.new.bytes ≡ out.old.bytes ++ hex_digit nibble ∷ [] }
    ensures len { length out.new.bytes ≡ length out.old.bytes + 1 }
{
    let digit = HEX_DIGITS.get(usize::from(nibble)).copied().unwrap_or(0);
    out.push(char::from(digit));
}

/// Adds a number in so many hexadecimal digits, its lowest.
pub(crate) fn push_hex(out: &mut ArrayString<LINE_ROOM>, width: usize, number: u32)
    requires { length out.old.bytes + width ≤ LINE_ROOM }
    ensures bytes { out.new.bytes ≡ out.old.bytes ++ hex_text width number }
    ensures len { length out.new.bytes ≡ length out.old.bytes + width }
{
    if width == 0 {
        return;
    }
    push_hex(out, width - 1, number / 16);
    push_nibble(out, (number % 16) as u8);
}

/// Adds nibbles as hexadecimal digits.
pub(crate) fn push_nibbles(out: &mut ArrayString<LINE_ROOM>, nibbles: &[u8])
    requires { length out.old.bytes + length nibbles.now ≤ LINE_ROOM }
    ensures bytes { out.new.bytes ≡ out.old.bytes ++ map hex_digit nibbles.now }
    ensures len { length out.new.bytes ≡ length out.old.bytes + length nibbles.now }
{
    for nibble in nibbles {
        push_nibble(out, *nibble);
    }
}

/// The nibble of a hexadecimal digit, or `Number`.
#[tactic(auto, unfolding(crate::specs::Hex::nibble_in))]
fn nibble_of(byte: u8) -> Result<u8, TextFault>
    ensures value { result ≡ nibble_in byte }
    ensures below { IfOk result (λ nibble. nibble < 16) }
{
    if byte >= b'0' && byte <= b'9' {
        Ok(byte - b'0')
    } else if byte >= b'A' && byte <= b'F' {
        Ok(byte - 55)
    } else {
        Err(TextFault::Number)
    }
}

/// The number of a field of so many hexadecimal digits, at most 7; `Number` for another spelling.
pub fn number_of(width: usize, field: &[u8]) -> Result<u32, TextFault>
    requires { width ≤ 7 }
    ensures value { result ≡ hex_in width field.now }
    ensures below { IfOk result (λ number. number < 16 ^ width) }
{
    if field.len() != width {
        return Err(TextFault::Number);
    }
    let mut number: u32 = 0;
    for digit in field {
        number = number * 16 + u32::from(nibble_of(*digit)?);
    }
    Ok(number)
}

/// Such a number of at most `most`; `Range` above it.
#[tactic(auto, unfolding(crate::specs::Hex::hex_to))]
fn number_to(width: usize, most: u32, field: &[u8]) -> Result<u32, TextFault>
    requires { width ≤ 7 }
    ensures value { result ≡ hex_to width most field.now }
    ensures most { IfOk result (λ number. number ≤ most) }
{
    let number = number_of(width, field)?;
    if number <= most {
        Ok(number)
    } else {
        Err(TextFault::Range)
    }
}

/// The data nibbles of a field of 1 to 6 hexadecimal digits; `Number` for another spelling.
pub fn data_of(field: &[u8]) -> Result<Nibbles, TextFault>
    ensures { result ≡ data_in field.now }
{
    if field.is_empty() || field.len() > 6 {
        return Err(TextFault::Number);
    }
    let mut cells = [0; 6];
    for (i, digit) in field.iter().enumerate() {
        cells[i] = nibble_of(*digit)?;
    }
    Nibbles::new(&cells[..field.len()]).ok_or(TextFault::Number)
}

/// The number of the next field, of so many hexadecimal digits, at most 7.
#[tactic(auto, unfolding(crate::specs::Fields::value_read))]
pub(crate) fn read_hex<'a>(width: usize, rest: Rest<'a>) -> Result<(u32, Rest<'a>), TextFault>
    requires { width ≤ 7 }
    ensures value { Reads result (value_read (hex_in width) (left rest.entry)) }
    ensures below { IfOk result (λ found. found.0 < 16 ^ width) }
{
    let (field, rest) = next_field(rest)?;
    Ok((number_of(width, field)?, rest))
}

/// The number of the next field, of so many hexadecimal digits, at most 7, and of at most `most`.
#[tactic(auto, unfolding(crate::specs::Fields::value_read))]
pub(crate) fn read_hex_to<'a>(
    width: usize,
    most: u32,
    rest: Rest<'a>,
) -> Result<(u32, Rest<'a>), TextFault>
    requires { width ≤ 7 }
    ensures value { Reads result (value_read (hex_to width most) (left rest.entry)) }
    ensures most { IfOk result (λ found. found.0 ≤ most) }
{
    let (field, rest) = next_field(rest)?;
    Ok((number_to(width, most, field)?, rest))
}

/// The data nibbles of the next field, 1 to 6.
#[tactic(auto, unfolding(crate::specs::Fields::value_read))]
pub(crate) fn read_data<'a>(rest: Rest<'a>) -> Result<(Nibbles, Rest<'a>), TextFault>
    ensures { Reads result (value_read data_in (left rest.entry)) }
{
    let (field, rest) = next_field(rest)?;
    Ok((data_of(field)?, rest))
}
