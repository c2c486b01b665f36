//! What data A of a burst says, as fields of a line.
ghost use Rattle.std.specs.Prelude.{◌≡◌, ◌+◌, ◌≤◌, ◌++◌, length};
ghost use Rattle.std.specs.Fmt.{signed_decimal};
ghost use Rattle.report_text.specs.Codes.{code_fields, negative_in, signal_in, signal_read, block_read, nibble_read, reserved_read, code_behind, code_read};
ghost use Rattle.report_text.specs.Fields.{spaced, value_read};
ghost use Rattle.report_text.specs.Readings.{Reads, left};

use crate::decimal::{number_between, number_of, push_small, read_between};
use crate::fault::TextFault;
use crate::fields::{Rest, next_field, spells};
use crate::hex::{push_hex, read_hex, read_hex_to};
use crate::line::LINE_ROOM;
use arrayvec::ArrayString;
use itoa::Buffer;
use psi5_init::Code;

/// The greatest signal; the least is as far below 0.
const MAX_SIGNAL: u16 = 480;

/// The greatest ID of a block.
const MAX_BLOCK: u8 = 16;

/// The greatest code of 10 bits.
const MAX_CODE: u32 = 0x3FF;

/// What is read of a code, and what is left behind it.
type CodeRead<'a> = Result<(Option<Code>, Rest<'a>), TextFault>;

/// Adds a number in decimal, with a hyphen where it is below 0.
fn push_signed(out: &mut ArrayString<LINE_ROOM>, number: i16)
    requires { length out.old.bytes + 6 ≤ LINE_ROOM }
    ensures bytes { out.new.bytes ≡ out.old.bytes ++ signed_decimal number }
    ensures len { length out.new.bytes ≤ length out.old.bytes + 6 }
{
    let mut buffer = Buffer::new();
    out.push_str(buffer.format(number));
}

/// Adds what data A says: a hyphen where it isn't told, else a word and, for some, a number.
pub(crate) fn push_code(out: &mut ArrayString<LINE_ROOM>, code: &Option<Code>)
    requires { length out.old.bytes ≤ 64 }
    ensures bytes { out.new.bytes ≡ out.old.bytes ++ spaced (code_fields code.now) }
    ensures len { length out.new.bytes ≤ length out.old.bytes + 16 }
{
    match code {
        None => out.push_str(" -"),
        Some(Code::Signal(value)) => {
            out.push_str(" signal ");
            push_signed(out, *value);
        }
        Some(Code::Block(id)) => {
            out.push_str(" block ");
            push_small(out, *id);
        }
        Some(Code::Value(value)) => {
            out.push_str(" value ");
            push_hex(out, 1, u32::from(*value));
        }
        Some(Code::Ready) => out.push_str(" ready"),
        Some(Code::Busy) => out.push_str(" busy"),
        Some(Code::Defect) => out.push_str(" defect"),
        Some(Code::Reserved(number)) => {
            out.push_str(" reserved ");
            push_hex(out, 3, u32::from(*number));
        }
    }
}

/// The signal below 0 whose digits stand behind its hyphen; `Number` for 0.
#[tactic(auto, unfolding(crate::specs::Codes::negative_in))]
fn negative_of(digits: &[u8]) -> Result<i16, TextFault>
    ensures { result ≡ negative_in digits.now }
{
    let size = number_of(digits)?;
    if size == 0 {
        return Err(TextFault::Number);
    }
    if size > u64::from(MAX_SIGNAL) {
        return Err(TextFault::Range);
    }
    Ok(-(size as i16))
}

/// The signal of a field: `Number` where it isn't decimal digits without a leading zero, behind a hyphen where
/// it is below 0, and `Range` outside -480 to 480.
#[tactic(auto, unfolding(crate::specs::Codes::signal_in))]
fn signal_of(field: &[u8]) -> Result<i16, TextFault>
    ensures { result ≡ signal_in field.now }
{
    let (first, digits) = field.split_first().ok_or(TextFault::Number)?;
    if *first == b'-' {
        return negative_of(digits);
    }
    Ok(number_between(0, MAX_SIGNAL, field)? as i16)
}

/// What stands behind `signal`: a number with a sign.
#[tactic(auto, unfolding(crate::specs::Codes::signal_read, crate::specs::Fields::value_read))]
fn read_signal<'a>(rest: Rest<'a>) -> CodeRead<'a>
    ensures { Reads result (signal_read (left rest.entry)) }
{
    let (field, rest) = next_field(rest)?;
    Ok((Some(Code::Signal(signal_of(field)?)), rest))
}

/// What stands behind `block`: its ID.
#[tactic(auto, unfolding(crate::specs::Codes::block_read))]
fn read_block<'a>(rest: Rest<'a>) -> CodeRead<'a>
    ensures { Reads result (block_read (left rest.entry)) }
{
    let (id, rest) = read_between(1, MAX_BLOCK, rest)?;
    Ok((Some(Code::Block(id)), rest))
}

/// What stands behind `value`: a nibble.
#[tactic(auto, unfolding(crate::specs::Codes::nibble_read))]
fn read_nibble<'a>(rest: Rest<'a>) -> CodeRead<'a>
    ensures { Reads result (nibble_read (left rest.entry)) }
{
    let (value, rest) = read_hex(1, rest)?;
    Ok((Some(Code::Value(value as u8)), rest))
}

/// What stands behind `reserved`: any code of 10 bits.
#[tactic(auto, unfolding(crate::specs::Codes::reserved_read))]
fn read_reserved<'a>(rest: Rest<'a>) -> CodeRead<'a>
    ensures { Reads result (reserved_read (left rest.entry)) }
{
    let (number, rest) = read_hex_to(3, MAX_CODE, rest)?;
    Ok((Some(Code::Reserved(number as u16)), rest))
}

/// What stands behind this word of a code; `Word` for no word of one.
#[tactic(auto, unfolding(crate::specs::Codes::code_behind))]
fn code_behind<'a>(word: &[u8], rest: Rest<'a>) -> CodeRead<'a>
    ensures { Reads result (code_behind word.now (left rest.entry)) }
{
    if spells(word, b"-") {
        Ok((None, rest))
    } else if spells(word, b"signal") {
        read_signal(rest)
    } else if spells(word, b"block") {
        read_block(rest)
    } else if spells(word, b"value") {
        read_nibble(rest)
    } else if spells(word, b"ready") {
        Ok((Some(Code::Ready), rest))
    } else if spells(word, b"busy") {
        Ok((Some(Code::Busy), rest))
    } else if spells(word, b"defect") {
        Ok((Some(Code::Defect), rest))
    } else if spells(word, b"reserved") {
        read_reserved(rest)
    } else {
        Err(TextFault::Word)
    }
}

/// What the next fields say of data A.
#[tactic(auto, unfolding(crate::specs::Codes::code_read))]
pub(crate) fn read_code<'a>(rest: Rest<'a>) -> CodeRead<'a>
    ensures { Reads result (code_read (left rest.entry)) }
{
    let (word, rest) = next_field(rest)?;
    code_behind(word, rest)
}
