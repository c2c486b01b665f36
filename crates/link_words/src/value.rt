//! What stands behind the keys of a SPEC: numbers and words.
ghost use Rattle.std.specs.Prelude.{◌≡◌};
ghost use Rattle.std.specs.Str.{bytes_eq};
ghost use Rattle.link_words.specs.Values.{number_either, rate_named, check_named, form_named, cover_named, answer_in, crc_named, layout_named, serial_named, value_in};

use crate::spans::{number_in, span_of, spans_of};
use line_base::text::number_of;
use line_base::{Span, Spans};
use psi5_downlink::Form;
use psi5_frame::Check;
use receiver_core::Serial;
use sent_fast::Layout;
use sent_frame::{Cover, CrcForm};

/// What the value of a key may be.
#[derive(Clone, Copy)]
pub(crate) enum Values {
    /// A number below 256.
    Count {
        /// The least.
        low: u8,
        /// The greatest.
        high: u8,
    },
    /// A time, in the unit of its key.
    Time {
        /// The least.
        low: u32,
        /// The greatest.
        high: u32,
    },
    /// One of two numbers below 256.
    Either {
        /// The one.
        one: u8,
        /// The other.
        other: u8,
    },
    /// A span of numbers.
    Span {
        /// The greatest that either may be.
        most: u32,
    },
    /// Spans of numbers, 1 to 8.
    Spans {
        /// The greatest that any of them may be.
        most: u32,
    },
    /// The word for the rate of a PSI5 line.
    Rate,
    /// The name of the check of a PSI5 frame.
    Check,
    /// The name of the form of a downlink frame.
    Form,
    /// The name of what a CRC covers.
    Cover,
    /// `no` or `yes`.
    Answer,
    /// The name of a form of the CRC.
    Crc,
    /// The name of a layout of the data nibbles.
    Layout,
    /// The name of serial messages.
    Serial,
}

/// The value of a key.
#[derive(Clone, Copy)]
pub(crate) enum Value {
    /// A number below 256.
    Count(u8),
    /// A time, in the unit of its key.
    Time(u32),
    /// A span.
    Span(Span),
    /// 1 to 8 spans.
    Spans(Spans),
    /// What a PSI5 frame ends with.
    Check(Check),
    /// The form of a downlink frame.
    Form(Form),
    /// What the CRC of an SPC answer covers.
    Cover(Cover),
    /// Whether there is what the key names.
    Answer(bool),
    /// The form of the CRC.
    Crc(CrcForm),
    /// The layout of the data nibbles.
    Layout(Layout),
    /// Which serial messages the status nibbles carry.
    Serial(Serial),
}

/// Whether a text is this one.
pub(crate) fn spells(text: &[u8], name: &[u8]) -> bool
    ensures { result ≡ bytes_eq text.now name.now }
{
    text == name
}

/// The value that a text writes, or `None` where it is none of these.
#[tactic(auto, unfolding(crate::specs::Values::value_in))]
pub(crate) fn value_of(values: Values, text: &[u8]) -> Option<Value>
    ensures { result ≡ value_in values text.now }
{
    match values {
        Values::Count { low, high } => {
            let number = number_in(u32::from(low), u32::from(high), text)?;
            Some(Value::Count(number as u8))
        }
        Values::Time { low, high } => Some(Value::Time(number_in(low, high, text)?)),
        Values::Either { one, other } => Some(Value::Count(either_of(one, other, text)?)),
        Values::Span { most } => Some(Value::Span(span_of(most, text)?)),
        Values::Spans { most } => match spans_of(most, text) {
            Some(spans) => Some(Value::Spans(spans)),
            None => None,
        },
        Values::Rate => Some(Value::Time(bit_of(text)?)),
        Values::Check => Some(Value::Check(check_of(text)?)),
        Values::Form => Some(Value::Form(form_of(text)?)),
        Values::Cover => Some(Value::Cover(cover_of(text)?)),
        Values::Answer => Some(Value::Answer(answer_of(text)?)),
        Values::Crc => Some(Value::Crc(crc_of(text)?)),
        Values::Layout => Some(Value::Layout(layout_of(text)?)),
        Values::Serial => Some(Value::Serial(serial_of(text)?)),
    }
}

/// One of two numbers, as one or more decimal digits write it.
#[tactic(auto, unfolding(crate::specs::Values::number_either))]
fn either_of(one: u8, other: u8, text: &[u8]) -> Option<u8>
    ensures { result ≡ number_either one other text.now }
{
    let number = number_of(text)?;
    if number == u64::from(one) || number == u64::from(other) {
        Some(number as u8)
    } else {
        None
    }
}

/// The bit time in ns of the rate that a text names.
#[tactic(auto, unfolding(crate::specs::Values::rate_named))]
fn bit_of(text: &[u8]) -> Option<u32>
    ensures { result ≡ rate_named text.now }
{
    if spells(text, b"125") {
        Some(8_000)
    } else if spells(text, b"189") {
        Some(5_300)
    } else {
        None
    }
}

/// The check of a PSI5 frame that a text names.
#[tactic(auto, unfolding(crate::specs::Values::check_named))]
fn check_of(text: &[u8]) -> Option<Check>
    ensures { result ≡ check_named text.now }
{
    if spells(text, b"parity") {
        Some(Check::Parity)
    } else if spells(text, b"crc") {
        Some(Check::Crc)
    } else {
        None
    }
}

/// The form of a downlink frame that a text names.
#[tactic(auto, unfolding(crate::specs::Values::form_named))]
fn form_of(text: &[u8]) -> Option<Form>
    ensures { result ≡ form_named text.now }
{
    if spells(text, b"short") {
        Some(Form::Short)
    } else if spells(text, b"long") {
        Some(Form::Long)
    } else if spells(text, b"xlong") {
        Some(Form::XLong)
    } else {
        None
    }
}

/// What the CRC of an SPC answer covers, as a text names it.
#[tactic(auto, unfolding(crate::specs::Values::cover_named))]
fn cover_of(text: &[u8]) -> Option<Cover>
    ensures { result ≡ cover_named text.now }
{
    if spells(text, b"data") {
        Some(Cover::Nibbles)
    } else if spells(text, b"status") {
        Some(Cover::Status)
    } else {
        None
    }
}

/// `no` or `yes`.
#[tactic(auto, unfolding(crate::specs::Values::answer_in))]
fn answer_of(text: &[u8]) -> Option<bool>
    ensures { result ≡ answer_in text.now }
{
    if spells(text, b"no") {
        Some(false)
    } else if spells(text, b"yes") {
        Some(true)
    } else {
        None
    }
}

/// The form of the CRC that a text names.
#[tactic(auto, unfolding(crate::specs::Values::crc_named))]
fn crc_of(text: &[u8]) -> Option<CrcForm>
    ensures { result ≡ crc_named text.now }
{
    if spells(text, b"new") {
        Some(CrcForm::New)
    } else if spells(text, b"legacy") {
        Some(CrcForm::Legacy)
    } else {
        None
    }
}

/// The layout that a text names.
#[tactic(auto, unfolding(crate::specs::Values::layout_named))]
fn layout_of(text: &[u8]) -> Option<Layout>
    ensures { result ≡ layout_named text.now }
{
    if spells(text, b"raw") {
        Some(Layout::Raw)
    } else if spells(text, b"one12") {
        Some(Layout::One12)
    } else if spells(text, b"two12") {
        Some(Layout::Two12)
    } else if spells(text, b"secure12") {
        Some(Layout::Secure12)
    } else if spells(text, b"split16_8") {
        Some(Layout::Split16x8)
    } else {
        None
    }
}

/// The serial messages that a text names.
#[tactic(auto, unfolding(crate::specs::Values::serial_named))]
fn serial_of(text: &[u8]) -> Option<Serial>
    ensures { result ≡ serial_named text.now }
{
    if spells(text, b"none") {
        Some(Serial::Absent)
    } else if spells(text, b"short") {
        Some(Serial::Short)
    } else if spells(text, b"enhanced") {
        Some(Serial::Enhanced)
    } else {
        None
    }
}
