//! Numbers and spans of numbers, as they stand behind a key.
ghost use Rattle.std.specs.Prelude.{◌≡◌, ◌≤◌, IfSome};
ghost use Rattle.link_words.specs.Spans.{number_within, span_in, spans_in};

use line_base::text::{cut, number_of};
use line_base::{Span, Spans};

/// How many spans there are at most.
const MAX_SPANS: usize = 8;

/// The number, from the lowest to the highest, that one or more decimal digits write.
#[tactic(auto, unfolding(crate::specs::Spans::number_within))]
pub(crate) fn number_in(low: u32, high: u32, text: &[u8]) -> Option<u32>
    ensures value { result ≡ number_within low high text.now }
    ensures range { IfSome result (λ number. (low ≤ number) × (number ≤ high)) }
{
    let number = number_of(text)?;
    if number >= u64::from(low) && number <= u64::from(high) {
        Some(number as u32)
    } else {
        None
    }
}

/// The span that a text writes: two numbers of at most `most`, parted by its first hyphen.
#[tactic(auto, unfolding(crate::specs::Spans::span_of))]
pub(crate) fn span_of(most: u32, text: &[u8]) -> Option<Span>
    ensures { result ≡ span_in most text.now }
{
    let (low, high) = cut(text, b'-');
    let high = high?;
    Some(Span {
        low: number_in(0, most, low)?,
        high: number_in(0, most, high)?,
    })
}

/// The 1 to 8 spans that a text writes, parted by slashes, with numbers of at most `most`.
pub(crate) fn spans_of(most: u32, text: &[u8]) -> Option<Spans>
    ensures { result ≡ spans_in most text.now }
{
    let mut spans = Spans::new(&[])?;
    let mut rest = Some(text);
    'spans: while let Some(text) = rest {
        if spans.as_slice().len() == MAX_SPANS {
            return None;
        }
        let (part, others) = cut(text, b'/');
        spans.push(span_of(most, part)?);
        rest = others;
    }
    Some(spans)
}
