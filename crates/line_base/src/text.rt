//! Parts of a text, and decimal numbers. Digits have no greatest number: [`number_of`] reads a number above 10^15 as
//! [`MANY`], which is above every bound that is asked of it, and [`value_of`] reads none from 2^64 on.
ghost use Rattle.std.specs.Prelude.{◌≡◌, ◌^◌, ◌<◌, ◌≤◌, Some, None, SomeIff, option_copied, option_map, IfSome, if◌then◌else◌};
ghost use Rattle.std.specs.List.{list_all};
ghost use Rattle.line_base.specs.Texts.{after_front, before_end, capped, cut_at, is_digit, number_after, number_in};

/// Stands for every number above 10^15.
pub const MANY: u64 = 1_000_000_000_000_001;

/// The part of a text up to the first such byte, and the part behind it, if there is one.
#[inline]
pub fn cut(text: &[u8], mark: u8) -> (&[u8], Option<&[u8]>)
    ensures { (result.0.now, option_copied result.1) ≡ cut_at mark text.now }
{
    for (i, byte) in text.iter().enumerate() {
        if *byte == mark {
            return (&text[..i], Some(&text[i + 1..]));
        }
    }
    (text, None)
}

/// What stands behind these bytes, where the text begins with them.
pub fn behind<'a>(text: &'a [u8], front: &[u8]) -> Option<&'a [u8]>
    ensures { option_copied result ≡ after_front front.now text.now }
{
    text.strip_prefix(front)
}

/// What stands before these bytes, where the text ends with them.
pub fn before<'a>(text: &'a [u8], end: &[u8]) -> Option<&'a [u8]>
    ensures { option_copied result ≡ before_end end.now text.now }
{
    text.strip_suffix(end)
}

/// The number that these digits write behind those of `before`, at most 10^15 + 1, or 10^15 + 1 where it is
/// greater; `None` where a byte is no digit.
#[inline]
pub fn digits_after(before: u64, digits: &[u8]) -> Option<u64>
    requires { before ≤ 1000000000000001 }
    ensures value { result ≡ (if list_all is_digit digits.now then Some (capped (number_after before digits.now)) else None) }
    ensures small { IfSome result (λ number. number ≤ 1000000000000001) }
{
    let mut number = before;
    for digit in digits {
        if *digit < b'0' || *digit > b'9' {
            return None;
        }
        number = (number * 10 + u64::from(*digit - b'0')).min(MANY);
    }
    Some(number)
}

/// The number that a field of one or more decimal digits writes, or 10^15 + 1 where it is greater; `None` for
/// any other field.
#[inline]
pub fn number_of(field: &[u8]) -> Option<u64>
    ensures value { result ≡ option_map capped (number_in field.now) }
    ensures small { IfSome result (λ number. number ≤ 1000000000000001) }
{
    if field.is_empty() {
        return None;
    }
    digits_after(0, field)
}

/// The number that decimal digits write, 0 to 2^64 - 1 and 0 for no digits; `None` where it is 2^64 or more.
pub fn value_of(digits: &[u8]) -> Option<u64>
    ensures { SomeIff result (number_after 0 digits.now < 2 ^ 64) (number_after 0 digits.now) }
{
    let mut number: u64 = 0;
    for digit in digits {
        let value = u64::from(digit.saturating_sub(b'0'));
        number = number.checked_mul(10)?.checked_add(value)?;
    }
    Some(number)
}
