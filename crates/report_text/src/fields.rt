//! The fields of a line, from the left.
ghost use Rattle.std.specs.Prelude.{◌≡◌};
ghost use Rattle.std.specs.Str.{bytes_eq};
ghost use Rattle.report_text.specs.Fields.{field_read};
ghost use Rattle.report_text.specs.Readings.{FieldReads, left};

use crate::fault::TextFault;
use line_base::text::cut;

/// What is left of a text behind a field: what stands behind the space that ended it, or nothing where the
/// text has ended.
pub(crate) type Rest<'a> = Option<&'a [u8]>;

/// The next field, and what is left behind it; `Word` where the text has ended or the field is empty.
pub(crate) fn next_field<'a>(rest: Rest<'a>) -> Result<(&'a [u8], Rest<'a>), TextFault>
    ensures { FieldReads result (field_read (left rest.entry)) }
{
    let text = rest.ok_or(TextFault::Word)?;
    let (field, rest) = cut(text, b' ');
    if field.is_empty() {
        return Err(TextFault::Word);
    }
    Ok((field, rest))
}

/// Whether a word is this one.
pub fn spells(word: &[u8], name: &[u8]) -> bool
    ensures { result ≡ bytes_eq word.now name.now }
{
    word == name
}
