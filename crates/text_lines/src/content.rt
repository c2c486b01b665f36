//! What a line says: its bytes without the CR at its end.
ghost use Rattle.std.specs.Prelude.{◌≡◌};
ghost use Rattle.text_lines.specs.Lines.{is_blank, without_cr};

/// A line without the one CR at its end, if it has one.
#[inline]
pub fn content_of(line: &[u8]) -> &[u8]
    ensures { result.now ≡ without_cr line.now }
{
    if let Some((last, front)) = line.split_last() {
        if *last == b'\r' {
            return front;
        }
    }
    line
}

/// Whether a line, without the CR at its end, is empty or a comment: one that begins with `#`.
#[inline]
pub fn is_skipped(content: &[u8]) -> bool
    ensures { result ≡ is_blank content.now }
{
    match content.split_first() {
        None => true,
        Some((first, _)) => *first == b'#',
    }
}
