//! Parts of a line: what stands before a byte, without blanks.
ghost use Rattle.std.specs.Prelude.{◌≡◌, ◌≢◌, ℕ, ◌<◌, ◌≤◌, ◌⊎◌, length, slice_index};
ghost use Rattle.edge_trace.specs.Fields.{without_blanks};

use memchr::memchr;

/// How many bytes stand before the first such byte at the front of a text, at most so many.
#[inline]
pub(crate) fn length_before(text: &[u8], mark: u8, most: usize) -> usize
    ensures fits { result ≤ length text.now }
    ensures few { result ≤ most }
    ensures none { (k : ℕ) → k < result → slice_index text.now k ≢ mark }
    ensures stops { result < length text.now → (slice_index text.now result ≡ mark) ⊎ (result ≡ most) }
{
    let front = &text[..most.min(text.len())];
    match memchr(mark, front) {
        None => front.len(),
        Some(place) => place,
    }
}

/// A field without the blanks before it.
#[inline]
pub(crate) fn trimmed(field: &[u8]) -> &[u8]
    ensures { result.now ≡ without_blanks field.now }
{
    for (i, byte) in field.iter().enumerate() {
        if *byte != b' ' {
            return &field[i..];
        }
    }
    &[]
}
