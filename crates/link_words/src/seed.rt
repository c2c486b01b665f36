//! The seed of a simulation, as a word writes it.
ghost use Rattle.std.specs.Prelude.{◌≡◌};
ghost use Rattle.link_words.specs.Seeds.{seed_in};

use line_base::text;

/// The number from 0 to 2^64 - 1 that one or more decimal digits write, leading zeros allowed.
pub(crate) fn seed_of(text: &[u8]) -> Option<u64>
    ensures { result ≡ seed_in text.now }
{
    text::number_of(text)?;
    text::value_of(text)
}
