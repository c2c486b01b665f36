//! What form the rows of a list have, and how the line looks that decides it.
ghost use Rattle.std.specs.Prelude.{◌≡◌, ◌≤◌, ◌==◌, count_by, IfSome};
ghost use Rattle.std.specs.List.{list_all};
ghost use Rattle.edge_trace.specs.EdgeLists.{is_skipped, unit_in, columns_in, is_name_byte};

use line_base::text::{before, behind, number_of};

/// The form of a list's rows.
#[derive(Clone, Copy, Debug, PartialEq, Eq)]
pub(crate) enum Form {
    /// Time in ns, line, level.
    Narrow,
    /// Time in units of so many ns, 1 to 1,000,000, or a step; line, level.
    Units(u32),
    /// Time in seconds, and so many levels, 1 to 16.
    Wide(usize),
}

/// Whether a line is empty or a comment.
#[inline]
pub(crate) fn skipped(content: &[u8]) -> bool
    ensures { result ≡ is_skipped content.now }
{
    match content.split_first() {
        None => true,
        Some((first, _)) => *first == b'#',
    }
}

/// The unit in ns, 1 to 1,000,000, of what stands behind `# version 2 ` in line 1.
pub(crate) fn version_unit(rest: &[u8]) -> Option<u32>
    ensures value { result ≡ unit_in rest.now }
    ensures range { IfSome result (λ unit. (1 ≤ unit) × (unit ≤ 1000000)) }
{
    let text = behind(rest, b"unit=")?;
    let digits = before(text, b"ns")?;
    let unit = number_of(digits)?;
    if unit < 1 || unit > 1_000_000 {
        return None;
    }
    Some(unit as u32)
}

/// The number of columns, 1 to 16, of what stands behind `Time [s]` in a wide header.
pub(crate) fn header_columns(names: &[u8]) -> Option<usize>
    ensures value { result ≡ columns_in names.now }
    ensures range { IfSome result (λ columns. (1 ≤ columns) × (columns ≤ 16)) }
{
    let (first, names) = names.split_first()?;
    let columns = 1 + commas(names);
    if *first == b',' && all_name_bytes(names) && columns <= 16 {
        Some(columns)
    } else {
        None
    }
}

/// Whether all these bytes may stand in the names of columns, or between them.
fn all_name_bytes(names: &[u8]) -> bool
    ensures { result ≡ list_all is_name_byte names.now }
{
    names
        .iter()
        .all(|byte| *byte >= 0x20 && *byte <= 0x7E && *byte != b'"')
}

/// How many commas stand in a text.
#[inline]
pub(crate) fn commas(text: &[u8]) -> usize
    ensures { result ≡ count_by (λ b. b == 44) text.now }
{
    text.iter().filter(|byte| **byte == b',').count()
}
