//! The line of a gap.
ghost use Rattle.std.specs.Prelude.{◌≡◌, ◌≤◌, ◌++◌, length};
ghost use Rattle.report_text.specs.Fields.{spaced};
ghost use Rattle.report_text.specs.Gaps.{gap_fields, gap_read};
ghost use Rattle.report_text.specs.Readings.{Reads, left};

use crate::decimal::{push_decimal, read_count};
use crate::fault::TextFault;
use crate::fields::Rest;
use crate::line::LINE_ROOM;
use arrayvec::ArrayString;
use receiver_core::What;

/// Adds a gap of so many edges.
pub(crate) fn push_gap(out: &mut ArrayString<LINE_ROOM>, count: u64)
    requires { length out.old.bytes ≤ 24 }
    ensures bytes { out.new.bytes ≡ out.old.bytes ++ spaced (gap_fields count) }
    ensures len { length out.new.bytes ≤ 56 }
{
    out.push_str(" gap ");
    push_decimal(out, count);
}

/// What stands behind `gap`: how many edges were lost.
#[tactic(auto, unfolding(crate::specs::Gaps::gap_read))]
pub(crate) fn read_gap<'a>(rest: Rest<'a>) -> Result<(What, Rest<'a>), TextFault>
    ensures { Reads result (gap_read (left rest.entry)) }
{
    let (count, rest) = read_count(rest)?;
    Ok((What::Gap { count }, rest))
}
