//! The line of a channel's totals.
ghost use Rattle.std.specs.Prelude.{◌≡◌, ◌+◌, ◌<◌, ◌≤◌, ◌++◌, [], decimal, length};
ghost use Rattle.report_text.specs.Totals.{total_text};

use crate::decimal::{push_channel, push_decimal};
use arrayvec::ArrayString;
use receiver_core::Tally;

/// The room for a total line.
pub const TOTAL_ROOM: usize = 160;

/// Writes a channel's total line, without its LF. The channel is 0 to 15.
#[tactic(auto, unfolding(crate::specs::Totals::total_text))]
pub fn write_total(channel: u8, tally: &Tally, out: &mut ArrayString<TOTAL_ROOM>)
    requires channel { channel < 16 }
    requires empty { out.old.bytes ≡ [] }
    ensures text { out.new.bytes ≡ total_text channel tally.now }
    ensures len { length out.new.bytes < TOTAL_ROOM }
{
    push_channel(out, channel);
    push_count(out, " total good ", tally.good);
    push_count(out, " bad ", tally.bad);
    push_count(out, " messages ", tally.messages);
    push_count(out, " gaps ", tally.gaps);
    push_count(out, " lost ", tally.lost);
}

/// Adds a count behind its name, which has at most 12 bytes.
fn push_count(out: &mut ArrayString<TOTAL_ROOM>, name: &str, count: u64)
    requires short { length name.now ≤ 12 }
    requires room { length out.old.bytes + 32 ≤ TOTAL_ROOM }
    ensures bytes { out.new.bytes ≡ out.old.bytes ++ name.now ++ decimal count }
    ensures len { length out.new.bytes ≤ length out.old.bytes + length name.now + 20 }
{
    out.push_str(name);
    push_decimal(out, count);
}
