//! One channel of a list: the edges of its lines in, the reports of each out, and all of them counted.
ghost use Rattle.std.specs.Prelude.{◌≡◌, ◌^◌, ◌<◌, ◌≤◌, ◌++◌, [], ◌∷◌, List, length};
ghost use Rattle.line_base.specs.declared.edge.Edge.{Edge};
ghost use Rattle.receiver_core.specs.Tallies.{tally_of};
ghost use Rattle.decode_command.specs.Channels.{final_on, reports_added, reports_of_end};
ghost use Rattle.decode_command.specs.Followed.{Follows};

use arrayvec::ArrayVec;
use line_base::{Edge, Item};
use receiver_core::{CountedReceiver, Report};

/// Hands the next edge of the list, of any line, to a channel, and adds the reports that it gives to none.
#[inline(always)]
pub fn hand_edge(channel: &mut CountedReceiver, edge: Edge, reports: &mut ArrayVec<Report, 8>)
    requires in_range { edge.time ≤ 10 ^ 15 }
    requires empty { reports.old.items ≡ [] }
    requires follows { (edges : List Edge) × Follows channel.old edges × (length edges < 2 ^ 60) }
    ensures setup { channel.new.setup ≡ channel.old.setup }
    ensures follows { (edges : List Edge) → Follows channel.old edges → Follows channel.new (edges ++ edge ∷ []) }
    ensures given { (edges : List Edge) → Follows channel.old edges → reports.new.items ≡ reports_added channel.old.setup edges edge }
{
    if channel.setup.reads(edge.line) {
        channel.take_edge(edge, reports);
    }
}

/// Hands the end of the list to a channel, and adds the reports that it gives to none.
pub fn hand_end(channel: &mut CountedReceiver, reports: &mut ArrayVec<Report, 8>)
    requires empty { reports.old.items ≡ [] }
    requires follows { (edges : List Edge) × Follows channel.old edges × (length edges < 2 ^ 60) }
    ensures setup { channel.new.setup ≡ channel.old.setup }
    ensures counted { (edges : List Edge) → Follows channel.old edges → channel.new.tally ≡ tally_of (final_on channel.old.setup edges) }
    ensures given { (edges : List Edge) → Follows channel.old edges → reports.new.items ≡ reports_of_end channel.old.setup edges }
{
    channel.take(Item::End, reports);
}
