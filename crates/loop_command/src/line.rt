//! The line that a loop writes.
ghost use Rattle.std.specs.Prelude.{◌≡◌, ◌+◌, ◌<◌, ◌≤◌, ◌++◌, [], decimal, length};
ghost use Rattle.loop_command.specs.Loops.{loop_line};

use arrayvec::ArrayString;
use receiver_core::Tally;
use report_text::push_decimal;

/// The room for the line.
pub const LINE_ROOM: usize = 200;

/// Adds a number behind its name, which has at most 14 bytes.
fn push_number(out: &mut ArrayString<LINE_ROOM>, name: &str, number: u64)
    requires short { length name.now ≤ 14 }
    requires room { length out.old.bytes + 34 ≤ LINE_ROOM }
    ensures bytes { out.new.bytes ≡ out.old.bytes ++ name.now ++ decimal number }
    ensures len { length out.new.bytes ≤ length out.old.bytes + length name.now + 20 }
{
    out.push_str(name);
    push_decimal(out, number);
}

/// Writes the line of so many counted messages, with its LF: what a receiver counts as good and bad, how many edges
/// there are, the time of the last one in ns, and what a receiver with gaps counts.
#[tactic(auto, unfolding(crate::specs::Loops::loop_line))]
pub fn write_line(
    count: u64,
    tally: &Tally,
    edges: u64,
    last: u64,
    with_gaps: &Tally,
    out: &mut ArrayString<LINE_ROOM>,
)
    requires { out.old.bytes ≡ [] }
    ensures { out.new.bytes ≡ loop_line count tally.now edges last with_gaps.now }
{
    push_number(out, "sent ", count);
    push_number(out, " good ", tally.good);
    push_number(out, " bad ", tally.bad);
    push_number(out, " edges ", edges);
    push_number(out, " last ", last);
    push_number(out, " thinned good ", with_gaps.good);
    push_number(out, " bad ", with_gaps.bad);
    out.push('\n');
}
