//! The text of an edge: the narrow row.
ghost use Rattle.std.specs.Prelude.{◌≡◌, ◌<◌, ◌≤◌, ◌^◌, []};
ghost use Rattle.edge_trace.specs.Texts.{narrow_text};

use arrayvec::ArrayString;
use itoa::Buffer;
use line_base::Edge;

/// Appends the narrow row of an edge, without its end: the time in ns, the line and the level.
pub fn edge_line(edge: Edge, out: &mut ArrayString<40>)
    requires empty { out.old.bytes ≡ [] }
    requires line { edge.line < 16 }
    requires time { edge.time ≤ 10 ^ 15 }
    ensures { out.new.bytes ≡ narrow_text edge }
{
    let mut buffer = Buffer::new();
    out.push_str(buffer.format(edge.time));
    out.push_str(",");
    out.push_str(buffer.format(edge.line));
    out.push_str(if edge.level { ",1" } else { ",0" });
}
