//! The line that tells why a run ended.
ghost use Rattle.std.specs.Prelude.{◌≡◌, ◌++◌, ◌≤◌, [], codes, decimal, length};
ghost use Rattle.edge_command.specs.Explained.{explained_text};

use arrayvec::ArrayString;
use line_base::Reason;
use report_text::push_decimal;

/// The room for the line of a reason and its LF.
pub const EXPLAINED_ROOM: usize = 64;

/// Adds the name of a fault and an LF behind a number, which stands behind `before`, of at most 13 letters.
fn push_fault(out: &mut ArrayString<EXPLAINED_ROOM>, before: &str, number: u64, fault: &str)
    requires empty { out.old.bytes ≡ [] }
    requires before { length before.now ≤ 13 }
    requires fault { length fault.now ≤ 12 }
    ensures { out.new.bytes ≡ before.now ++ decimal number ++ codes ": " ++ fault.now ++ codes "\n" }
{
    out.push_str(before);
    push_decimal(out, number);
    out.push_str(": ");
    out.push_str(fault);
    out.push('\n');
}

/// Adds the line of a reason, with its LF; nothing for `Clean` and `Marked`.
#[tactic(auto, unfolding(crate::specs::Explained::explained_text))]
pub fn explain(reason: &Reason, out: &mut ArrayString<EXPLAINED_ROOM>)
    requires { out.old.bytes ≡ [] }
    ensures { out.new.bytes ≡ explained_text reason.now }
{
    match reason {
        Reason::Clean => {}
        Reason::Marked => {}
        Reason::Words { place, fault } => push_fault(out, "word ", *place, fault.name()),
        Reason::Input { line, fault } => push_fault(out, "input line ", *line, fault.name()),
        Reason::ReadFault => out.push_str("read fault\n"),
        Reason::WriteFault { lane: None } => out.push_str("write fault\n"),
        Reason::WriteFault { lane: Some(lane) } => {
            out.push_str("write fault on lane ");
            push_decimal(out, u64::from(*lane));
            out.push('\n');
        }
        Reason::OutOfMemory => out.push_str("out of memory\n"),
        Reason::Archive { at, fault } => push_fault(out, "archive byte ", *at, fault.name()),
    }
}
