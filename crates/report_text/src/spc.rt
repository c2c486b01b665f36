//! The lines of an SPC channel: answers, and answers that didn't come.
ghost use Rattle.std.specs.Prelude.{◌≡◌, ◌≤◌, ◌++◌, length};
ghost use Rattle.report_text.specs.Fields.{spaced};
ghost use Rattle.report_text.specs.Readings.{Reads, left};
ghost use Rattle.report_text.specs.Spc.{answer_fields, no_answer_fields, answer_read, no_answer_read};

use crate::decimal::{push_small, read_between};
use crate::fault::TextFault;
use crate::fields::Rest;
use crate::line::LINE_ROOM;
use crate::sent::{push_parts, read_parts};
use arrayvec::ArrayString;
use receiver_core::What;
use sent_frame::SentFrame;

/// The greatest code that a trigger chooses.
const MAX_CODE: u8 = 7;

/// Adds an answer: the code that the trigger chose, and the frame.
pub(crate) fn push_answer(out: &mut ArrayString<LINE_ROOM>, code: u8, frame: &SentFrame)
    requires { length out.old.bytes ≤ 24 }
    ensures bytes { out.new.bytes ≡ out.old.bytes ++ spaced (answer_fields code frame.now) }
    ensures len { length out.new.bytes ≤ 56 }
{
    out.push_str(" answer ");
    push_small(out, code);
    out.push(' ');
    push_parts(out, frame);
}

/// Adds an answer that didn't come: the code that the trigger chose.
pub(crate) fn push_no_answer(out: &mut ArrayString<LINE_ROOM>, code: u8)
    requires { length out.old.bytes ≤ 24 }
    ensures bytes { out.new.bytes ≡ out.old.bytes ++ spaced (no_answer_fields code) }
    ensures len { length out.new.bytes ≤ 56 }
{
    out.push_str(" noanswer ");
    push_small(out, code);
}

/// What stands behind `answer`: the code, the status and the data nibbles.
#[tactic(auto, unfolding(crate::specs::Spc::answer_read))]
pub(crate) fn read_answer<'a>(rest: Rest<'a>) -> Result<(What, Rest<'a>), TextFault>
    ensures { Reads result (answer_read (left rest.entry)) }
{
    let (code, rest) = read_between(0, MAX_CODE, rest)?;
    match read_parts(rest) {
        Ok((frame, rest)) => Ok((What::Answer { code, frame }, rest)),
        Err(fault) => Err(fault),
    }
}

/// What stands behind `noanswer`: the code.
#[tactic(auto, unfolding(crate::specs::Spc::no_answer_read))]
pub(crate) fn read_no_answer<'a>(rest: Rest<'a>) -> Result<(What, Rest<'a>), TextFault>
    ensures { Reads result (no_answer_read (left rest.entry)) }
{
    let (code, rest) = read_between(0, MAX_CODE, rest)?;
    Ok((What::NoAnswer { code }, rest))
}
