//! The commands `decode` and `check`.
ghost use Rattle.std.specs.Prelude.{All, ◌≢◌, ◌≡◌, ◌≤◌, ℕ, None, IfSome, length};
ghost use Rattle.line_base.specs.declared.faults.WordFault.{WordFault};
ghost use Rattle.line_base.specs.declared.reason.Reason.TheVariants as reason;
ghost use Rattle.receiver_core.specs.Setups.{setup_fault_of};
ghost use Rattle.command_base.specs.Counted.{OutputCounted, SourceCounted};
ghost use Rattle.command_base.specs.Ended.{Ended};
ghost use Rattle.decode_command.specs.Channels.{decoding_task};
ghost use Rattle.decode_command.specs.Traces.{ToldTraces};

use crate::channels::channels_of;
use crate::run::Run;
use command_base::{read_buffer, run_over};
use line_base::{Reason, Sink, Source};
use receiver_core::ChannelSetup;
use std::alloc::{AllocError, Global};

/// Decodes all of a source's bytes on channels of these setups, at most 16 and none with a fault, and puts the
/// text, with a line for each report where lines are told. Takes its memory before the first pull.
pub fn decode<S: Source, K: Sink>(
    alloc: Global,
    setups: &[ChannelSetup],
    told: bool,
    source: &mut S,
    out: &mut K,
) -> Reason
    requires few { length setups.now ≤ 16 }
    requires no_fault { All (λ setup. setup_fault_of setup ≡ None) setups.now }
    ensures words { (place : ℕ) (fault : WordFault) → result ≢ reason.Words place fault }
    ensures memory { result ≡ reason.OutOfMemory → (source.new ≡ source.old) × (out.new ≡ out.old) }
    ensures ended { IfSome (S.left source.old) (λ bytes. Ended (decoding_task (record { setups = setups.now; told = told })) result bytes (S.left source.new) (K.got out.old) (K.got out.new)) }
    ensures source { SourceCounted result (S.faults source.old) (S.faults source.new) }
    ensures output { OutputCounted result (K.faults out.old) (K.faults out.new) }
{
    let Ok(channels) = channels_of(alloc, setups) else {
        return Reason::OutOfMemory;
    };
    match read_buffer(alloc) {
        Ok(mut buffer) => {
            let mut run = Run::new(channels, told);
            run_over(&mut run, buffer.as_mut_slice(), source, out)
        }
        Err(AllocError) => Reason::OutOfMemory,
    }
}
