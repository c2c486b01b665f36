//! The command over a source and an output.
ghost use Rattle.std.specs.Prelude.{◌≡◌, ◌≢◌, ℕ, None, IfSome};
ghost use Rattle.line_base.specs.declared.reason.Reason.TheVariants as reason;
ghost use Rattle.line_base.specs.declared.faults.WordFault.{WordFault};
ghost use Rattle.receiver_core.specs.Setups.{setup_fault_of};
ghost use Rattle.command_base.specs.Counted.{OutputCounted, SourceCounted};
ghost use Rattle.command_base.specs.Ended.{Ended};
ghost use Rattle.simulate_command.specs.Simulations.{WroteHonest, simulation};

use crate::run::Run;
use command_base::{read_buffer, run_over};
use line_base::{Reason, Sink, Source};
use receiver_core::ChannelSetup;
use sensor_sim::{played_edges_are_honest, setups_are_accepted, simulated_edges_are_honest};
use std::alloc::{AllocError, Global};

/// Simulates the sensor of one channel: reads message lines from a source, and puts the narrow row of each edge that
/// the sensor sends to `out`, at once for each message that has edges. One wobble of this seed serves all messages.
///
/// `Input` tells the first line that is refused: for a fault of its own, for a message that may not come there
/// (`Order`), or for one that would end too late (`TooLarge`). The rows of the messages before it were put. Takes its
/// memory, 4,096 bytes, before the first pull, and keeps one line at a time.
pub fn simulate<S: Source, K: Sink>(
    alloc: Global,
    seed: u64,
    setup: &ChannelSetup,
    source: &mut S,
    out: &mut K,
) -> Reason
    requires { setup_fault_of setup.now ≡ None }
    ensures words { (place : ℕ) (fault : WordFault) → result ≢ reason.Words place fault }
    ensures memory { result ≡ reason.OutOfMemory → (source.new ≡ source.old) × (out.new ≡ out.old) }

    // Where source and output tell their bytes: what was read and written, for each reason.
    ensures ended { IfSome (S.left source.old) (λ bytes. Ended (simulation setup.now seed) result bytes (S.left source.new) (K.got out.old) (K.got out.new)) }

    // Where all was read and written, the rows are those of edges that are an honest trace of the messages.
    ensures honest { result ≡ reason.Clean → IfSome (S.left source.old) (λ bytes. WroteHonest setup.now bytes (K.got out.old) (K.got out.new)) }

    // A fault is answered exactly where it was counted, and none is passed over.
    ensures source { SourceCounted result (S.faults source.old) (S.faults source.new) }
    ensures output { OutputCounted result (K.faults out.old) (K.faults out.new) }
{
    setups_are_accepted(setup);
    simulated_edges_are_honest();
    played_edges_are_honest();
    match read_buffer(alloc) {
        Ok(mut buffer) => {
            let mut run = Run::new(setup, seed);
            run_over(&mut run, buffer.as_mut_slice(), source, out)
        }
        Err(AllocError) => Reason::OutOfMemory,
    }
}
