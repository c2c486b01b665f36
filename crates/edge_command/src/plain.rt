//! The top call without threads.
ghost use Rattle.std.specs.Prelude.{All, ◌≢◌, true, ◌≡◌, ◌↔◌, Err, IsErr, ◌<◌, ◌≤◌, ℕ, None, IfSome, IfOk, length, map, string_bytes};
ghost use Rattle.line_base.specs.Reasons.{status_of};
ghost use Rattle.line_base.specs.declared.reason.Reason.TheVariants as reason;
ghost use Rattle.receiver_core.specs.Setups.{setup_fault_of};
ghost use Rattle.link_words.specs.Commands.{CountsFew, words_read, refused, setups_of_command};
ghost use Rattle.edge_command.specs.Commands.{CommandDid};
ghost use Rattle.command_base.specs.Counted.{OutputCounted, SourceCounted};
ghost use Rattle.line_base.specs.declared.faults.WordFault.{WordFault};

use decode_command::decode;
use line_base::{Reason, Sink, Source};
use link_words::{Command, WordsFault, read_words};
use loop_command::run_loop;
use simulate_command::simulate;
use std::alloc::Global;

/// How a run ended.
#[derive(Clone, Copy, Debug, PartialEq, Eq)]
pub struct Plain {
    /// The exit status, 0 to 6.
    pub status: u8,
    /// The reason.
    pub reason: Reason,
}

/// What a command came to over a source's bytes.
fn run_command<S: Source, K: Sink>(
    alloc: Global,
    command: &Command,
    source: &mut S,
    out: &mut K,
) -> Reason
    requires few { length (setups_of_command command.now) ≤ 16 }
    requires faultless { All (λ setup. setup_fault_of setup ≡ None) (setups_of_command command.now) }
    requires count { CountsFew command.now }
    ensures words { (place : ℕ) (fault : WordFault) → result ≢ reason.Words place fault }
    ensures memory { result ≡ reason.OutOfMemory → (source.new ≡ source.old) × (out.new ≡ out.old) }
    ensures did { CommandDid command.now result (record { left = S.left source.old; left_now = S.left source.new; got = K.got out.old; got_now = K.got out.new }) (source.new ≡ source.old) }
    ensures source { SourceCounted result (S.faults source.old) (S.faults source.new) }
    ensures output { OutputCounted result (K.faults out.old) (K.faults out.new) }
{
    match command {
        Command::Decode(setups) => decode(alloc, setups.list(), true, source, out),
        Command::Check(setups) => decode(alloc, setups.list(), false, source, out),
        Command::Simulate { seed, setup } => simulate(alloc, *seed, setup, source, out),
        Command::Loop { seed, count, setup } => run_loop(*seed, *count, setup, out),
    }
}

/// Why a run ended: its words are refused, or what their command came to.
fn run<S: Source, K: Sink>(alloc: Global, words: &[String], source: &mut S, out: &mut K) -> Reason
    ensures words { (place : ℕ) (fault : WordFault) →
        (result ≡ reason.Words place fault) ↔ (words_read (map string_bytes words.now) ≡ refused place fault) }
    ensures refused { IsErr (words_read (map string_bytes words.now)) → (source.new ≡ source.old) × (out.new ≡ out.old) }
    ensures memory { result ≡ reason.OutOfMemory → (source.new ≡ source.old) × (out.new ≡ out.old) }
    ensures did { IfOk (words_read (map string_bytes words.now)) (λ command. CommandDid command result
        (record { left = S.left source.old; left_now = S.left source.new; got = K.got out.old; got_now = K.got out.new }) (source.new ≡ source.old)) }
    ensures source { SourceCounted result (S.faults source.old) (S.faults source.new) }
    ensures output { OutputCounted result (K.faults out.old) (K.faults out.new) }
{
    match read_words(words) {
        Ok(command) => run_command(alloc, &command, source, out),
        Err(WordsFault { place, fault }) => Reason::Words { place, fault },
    }
}

/// Runs the command that the words name over a source's bytes, and puts its text to `out`. Takes its memory
/// before the first pull.
pub fn run_plain<S: Source, K: Sink>(
    alloc: Global,
    words: &[String],
    source: &mut S,
    out: &mut K,
) -> Plain
    ensures status { result.status ≡ status_of result.reason }

    // The words are refused exactly where they are outside the grammar, and nothing is pulled or put then.
    ensures words { (place : ℕ) (fault : WordFault) →
        (result.reason ≡ reason.Words place fault) ↔ (words_read (map string_bytes words.now) ≡ refused place fault) }
    ensures refused { IsErr (words_read (map string_bytes words.now)) → (source.new ≡ source.old) × (out.new ≡ out.old) }
    ensures memory { result.reason ≡ reason.OutOfMemory → (source.new ≡ source.old) × (out.new ≡ out.old) }

    // What the command did. Of `decode` and `check`, where the source tells its bytes: what was read and written, for
    // each reason, and that of each channel whose edges are an honest trace of some messages exactly the reports of these
    // messages are told, from the first whole frame on. Of `simulate` the same, and that the rows are those of edges that
    // are an honest trace of its messages. Of `loop`: its line was written, or a front of it, and nothing was taken.
    ensures did { IfOk (words_read (map string_bytes words.now)) (λ command. CommandDid command result.reason
        (record { left = S.left source.old; left_now = S.left source.new; got = K.got out.old; got_now = K.got out.new }) (source.new ≡ source.old)) }

    // A fault is answered exactly where it was counted, and none is passed over.
    ensures source { SourceCounted result.reason (S.faults source.old) (S.faults source.new) }
    ensures output { OutputCounted result.reason (K.faults out.old) (K.faults out.new) }
{
    let reason = run(alloc, words, source, out);
    Plain {
        status: reason.status(),
        reason,
    }
}
