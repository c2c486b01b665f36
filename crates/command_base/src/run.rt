//! A run over a source's bytes, for each command that reads them to their end.
ghost use Rattle.std.specs.Prelude.{◌≡◌, ◌++◌, [], List, ℕ, None, IfErr, IfSome, OnOk, length};
ghost use Rattle.command_base.specs.Counted.{OutputCounted, PartCounted, SourceCounted};
ghost use Rattle.command_base.specs.Ended.{Ended, IsOfRun};
ghost use Rattle.command_base.specs.Grown.{GrowsAlong};
ghost use Rattle.command_base.specs.Parts.{Finished, Stopped};
ghost use Rattle.command_base.specs.Tasks.{IsSteady, Task};

use line_base::{Failed, Reason, Sink, Source};

/// How many pulls that give a byte there are at most: byte number 2^36 ends an input.
const MAX_PULLS: u64 = 68_719_476_736;

/// What a command takes bytes with, block by block.
pub trait TaskRun {
    /// It has taken these bytes, which have no fault, of this task, and has put all their text.
    ghost has_put: { Task → Self → List ℕ → Type 0 };

    /// Takes a block of bytes, and puts the text that they add. `Input` tells the first line that is refused, once
    /// the text before it was put, and `WriteFault` that a put failed; the run has stopped then.
    fn take_pull<K: Sink>(&mut self, block: &[u8], out: &mut K) -> Result<(), Reason>
        requires { (task : Task) × (bytes : List ℕ) × has_put task self.old bytes }
        ensures took { OnOk result ((task : Task) (bytes : List ℕ) → has_put task self.old bytes → has_put task self.new (bytes ++ block.now)) }
        ensures sound { OnOk result ((task : Task) (bytes : List ℕ) → has_put task self.old bytes → task.fault (bytes ++ block.now) ≡ None) }
        ensures grows { OnOk result ((task : Task) (bytes : List ℕ) → has_put task self.old bytes → GrowsAlong (K.got out.old) (K.got out.new) (task.text bytes) (task.text (bytes ++ block.now))) }
        ensures stopped { IfErr result (λ why. (task : Task) (bytes : List ℕ) → has_put task self.old bytes → Stopped task why (K.got out.old) (K.got out.new) bytes (bytes ++ block.now)) }
        ensures output { PartCounted result (K.faults out.old) (K.faults out.new) };

    /// The input has ended: takes what its unfinished last line is, puts the last text, and says how the run
    /// ended: `Clean` or `Marked` where all was put, or why it stopped, as above.
    fn finish<K: Sink>(&mut self, out: &mut K) -> Reason
        requires { (task : Task) × (bytes : List ℕ) × has_put task self.old bytes }
        ensures kind { IsOfRun result }
        ensures ends { (task : Task) (bytes : List ℕ) → has_put task self.old bytes → Finished task result (K.got out.old) (K.got out.new) bytes }
        ensures output { OutputCounted result (K.faults out.old) (K.faults out.new) };
}

/// Takes all of a source's bytes, up to 4,096 with each pull, by a run that has taken none, and puts the text of its
/// task. `ReadFault` tells that a pull failed; the other reasons are those of the run. Nothing is pulled behind a
/// fault.
pub fn run_over<R: TaskRun, S: Source, K: Sink>(
    run: &mut R,
    buffer: &mut [u8],
    source: &mut S,
    out: &mut K,
) -> Reason
    requires size { length buffer.old ≡ 4096 }
    requires stands { (task : Task) × IsSteady task × (task.fault [] ≡ None) × R.has_put task run.old [] }
    ensures kind { IsOfRun result }
    ensures ended { (task : Task) → IsSteady task → task.fault [] ≡ None → R.has_put task run.old [] → IfSome (S.left source.old) (λ bytes. Ended task result bytes (S.left source.new) (K.got out.old) (K.got out.new)) }
    ensures source { SourceCounted result (S.faults source.old) (S.faults source.new) }
    ensures output { OutputCounted result (K.faults out.old) (K.faults out.new) }
{
    for _pull in 0..MAX_PULLS {
        let count = match source.pull(buffer) {
            Ok(count) => count,
            Err(Failed) => return Reason::ReadFault,
        };
        if count == 0 {
            return run.finish(out);
        }
        if let Err(reason) = run.take_pull(&buffer[..count], out) {
            return reason;
        }
    }
    unreachable!()
}
