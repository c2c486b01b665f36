//! A run over bytes: each byte is read, and what it ends is handed to the channels and told.
ghost use Rattle.std.specs.Prelude.{◌≡◌, ◌+◌, ◌^◌, ◌<◌, ◌≤◌, ◌++◌, [], ◌∷◌, List, ℕ, None, All, length, take, OnErr, OnOk, IfErr, IfOk};
ghost use Rattle.line_base.specs.Causes.{HasCause};
ghost use Rattle.line_base.specs.declared.edge.Edge.{Edge};
ghost use Rattle.decode_command.specs.Channels.{lines_behind, text_so_far, told_lines, whole_text};
ghost use Rattle.decode_command.specs.Followed.{AllCounted, AllFollow, setups_of};
ghost use Rattle.decode_command.specs.Writes.{GrowsAlong, GrowsTowards, Takes, TakesFront};

use crate::channels::{are_marked, put_end, take_edge};
use crate::gathered::Gathered;
use arrayvec::ArrayVec;
use command_base::TaskRun;
use edge_trace::{EdgeReader, EdgesLeft, RowEdges};
use line_base::{Edge, Failed, LineFault, Reason, Sink};
use receiver_core::{CountedReceiver, Report};

/// Why a run stops before the end of its input.
#[derive(Clone, Copy, Debug, PartialEq, Eq)]
pub enum Stop {
    /// A line of the input is refused.
    Line {
        /// Its number, from 1.
        number: u64,
        /// Why it is refused.
        fault: LineFault,
    },
    /// A put failed.
    Put,
}

/// What a run has taken.
#[derive(Drop)]
pub struct Run {
    /// The reader of the edge list.
    pub lines: EdgeReader,
    /// The channels, at most 16.
    pub channels: Vec<CountedReceiver>,
    /// Whether a line is told of each report.
    pub told: bool,
    /// The lines that are told and not put yet.
    pub text: Gathered,
    /// Holds the reports of one edge while they are told.
    reports: ArrayVec<Report, 8>,
    ghost few: { length channels.items ≤ 16 },
    ghost empty: { reports.items ≡ [] },
}

/// Hands an edge and the others of its row to the channels, one after another.
#[inline]
fn take_edges<K: Sink>(
    channels: &mut [CountedReceiver],
    told: bool,
    edge: Edge,
    mut others: EdgesLeft,
    reports: &mut ArrayVec<Report, 8>,
    text: &mut Gathered,
    out: &mut K,
) -> Result<(), Failed>
    requires few { length channels.old ≤ 16 }
    requires in_range { All (λ edge. edge.time ≤ 10 ^ 15) (edge ∷ others) }
    requires empty { reports.old.items ≡ [] }
    requires follow { (edges : List Edge) × AllFollow channels.old edges × (length edges + length (edge ∷ others) < 2 ^ 60) }
    ensures setups { setups_of channels.new ≡ setups_of channels.old }
    ensures empty { reports.new.items ≡ [] }
    ensures follow { OnOk result ((edges : List Edge) → AllFollow channels.old edges → AllFollow channels.new (edges ++ edge ∷ others)) }
    ensures written { OnOk result ((edges : List Edge) → AllFollow channels.old edges
        → Takes (record { got = K.got out.old; gathered = text.old }) (record { got = K.got out.new; gathered = text.new }) (told_lines told (lines_behind (setups_of channels.old) edges (edge ∷ others)))) }
    ensures cut { OnErr result ((edges : List Edge) → AllFollow channels.old edges
        → TakesFront (record { got = K.got out.old; gathered = text.old }) (K.got out.new) (told_lines told (lines_behind (setups_of channels.old) edges (edge ∷ others)))) }
    ensures cause { HasCause (K.faults out.old) (K.faults out.new) result }
{
    take_edge(channels, told, edge, reports, text, out)?;
    match others.take() {
        None => Ok(()),
        Some(next) => take_edges(channels, told, next, others, reports, text, out),
    }
}

impl Run {
    ghost use Rattle.edge_trace.specs.Limits.{whole_edges_of};
    ghost use Rattle.decode_command.specs.Runs.{LastTaken, Reads, StoppedAt, TookBytes, decoding_of, put_out, written_by};
    ghost use Rattle.decode_command.specs.Counted.{StopCounted};

    /// A run over these channels, at most 16, that have taken no edge; with a line for each report where
    /// lines are told.
    pub fn new(channels: Vec<CountedReceiver>, told: bool) -> Run
        requires few { length channels.items ≤ 16 }
        requires follow { AllFollow channels.items [] }
        ensures channels { result.channels ≡ channels }
        ensures told { result.told ≡ told }
        ensures gathered { result.text ≡ [] }
        ensures reads { Reads result [] }
    {
        Run {
            lines: EdgeReader::new(),
            channels,
            told,
            text: Gathered::new(),
            reports: ArrayVec::new(),
        }
    }

    /// Hands the edges of a row to the channels.
    #[inline(always)]
    fn put_row<K: Sink>(&mut self, row: &RowEdges, out: &mut K) -> Result<(), Failed>
        requires in_range { All (λ edge. edge.time ≤ 10 ^ 15) row.now }
        requires follow { (edges : List Edge) × AllFollow self.old.channels.items edges × (length edges + length row.now < 2 ^ 60) }
        ensures decoding { decoding_of self.new ≡ decoding_of self.old }
        ensures lines { self.new.lines ≡ self.old.lines }
        ensures follow { OnOk result ((edges : List Edge) → AllFollow self.old.channels.items edges → AllFollow self.new.channels.items (edges ++ row.now)) }
        ensures written { OnOk result ((edges : List Edge) → AllFollow self.old.channels.items edges
            → GrowsAlong (written_by self.old (K.got out.old)) (written_by self.new (K.got out.new)) (text_so_far (decoding_of self.old) edges) (text_so_far (decoding_of self.old) (edges ++ row.now))) }
        ensures cut { OnErr result ((edges : List Edge) → AllFollow self.old.channels.items edges
            → GrowsTowards (written_by self.old (K.got out.old)) (K.got out.new) (text_so_far (decoding_of self.old) edges) (text_so_far (decoding_of self.old) (edges ++ row.now))) }
        ensures cause { HasCause (K.faults out.old) (K.faults out.new) result }
    {
        let mut others = row.edges();
        let Some(edge) = others.take() else {
            return Ok(());
        };
        take_edges(
            self.channels.as_mut_slice(),
            self.told,
            edge,
            others,
            &mut self.reports,
            &mut self.text,
            out,
        )
    }

    /// Hands an edge to the channels.
    #[inline(always)]
    fn put_edge<K: Sink>(&mut self, edge: Edge, out: &mut K) -> Result<(), Failed>
        requires in_range { edge.time ≤ 10 ^ 15 }
        requires follow { (edges : List Edge) × AllFollow self.old.channels.items edges × (length edges < 2 ^ 60) }
        ensures decoding { decoding_of self.new ≡ decoding_of self.old }
        ensures lines { self.new.lines ≡ self.old.lines }
        ensures follow { OnOk result ((edges : List Edge) → AllFollow self.old.channels.items edges → AllFollow self.new.channels.items (edges ++ edge ∷ [])) }
        ensures written { OnOk result ((edges : List Edge) → AllFollow self.old.channels.items edges
            → GrowsAlong (written_by self.old (K.got out.old)) (written_by self.new (K.got out.new)) (text_so_far (decoding_of self.old) edges) (text_so_far (decoding_of self.old) (edges ++ edge ∷ []))) }
        ensures cut { OnErr result ((edges : List Edge) → AllFollow self.old.channels.items edges
            → GrowsTowards (written_by self.old (K.got out.old)) (K.got out.new) (text_so_far (decoding_of self.old) edges) (text_so_far (decoding_of self.old) (edges ++ edge ∷ []))) }
        ensures cause { HasCause (K.faults out.old) (K.faults out.new) result }
    {
        take_edge(
            self.channels.as_mut_slice(),
            self.told,
            edge,
            &mut self.reports,
            &mut self.text,
            out,
        )
    }

    /// Takes the plain narrow row that stands whole at the front of a block, writes the lines of its edge, and
    /// gives how many bytes it has; 0 where none is taken.
    #[inline(always)]
    fn take_narrow_row<K: Sink>(&mut self, block: &[u8], out: &mut K) -> Result<usize, Stop>
        requires { (bytes : List ℕ) × Reads self.old bytes }
        ensures decoding { decoding_of self.new ≡ decoding_of self.old }
        ensures fits { IfOk result (λ count. count ≤ length block.now) }
        ensures took { IfOk result (λ count. (bytes : List ℕ) → Reads self.old bytes
            → TookBytes self.old self.new (K.got out.old) (K.got out.new) bytes (bytes ++ take count block.now)) }
        ensures stopped { IfErr result (λ why. (bytes : List ℕ) → Reads self.old bytes
            → StoppedAt (decoding_of self.old) why (written_by self.old (K.got out.old)) (written_by self.new (K.got out.new)) bytes (bytes ++ block.now)) }
        ensures output { StopCounted result (K.faults out.old) (K.faults out.new) }
    {
        let (count, edge) = self.lines.take_row(block);
        let Some(edge) = edge else {
            return Ok(count);
        };
        match self.put_edge(edge, out) {
            Ok(()) => Ok(count),
            Err(Failed) => Err(Stop::Put),
        }
    }

    /// The same of a plain wide row and its edges.
    #[inline(never)]
    fn take_wide_row<K: Sink>(&mut self, block: &[u8], out: &mut K) -> Result<usize, Stop>
        requires { (bytes : List ℕ) × Reads self.old bytes }
        ensures decoding { decoding_of self.new ≡ decoding_of self.old }
        ensures fits { IfOk result (λ count. count ≤ length block.now) }
        ensures took { IfOk result (λ count. (bytes : List ℕ) → Reads self.old bytes
            → TookBytes self.old self.new (K.got out.old) (K.got out.new) bytes (bytes ++ take count block.now)) }
        ensures stopped { IfErr result (λ why. (bytes : List ℕ) → Reads self.old bytes
            → StoppedAt (decoding_of self.old) why (written_by self.old (K.got out.old)) (written_by self.new (K.got out.new)) bytes (bytes ++ block.now)) }
        ensures output { StopCounted result (K.faults out.old) (K.faults out.new) }
    {
        let (taken, edges) = self.lines.take_wide_row(block);
        if edges.is_empty() {
            return Ok(taken);
        }
        match self.put_row(&edges, out) {
            Ok(()) => Ok(taken),
            Err(Failed) => Err(Stop::Put),
        }
    }

    /// Takes the plain row that stands whole at the front of a block, writes the lines of its edges, and gives
    /// how many bytes it has; 0 where none is taken.
    #[inline(always)]
    fn take_row<K: Sink>(&mut self, block: &[u8], out: &mut K) -> Result<usize, Stop>
        requires { (bytes : List ℕ) × Reads self.old bytes }
        ensures decoding { decoding_of self.new ≡ decoding_of self.old }
        ensures fits { IfOk result (λ count. count ≤ length block.now) }
        ensures took { IfOk result (λ count. (bytes : List ℕ) → Reads self.old bytes
            → TookBytes self.old self.new (K.got out.old) (K.got out.new) bytes (bytes ++ take count block.now)) }
        ensures stopped { IfErr result (λ why. (bytes : List ℕ) → Reads self.old bytes
            → StoppedAt (decoding_of self.old) why (written_by self.old (K.got out.old)) (written_by self.new (K.got out.new)) bytes (bytes ++ block.now)) }
        ensures output { StopCounted result (K.faults out.old) (K.faults out.new) }
    {
        let count = self.take_narrow_row(block, out)?;
        if count > 0 {
            return Ok(count);
        }
        let wide = self.take_wide_row(block, out)?;
        Ok(wide)
    }

    /// Takes the next byte, and writes the lines of what it ends.
    #[inline(never)]
    fn take_byte<K: Sink>(&mut self, byte: u8, out: &mut K) -> Result<(), Stop>
        requires { (bytes : List ℕ) × Reads self.old bytes }
        ensures decoding { decoding_of self.new ≡ decoding_of self.old }
        ensures took { OnOk result ((bytes : List ℕ) → Reads self.old bytes
            → TookBytes self.old self.new (K.got out.old) (K.got out.new) bytes (bytes ++ byte ∷ [])) }
        ensures stopped { IfErr result (λ why. (bytes : List ℕ) → Reads self.old bytes
            → StoppedAt (decoding_of self.old) why (written_by self.old (K.got out.old)) (written_by self.new (K.got out.new)) bytes (bytes ++ byte ∷ [])) }
        ensures output { StopCounted result (K.faults out.old) (K.faults out.new) }
    {
        match self.lines.feed(byte) {
            None => Ok(()),
            Some(Ok(row)) => match self.put_row(&row.edges, out) {
                Ok(()) => Ok(()),
                Err(Failed) => Err(Stop::Put),
            },
            Some(Err(fault)) => Err(Stop::Line {
                number: self.lines.line_number(),
                fault,
            }),
        }
    }

    /// Takes the bytes of a block, plain rows whole and others byte by byte, and writes the lines of what each row
    /// ends before the next is looked at.
    fn take_block<K: Sink>(&mut self, block: &[u8], out: &mut K) -> Result<(), Stop>
        requires { (bytes : List ℕ) × Reads self.old bytes }
        ensures decoding { decoding_of self.new ≡ decoding_of self.old }
        ensures took { OnOk result ((bytes : List ℕ) → Reads self.old bytes
            → TookBytes self.old self.new (K.got out.old) (K.got out.new) bytes (bytes ++ block.now)) }
        ensures stopped { IfErr result (λ why. (bytes : List ℕ) → Reads self.old bytes
            → StoppedAt (decoding_of self.old) why (written_by self.old (K.got out.old)) (written_by self.new (K.got out.new)) bytes (bytes ++ block.now)) }
        ensures output { StopCounted result (K.faults out.old) (K.faults out.new) }
    {
        let mut rest = block;
        'bytes: while !rest.is_empty() {
            let count = self.take_row(rest, out)?;
            if count > 0 {
                rest = &rest[count..];
                continue 'bytes;
            }
            let run = self.lines.take_run(rest);
            rest = &rest[run..];
            if let Some((byte, others)) = rest.split_first() {
                self.take_byte(*byte, out)?;
                rest = others;
            }
        }
        Ok(())
    }

    /// The input has ended: takes what its unfinished last line is, and writes the lines of what it ends.
    fn take_last<K: Sink>(&mut self, out: &mut K) -> Result<(), Stop>
        requires { (bytes : List ℕ) × Reads self.old bytes }
        ensures decoding { decoding_of self.new ≡ decoding_of self.old }
        ensures follow { OnOk result ((bytes : List ℕ) → Reads self.old bytes → AllFollow self.new.channels.items (whole_edges_of bytes)) }
        ensures taken { (bytes : List ℕ) → Reads self.old bytes → LastTaken (decoding_of self.old) result (written_by self.old (K.got out.old)) (written_by self.new (K.got out.new)) bytes }
        ensures output { StopCounted result (K.faults out.old) (K.faults out.new) }
    {
        match self.lines.finish() {
            None => Ok(()),
            Some(Ok(row)) => match self.put_row(&row.edges, out) {
                Ok(()) => Ok(()),
                Err(Failed) => Err(Stop::Put),
            },
            Some(Err(fault)) => Err(Stop::Line {
                number: self.lines.line_number(),
                fault,
            }),
        }
    }

    /// Hands the end to the channels, and puts what is gathered, their last lines and the total lines.
    fn put_end<K: Sink>(&mut self, out: &mut K) -> Result<(), Failed>
        requires { (edges : List Edge) × AllFollow self.old.channels.items edges × (length edges < 2 ^ 60) }
        ensures setups { setups_of self.new.channels.items ≡ setups_of self.old.channels.items }
        ensures counted { OnOk result ((edges : List Edge) → AllFollow self.old.channels.items edges → AllCounted self.new.channels.items edges) }
        ensures written { OnOk result ((edges : List Edge) → AllFollow self.old.channels.items edges
            → GrowsAlong (written_by self.old (K.got out.old)) (put_out (K.got out.new)) (text_so_far (decoding_of self.old) edges) (whole_text (decoding_of self.old) edges)) }
        ensures cut { OnErr result ((edges : List Edge) → AllFollow self.old.channels.items edges
            → GrowsTowards (written_by self.old (K.got out.old)) (K.got out.new) (text_so_far (decoding_of self.old) edges) (whole_text (decoding_of self.old) edges)) }
        ensures cause { HasCause (K.faults out.old) (K.faults out.new) result }
    {
        put_end(
            self.channels.as_mut_slice(),
            self.told,
            &mut self.reports,
            &mut self.text,
            out,
        )
    }
}

impl TaskRun for Run {
    ghost use Rattle.command_base.specs.Counted.{OutputCounted, PartCounted};
    ghost use Rattle.command_base.specs.Ended.{IsOfRun};
    ghost use Rattle.command_base.specs.Grown.{GrowsAlong as OutputGrows};
    ghost use Rattle.command_base.specs.Parts.{Finished, Stopped};
    ghost use Rattle.command_base.specs.Tasks.{Task};
    ghost use Rattle.decode_command.specs.Runs.{HasPut};

    ghost has_put = { HasPut };

    /// Takes the bytes of a pull, and puts the lines of what they end.
    fn take_pull<K: Sink>(&mut self, block: &[u8], out: &mut K) -> Result<(), Reason>
        requires { (task : Task) × (bytes : List ℕ) × HasPut task self.old bytes }
        ensures took { OnOk result ((task : Task) (bytes : List ℕ) → HasPut task self.old bytes → HasPut task self.new (bytes ++ block.now)) }
        ensures sound { OnOk result ((task : Task) (bytes : List ℕ) → HasPut task self.old bytes → task.fault (bytes ++ block.now) ≡ None) }
        ensures grows { OnOk result ((task : Task) (bytes : List ℕ) → HasPut task self.old bytes
            → OutputGrows (K.got out.old) (K.got out.new) (task.text bytes) (task.text (bytes ++ block.now))) }
        ensures stopped { IfErr result (λ why. (task : Task) (bytes : List ℕ) → HasPut task self.old bytes
            → Stopped task why (K.got out.old) (K.got out.new) bytes (bytes ++ block.now)) }
        ensures output { PartCounted result (K.faults out.old) (K.faults out.new) }
    {
        match self.take_block(block, out) {
            Err(Stop::Put) => Err(Reason::WriteFault { lane: None }),
            Err(Stop::Line { number, fault }) => match self.text.put(out) {
                Err(Failed) => Err(Reason::WriteFault { lane: None }),
                Ok(()) => Err(Reason::Input {
                    line: number,
                    fault,
                }),
            },
            Ok(()) => match self.text.put(out) {
                Err(Failed) => Err(Reason::WriteFault { lane: None }),
                Ok(()) => Ok(()),
            },
        }
    }

    /// The input has ended: takes what its unfinished last line is, puts the last lines and the total lines,
    /// and says how the run ended.
    fn finish<K: Sink>(&mut self, out: &mut K) -> Reason
        requires { (task : Task) × (bytes : List ℕ) × HasPut task self.old bytes }
        ensures kind { IsOfRun result }
        ensures ends { (task : Task) (bytes : List ℕ) → HasPut task self.old bytes → Finished task result (K.got out.old) (K.got out.new) bytes }
        ensures output { OutputCounted result (K.faults out.old) (K.faults out.new) }
    {
        match self.take_last(out) {
            Err(Stop::Put) => Reason::WriteFault { lane: None },
            Err(Stop::Line { number, fault }) => Reason::Input {
                line: number,
                fault,
            },
            Ok(()) => match self.put_end(out) {
                Err(Failed) => Reason::WriteFault { lane: None },
                Ok(()) => {
                    if are_marked(self.channels.as_slice()) {
                        Reason::Marked
                    } else {
                        Reason::Clean
                    }
                }
            },
        }
    }
}
