//! A run over message lines: each byte is read, and the message that it ends is sent.
ghost use Rattle.std.specs.Prelude.{◌≡◌, ◌++◌, ◌∷◌, [], ◌≤◌, List, ℕ, None, All, Ok, OnErr, OnOk, IfErr, length};
ghost use Rattle.std.specs.Io.KnownBytes.{Appends};
ghost use Rattle.line_base.specs.Causes.{HasCause};
ghost use Rattle.line_base.specs.Streams.{AppendsFront};
ghost use Rattle.simulate_command.specs.Playing.{fault_told};
ghost use Rattle.simulate_command.specs.Rows.{IsTellable, rows_of as text_of};

use crate::rows::rows_of;
use command_base::TaskRun;
use line_base::{Edge, Failed, LineFault, Reason, Sink};
use message_lines::MessageReader;
use receiver_core::{ChannelSetup, Message};
use sensor_sim::Sim;
use sim_base::{SimFault, Wobble};

/// Why a run stops at a message.
#[derive(Clone, Copy, Debug, PartialEq, Eq)]
pub enum Stop {
    /// The message is refused: this is the fault of its line.
    Line(LineFault),
    /// A put failed.
    Put,
}

/// What a run has taken.
#[derive(Drop)]
pub struct Run {
    /// The reader of the message lines.
    pub reader: MessageReader,
    /// The simulator of the channel.
    pub sim: Sim,
    /// The wobble, one for all messages.
    pub wobble: Wobble,
}

/// The fault of a line whose message is refused.
fn fault_told(fault: SimFault) -> LineFault
    ensures { result ≡ fault_told fault }
{
    match fault {
        SimFault::Kind => LineFault::Field,
        SimFault::Range => LineFault::TooLarge,
        SimFault::Order => LineFault::Order,
        SimFault::Late => LineFault::TooLarge,
    }
}

/// Puts the rows of at most 80 edges at once, if there are any.
fn put_rows<K: Sink>(edges: &[Edge], out: &mut K) -> Result<(), Failed>
    requires few { length edges.now ≤ 80 }
    requires tellable { All IsTellable edges.now }
    ensures put { OnOk result (Appends (K.got out.old) (K.got out.new) (text_of edges.now)) }
    ensures cut { OnErr result (AppendsFront (K.got out.old) (K.got out.new) (text_of edges.now)) }
    ensures cause { HasCause (K.faults out.old) (K.faults out.new) result }
{
    if edges.is_empty() {
        return Ok(());
    }
    out.put(rows_of(edges).as_slice())
}

impl Run {
    ghost use Rattle.text_lines.specs.Inputs.{Numbered};
    ghost use Rattle.receiver_core.specs.declared.message.Message.{Message as Told};
    ghost use Rattle.receiver_core.specs.declared.setup.ChannelSetup.{ChannelSetup as Setup};
    ghost use Rattle.receiver_core.specs.Setups.{setup_fault_of};
    ghost use Rattle.command_base.specs.Counted.{PartCounted};
    ghost use Rattle.command_base.specs.Parts.{Stopped};
    ghost use Rattle.simulate_command.specs.Simulations.{simulation};
    ghost use Rattle.simulate_command.specs.Runs.{HasSent, Reads, SendsOrderly, SentOne, StopCounted, StoppedBy, Took};

    /// A run of no bytes, for a channel of this setup, with a wobble of this seed.
    pub fn new(setup: &ChannelSetup, seed: u64) -> Run
        requires { setup_fault_of setup.now ≡ None }
        ensures { SendsOrderly setup.now → Reads setup.now seed result [] }
    {
        Run {
            reader: MessageReader::new(*setup),
            sim: Sim::new(*setup),
            wobble: Wobble::new(seed),
        }
    }

    /// Sends a message, and puts the rows of its edges.
    fn send<K: Sink>(&mut self, message: &Message, out: &mut K) -> Result<(), Stop>
        requires { (setup : Setup) × (seed : ℕ) × (told : List (Numbered Told)) × HasSent setup seed self.old told }
        ensures reader { self.new.reader ≡ self.old.reader }
        ensures sent { OnOk result ((setup : Setup) (seed number : ℕ) (told : List (Numbered Told)) → HasSent setup seed self.old told
            → SentOne setup seed self.new (K.got out.old) (K.got out.new) told (told ++ (number, Ok message.now) ∷ [])) }
        ensures stopped { IfErr result (λ why. (setup : Setup) (seed number : ℕ) (told : List (Numbered Told)) → HasSent setup seed self.old told
            → StoppedBy setup seed number why (K.got out.old) (K.got out.new) told (told ++ (number, Ok message.now) ∷ [])) }
        ensures output { StopCounted result (K.faults out.old) (K.faults out.new) }
    {
        match self.sim.next(message, &mut self.wobble) {
            Ok(edges) => match put_rows(edges.as_slice(), out) {
                Ok(()) => Ok(()),
                Err(Failed) => Err(Stop::Put),
            },
            Err(fault) => Err(Stop::Line(fault_told(fault))),
        }
    }

    /// Takes a byte, and sends the message of the line that it ends, if there is one.
    fn take_byte<K: Sink>(&mut self, byte: u8, out: &mut K) -> Result<(), Reason>
        requires { (setup : Setup) × (seed : ℕ) × (bytes : List ℕ) × Reads setup seed self.old bytes }
        ensures took { OnOk result ((setup : Setup) (seed : ℕ) (bytes : List ℕ) → Reads setup seed self.old bytes
            → Took setup seed self.new (K.got out.old) (K.got out.new) bytes (bytes ++ byte ∷ [])) }
        ensures stopped { IfErr result (λ why. (setup : Setup) (seed : ℕ) (bytes : List ℕ) → Reads setup seed self.old bytes
            → Stopped (simulation setup seed) why (K.got out.old) (K.got out.new) bytes (bytes ++ byte ∷ [])) }
        ensures output { PartCounted result (K.faults out.old) (K.faults out.new) }
    {
        match self.reader.feed(byte) {
            None => Ok(()),
            Some(Ok(message)) => match self.send(&message, out) {
                Ok(()) => Ok(()),
                Err(Stop::Put) => Err(Reason::WriteFault { lane: None }),
                Err(Stop::Line(fault)) => Err(Reason::Input {
                    line: self.reader.line_number(),
                    fault,
                }),
            },
            Some(Err(fault)) => Err(Reason::Input {
                line: self.reader.line_number(),
                fault,
            }),
        }
    }
}

impl TaskRun for Run {
    ghost use Rattle.std.specs.Prelude.{◌≡◌, None};
    ghost use Rattle.command_base.specs.Counted.{OutputCounted, PartCounted};
    ghost use Rattle.command_base.specs.Ended.{IsOfRun};
    ghost use Rattle.command_base.specs.Grown.{GrowsAlong};
    ghost use Rattle.command_base.specs.Parts.{Finished, Stopped};
    ghost use Rattle.command_base.specs.Tasks.{Task};
    ghost use Rattle.simulate_command.specs.Runs.{HasPut};

    ghost has_put = { HasPut };

    /// Takes the bytes of a pull, and sends what they tell it to send before the next byte is looked at.
    fn take_pull<K: Sink>(&mut self, block: &[u8], out: &mut K) -> Result<(), Reason>
        requires { (task : Task) × (bytes : List ℕ) × HasPut task self.old bytes }
        ensures took { OnOk result ((task : Task) (bytes : List ℕ) → HasPut task self.old bytes → HasPut task self.new (bytes ++ block.now)) }
        ensures sound { OnOk result ((task : Task) (bytes : List ℕ) → HasPut task self.old bytes → task.fault (bytes ++ block.now) ≡ None) }
        ensures grows { OnOk result ((task : Task) (bytes : List ℕ) → HasPut task self.old bytes
            → GrowsAlong (K.got out.old) (K.got out.new) (task.text bytes) (task.text (bytes ++ block.now))) }
        ensures stopped { IfErr result (λ why. (task : Task) (bytes : List ℕ) → HasPut task self.old bytes
            → Stopped task why (K.got out.old) (K.got out.new) bytes (bytes ++ block.now)) }
        ensures output { PartCounted result (K.faults out.old) (K.faults out.new) }
    {
        for byte in block {
            self.take_byte(*byte, out)?;
        }
        Ok(())
    }

    /// The input has ended: sends the message of its unfinished last line, if there is one, and says how the run
    /// ended.
    fn finish<K: Sink>(&mut self, out: &mut K) -> Reason
        requires { (task : Task) × (bytes : List ℕ) × HasPut task self.old bytes }
        ensures kind { IsOfRun result }
        ensures ends { (task : Task) (bytes : List ℕ) → HasPut task self.old bytes → Finished task result (K.got out.old) (K.got out.new) bytes }
        ensures output { OutputCounted result (K.faults out.old) (K.faults out.new) }
    {
        match self.reader.finish() {
            None => Reason::Clean,
            Some(Ok(message)) => match self.send(&message, out) {
                Ok(()) => Reason::Clean,
                Err(Stop::Put) => Reason::WriteFault { lane: None },
                Err(Stop::Line(fault)) => Reason::Input {
                    line: self.reader.line_number(),
                    fault,
                },
            },
            Some(Err(fault)) => Reason::Input {
                line: self.reader.line_number(),
                fault,
            },
        }
    }
}
