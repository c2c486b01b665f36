//! The top call.
ghost use Rattle.std.specs.Prelude.{◌≡◌, ◌≤◌, None};
ghost use Rattle.command_base.specs.Counted.{OutputCounted};
ghost use Rattle.receiver_core.specs.Setups.{setup_fault_of};
ghost use Rattle.loop_command.specs.Ended.{IsOfLoop, LoopEnded};

use crate::line::{LINE_ROOM, write_line};
use crate::script_loop::ScriptLoop;
use arrayvec::ArrayString;
use line_base::{Failed, Reason, Sink};
use receiver_core::ChannelSetup;
use scripts_heard::scripted_messages_are_all_heard;

/// Sends the messages of a script, up to so many counted ones, 0 to 100,000, on a channel of this setup, which has no
/// fault, and puts the line of what two receivers make of the edges, one of them with gaps. The receiver without gaps
/// counts each of these messages as good, and nothing as bad. It takes no memory, and the same room for any number of
/// messages. The reason is `Clean`, or `WriteFault` where the put failed.
pub fn run_loop<K: Sink>(seed: u64, count: u64, setup: &ChannelSetup, out: &mut K) -> Reason
    requires no_fault { setup_fault_of setup.now ≡ None }
    requires count { count ≤ 100000 }
    ensures kind { IsOfLoop result }
    ensures ended { LoopEnded seed count setup.now result (K.got out.old) (K.got out.new) }
    ensures output { OutputCounted result (K.faults out.old) (K.faults out.new) }
{
    scripted_messages_are_all_heard();
    let mut running = ScriptLoop::new(seed, setup);
    running.send_all(count);
    let listeners = &mut running.channel.listeners;
    listeners.take_end();
    let mut line: ArrayString<LINE_ROOM> = ArrayString::new();
    write_line(
        count,
        &listeners.all.tally,
        listeners.gaps.edges,
        listeners.last,
        &listeners.gaps.receiver.tally,
        &mut line,
    );
    match out.put(line.as_bytes()) {
        Ok(()) => Reason::Clean,
        Err(Failed) => Reason::WriteFault { lane: None },
    }
}
