//! A text about the program is put.
ghost use Rattle.std.specs.Prelude.{◌≡◌, ◌⊎◌, None};
ghost use Rattle.std.specs.Io.KnownBytes.{Appends};
ghost use Rattle.line_base.specs.Streams.{AppendsFront};
ghost use Rattle.line_base.specs.declared.reason.Reason.TheVariants as reason;
ghost use Rattle.command_base.specs.Counted.{OutputCounted};
ghost use Rattle.pulselink.specs.About.{about_text};

use crate::about::About;
use line_base::{Failed, Reason, Sink};

/// Puts a text about the program, and says how that ended: `Clean`, or `WriteFault` where the put failed.
pub fn show<K: Sink>(about: About, out: &mut K) -> Reason
    ensures kind { (result ≡ reason.Clean) ⊎ (result ≡ reason.WriteFault None) }
    ensures shown { result ≡ reason.Clean → Appends (K.got out.old) (K.got out.new) (about_text about) }
    ensures cut { result ≡ reason.WriteFault None → AppendsFront (K.got out.old) (K.got out.new) (about_text about) }
    ensures output { OutputCounted result (K.faults out.old) (K.faults out.new) }
{
    match out.put(about.text().as_bytes()) {
        Ok(()) => Reason::Clean,
        Err(Failed) => Reason::WriteFault { lane: None },
    }
}
