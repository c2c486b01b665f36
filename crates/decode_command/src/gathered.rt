//! Lines that are gathered before they are put, so that an output is asked once for many.
ghost use Rattle.std.specs.Prelude.{◌≡◌, ◌++◌, ◌≤◌, [], length, OnErr, OnOk};
ghost use Rattle.std.specs.Io.KnownBytes.{Appends};
ghost use Rattle.line_base.specs.Causes.{HasCause};
ghost use Rattle.line_base.specs.Streams.{AppendsFront};
ghost use Rattle.decode_command.specs.Writes.{Takes};

use arrayvec::ArrayVec;
use line_base::{Failed, Sink};
use std::marker::Model;

/// How many bytes are gathered at most.
const ROOM: usize = 4_096;

/// Whole lines that aren't put yet. Contracts see their bytes.
#[derive(Drop)]
pub struct Gathered {
    bytes: ArrayVec<u8, ROOM>,
}

impl Model for Gathered {
    ghost use Rattle.std.specs.Prelude.{List, ℕ};

    ghost Value = { List ℕ };

    ghost view = { λ g. g.bytes.items };
}

impl Gathered {
    /// No lines.
    pub fn new() -> Gathered
        ensures { result ≡ [] }
    {
        Gathered {
            bytes: ArrayVec::new(),
        }
    }

    /// Adds a line of at most 160 bytes. Where there is no room for it, what is gathered is put first.
    pub fn add<K: Sink>(&mut self, line: &[u8], out: &mut K) -> Result<(), Failed>
        requires { length line.now ≤ 160 }
        ensures added { OnOk result (Takes (record { got = K.got out.old; gathered = self.old }) (record { got = K.got out.new; gathered = self.new }) line.now) }
        ensures cut { OnErr result (AppendsFront (K.got out.old) (K.got out.new) (self.old ++ line.now)) }
        ensures cause { HasCause (K.faults out.old) (K.faults out.new) result }
    {
        if ROOM - self.bytes.len() < line.len() {
            self.put(out)?;
        }
        let _ = self.bytes.try_extend_from_slice(line);
        Ok(())
    }

    /// Puts all that is gathered, if there is any.
    pub fn put<K: Sink>(&mut self, out: &mut K) -> Result<(), Failed>
        ensures none { self.new ≡ [] }
        ensures put { OnOk result (Appends (K.got out.old) (K.got out.new) self.old) }
        ensures cut { OnErr result (AppendsFront (K.got out.old) (K.got out.new) self.old) }
        ensures cause { HasCause (K.faults out.old) (K.faults out.new) result }
    {
        if self.bytes.is_empty() {
            return Ok(());
        }
        let result = out.put(self.bytes.as_slice());
        self.bytes.clear();
        result
    }
}
