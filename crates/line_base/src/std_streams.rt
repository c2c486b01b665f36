//! Adapters over std's readers and writers, which count their faults.
ghost use Rattle.std.specs.Prelude.{◌≡◌, ◌<◌, length};
ghost use Rattle.std.specs.Io.{ReadsAtMost};
ghost use Rattle.std.specs.Io.KnownBytes.{ReadConsumes};
ghost use Rattle.line_base.specs.Adapters.{sink_faults, sink_writer, source_faults, source_reader};
ghost use Rattle.line_base.specs.Causes.{Counts, HasCause};
ghost use Rattle.line_base.specs.Streams.{PutAppends};

use crate::{Failed, Sink, Source};
use std::io::{Read, Write};

/// A reader of std as a source. A read that fails is a fault.
#[derive(Drop)]
pub struct StdSource<R> {
    reader: R,
    faults: u64,
}

impl<R: Read + Drop> StdSource<R> {
    /// The source of what this reader gives.
    pub fn new(reader: R) -> StdSource<R>
        ensures reader { source_reader result ≡ reader }
        ensures faults { source_faults result ≡ 0 }
    {
        StdSource { reader, faults: 0 }
    }
}

impl<R: Read + Drop> Source for StdSource<R> {
    ghost left = { λ s. R.remaining (source_reader s) };

    ghost faults = { source_faults };

    /// Reads once. A fault is counted where `Failed` is answered, and nowhere else; that std's reader failed
    /// then is only tested.
    fn pull(&mut self, buf: &mut [u8]) -> Result<usize, Failed>
        requires { 0 < length buf.old }
        ensures bound { ReadsAtMost result buf.new }
        ensures bytes { ReadConsumes (R.remaining (source_reader self.old)) (R.remaining (source_reader self.new)) result buf.new }
        ensures cause { HasCause (source_faults self.old) (source_faults self.new) result }
        ensures faults { Counts (source_faults self.old) (source_faults self.new) result }
    {
        match self.reader.read(buf) {
            Ok(count) => Ok(count),
            Err(_) => {
                self.faults = self.faults.saturating_add(1);
                Err(Failed)
            }
        }
    }
}

/// Writes until all bytes are taken, or to the first write that fails or takes nothing.
pub(crate) fn write_each<W: Write>(writer: &mut W, bytes: &[u8]) -> Result<(), Failed>
    ensures { PutAppends (W.contents writer.old) (W.contents writer.new) result bytes.now }
{
    let mut rest = bytes;
    'writes: while !rest.is_empty() {
        match writer.write(rest) {
            Ok(count) if count > 0 => rest = &rest[count..],
            _ => return Err(Failed),
        }
    }
    Ok(())
}

/// A writer of std as a sink. A write that fails or takes nothing is a fault.
#[derive(Drop)]
pub struct StdSink<W> {
    writer: W,
    faults: u64,
}

impl<W: Write + Drop> StdSink<W> {
    /// The sink that hands all to this writer.
    pub fn new(writer: W) -> StdSink<W>
        ensures writer { sink_writer result ≡ writer }
        ensures faults { sink_faults result ≡ 0 }
    {
        StdSink { writer, faults: 0 }
    }
}

impl<W: Write + Drop> Sink for StdSink<W> {
    ghost got = { λ s. W.contents (sink_writer s) };

    ghost faults = { sink_faults };

    /// Writes until all bytes are taken, or to the first fault, which alone is counted.
    fn put(&mut self, bytes: &[u8]) -> Result<(), Failed>
        ensures bytes { PutAppends (W.contents (sink_writer self.old)) (W.contents (sink_writer self.new)) result bytes.now }
        ensures cause { HasCause (sink_faults self.old) (sink_faults self.new) result }
        ensures faults { Counts (sink_faults self.old) (sink_faults self.new) result }
    {
        let result = write_each(&mut self.writer, bytes);
        if result.is_err() {
            self.faults = self.faults.saturating_add(1);
        }
        result
    }
}
