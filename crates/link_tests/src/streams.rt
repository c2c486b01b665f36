//! Sources and sinks over devices of std, through their bounds. Each device has one kind of fault.
ghost use Rattle.std.specs.Prelude.{◌<◌, length, OnErr};
ghost use Rattle.line_base.specs.Causes.{Rose};

use line_base::{Failed, Sink, Source, StdSink, StdSource};
use std::io;
use std::io::{ErrorKind, Read, Write};

// A pull through the bound. Where it fails, the count of faults rose.
fn pull<S: Source>(source: &mut S, buf: &mut [u8]) -> Result<usize, Failed>
    requires { 0 < length buf.old }
    ensures { OnErr result (Rose (S.faults source.old) (S.faults source.new)) }
{
    source.pull(buf)
}

// A put through the bound. Where it fails, the count of faults rose.
fn put<K: Sink>(sink: &mut K, bytes: &[u8]) -> Result<(), Failed>
    ensures { OnErr result (Rose (K.faults sink.old) (K.faults sink.new)) }
{
    sink.put(bytes)
}

/// A device of std that moves at most so many bytes at a call, of which one fails and one is interrupted, counted from
/// 1. It takes no write that begins with 0. It keeps how many bytes the last call was for.
#[derive(Drop)]
struct Device {
    most: usize,
    failing: u64,
    interrupted: u64,
    calls: u64,
    asked: usize,
}

impl Device {
    fn call(&mut self, asked: usize) -> io::Result<usize> {
        self.calls = self.calls.saturating_add(1);
        self.asked = asked;
        if self.calls == self.failing {
            return Err(io::Error::from(ErrorKind::Other));
        }
        if self.calls == self.interrupted {
            return Err(io::Error::from(ErrorKind::Interrupted));
        }
        Ok(asked.min(self.most))
    }
}

impl Read for Device {
    fn read(&mut self, buf: &mut [u8]) -> io::Result<usize> {
        let count = self.call(buf.len())?;
        Ok(count.min(buf.len()))
    }
}

impl Write for Device {
    fn write(&mut self, buf: &[u8]) -> io::Result<usize> {
        if buf.first() == Some(&0) {
            return Ok(0);
        }
        let count = self.call(buf.len())?;
        Ok(count.min(buf.len()))
    }

    fn flush(&mut self) -> io::Result<()> {
        Ok(())
    }
}

/// Reads of 5 bytes, of which the second fails and the fourth is interrupted.
#[test]
fn a_pull_is_one_read_for_all_that_fits_and_a_fault_is_that_pulls_alone(rt: HostRuntime) {
    let mut device = Device {
        most: 9,
        failing: 2,
        interrupted: 4,
        calls: 0,
        asked: 0,
    };
    let mut source = StdSource::new(&mut device);
    let mut buf = [0; 5];
    for expected in [Ok(5), Err(Failed), Ok(5), Err(Failed), Ok(5)] {
        assert!(rt; pull(&mut source, &mut buf) == expected);
    }
    assert!(rt; device.calls == 5 && device.asked == 5);
}

/// The first put needs three writes of a byte. The second fails at its second one, write 5, and the fourth is
/// interrupted at its first, write 7. In the third a 0 isn't taken, and nothing is written of no bytes.
#[test]
fn a_put_hands_over_what_is_left_until_all_is_taken_or_to_a_fault(rt: HostRuntime) {
    let mut device = Device {
        most: 1,
        failing: 5,
        interrupted: 7,
        calls: 0,
        asked: 0,
    };
    let mut sink = StdSink::new(&mut device);
    let puts: [(&[u8], bool); 6] = [
        (&[1, 2, 3], true),
        (&[4, 5, 6], false),
        (&[7, 0, 8], false),
        (&[9], false),
        (&[], true),
        (&[1, 2, 3, 4], true),
    ];
    for (bytes, taken) in puts {
        assert!(rt; put(&mut sink, bytes).is_ok() == taken, "{bytes:?}");
    }
    assert!(rt; device.calls == 11 && device.asked == 1);
    let mut whole = Device {
        most: 9,
        failing: 0,
        interrupted: 0,
        calls: 0,
        asked: 0,
    };
    assert!(rt; put(&mut StdSink::new(&mut whole), &[1, 2, 3]).is_ok());
    assert!(rt; whole.calls == 1 && whole.asked == 3);
}
