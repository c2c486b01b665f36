//! The file of a lane as a sink, which is made once there is something to write.
ghost use Rattle.std.specs.Prelude.{◌≡◌, ◌<◌, None, Option, List, ℕ};
ghost use Rattle.line_base.specs.Adapters.{lane_faults, lane_number};
ghost use Rattle.line_base.specs.Causes.{Counts, HasCause};
ghost use Rattle.line_base.specs.Streams.{PutAppends};

use crate::std_streams::write_each;
use crate::{Failed, Sink};
use std::rt::Files;
use std::{fs, str};

/// The file `lane-NN.txt` of the current folder as a sink, NN being the lane's number in two decimal digits. It is
/// created, or emptied, at the first put. It tells no content.
#[derive(Drop)]
pub struct LazyFileSink<R: Files + Drop> {
    rt: R,
    number: u8,
    file: Option<R::File>,
    faults: u64,
}

impl<R: Files + Drop> LazyFileSink<R> {
    /// The sink of the lane with this number, 0 to 99, which has no file yet.
    pub fn new(rt: R, number: u8) -> LazyFileSink<R>
        requires { number < 100 }
        ensures number { lane_number result ≡ number }
        ensures faults { lane_faults result ≡ 0 }
    {
        LazyFileSink {
            rt,
            number,
            file: None,
            faults: 0,
        }
    }

    /// Creates the file where it isn't there yet, and writes all bytes to it.
    fn write(&mut self, bytes: &[u8]) -> Result<(), Failed>
        ensures { lane_faults self.new ≡ lane_faults self.old }
    {
        if self.file.is_none() {
            let tens = b'0' + self.number / 10 % 10;
            let ones = b'0' + self.number % 10;
            let name = [
                b'l', b'a', b'n', b'e', b'-', tens, ones, b'.', b't', b'x', b't',
            ];
            let Ok(path) = str::from_utf8(&name) else {
                return Err(Failed);
            };
            match fs::create(&self.rt, path) {
                Ok(file) => self.file = Some(file),
                Err(_) => return Err(Failed),
            }
        }
        match &mut self.file {
            Some(file) => write_each(file, bytes),
            None => Err(Failed),
        }
    }
}

impl<R: Files + Drop> Sink for LazyFileSink<R> {
    ghost got = { λ s. None };

    ghost faults = { lane_faults };

    /// Writes until all bytes are taken, or to the first fault, which alone is counted. A file that can't be created
    /// is a fault.
    fn put(&mut self, bytes: &[u8]) -> Result<(), Failed>
        ensures bytes { PutAppends None None result bytes.now }
        ensures cause { HasCause (lane_faults self.old) (lane_faults self.new) result }
        ensures faults { Counts (lane_faults self.old) (lane_faults self.new) result }
    {
        let result = self.write(bytes);
        if result.is_err() {
            self.faults = self.faults.saturating_add(1);
        }
        result
    }
}
