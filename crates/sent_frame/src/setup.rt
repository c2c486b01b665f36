//! What a SENT channel is set up with.
ghost use Rattle.std.specs.Prelude.{◌≡◌, None, Some, IfOk, IfErr, OnOk};
ghost use Rattle.sent_frame.specs.Setup.{fault_of, InRange};

use line_base::SetupFault;
use std::marker::Model;

/// Which form of the CRC-4 a sensor sends (SAE J2716).
#[derive(Clone, Copy, Debug, PartialEq, Eq)]
pub enum CrcForm {
    /// The recommended form.
    New,
    /// The legacy form.
    Legacy,
}

/// What a SENT channel is set up with. Contracts see the tick, the jitter, the number of nibbles, whether
/// there is a pause, and the form of the CRC.
#[derive(Clone, Copy, Debug, PartialEq, Eq)]
pub struct SentSetup {
    tick: u32,
    jitter: u32,
    nibbles: u8,
    pause: bool,
    crc: CrcForm,
}

impl Model for SentSetup {
    ghost use Rattle.sent_frame.specs.Setup.{Settings, InRange};

    ghost Value = { Settings };

    ghost view = { λ s. record { tick = s.tick; jitter = s.jitter; nibbles = s.nibbles; pause = s.pause; crc = s.crc } };

    ghost invariant = { λ s. InRange s.tick s.jitter s.nibbles };

    ghost inverse = { λ v. record { tick = v.tick; jitter = v.jitter; nibbles = v.nibbles; pause = v.pause; crc = v.crc } };
}

impl SentSetup {
    /// A setup of these values: the nominal tick in ns, 3,000 to 90,000; the jitter of an edge in ns, 1 to
    /// a tenth of the tick; the number of data nibbles, 1 to 6; whether a pause pulse follows each frame;
    /// the form of the CRC. Else the first value that is outside.
    pub fn new(
        tick: u32,
        jitter: u32,
        nibbles: u8,
        pause: bool,
        crc: CrcForm,
    ) -> Result<SentSetup, SetupFault>
        ensures accepted { OnOk result (fault_of tick jitter nibbles ≡ None) }
        ensures values { IfOk result (λ setup. setup ≡ record { tick = tick; jitter = jitter; nibbles = nibbles; pause = pause; crc = crc }) }
        ensures first_fault { IfErr result (λ fault. fault_of tick jitter nibbles ≡ Some fault) }
    {
        if tick < 3_000 || tick > 90_000 {
            return Err(SetupFault::Tick);
        }
        if jitter < 1 || 10 * u64::from(jitter) > u64::from(tick) {
            return Err(SetupFault::Jitter);
        }
        if nibbles < 1 || nibbles > 6 {
            return Err(SetupFault::Nibbles);
        }
        Ok(SentSetup {
            tick,
            jitter,
            nibbles,
            pause,
            crc,
        })
    }

    /// The nominal tick in ns, 3,000 to 90,000.
    pub fn tick(&self) -> u32
        ensures value { result ≡ self.now.tick }
        ensures range { InRange self.now.tick self.now.jitter self.now.nibbles }
    {
        self.tick
    }

    /// The jitter of an edge in ns, 1 to a tenth of the tick.
    pub fn jitter(&self) -> u32
        ensures value { result ≡ self.now.jitter }
        ensures range { InRange self.now.tick self.now.jitter self.now.nibbles }
    {
        self.jitter
    }

    /// The number of data nibbles, 1 to 6.
    pub fn nibbles(&self) -> u8
        ensures value { result ≡ self.now.nibbles }
        ensures range { InRange self.now.tick self.now.jitter self.now.nibbles }
    {
        self.nibbles
    }

    /// Whether a pause pulse follows each frame.
    pub fn pause(&self) -> bool
        ensures { result ≡ self.now.pause }
    {
        self.pause
    }

    /// The form of the CRC.
    pub fn crc(&self) -> CrcForm
        ensures value { result ≡ self.now.crc }
        ensures range { InRange self.now.tick self.now.jitter self.now.nibbles }
    {
        self.crc
    }
}
