//! What a PSI5 data line is set up with.
ghost use Rattle.std.specs.Prelude.{◌≡◌, ◌≤◌, None, Some, IfOk, IfErr, OnOk};
ghost use Rattle.psi5_frame.specs.Setup.{fault_of, InRange, bit_count, payload_width};

use line_base::SetupFault;
use std::marker::Model;

/// The widths of a payload's parts in bits, in the order in which they are sent (PSI5 V2.1).
#[derive(Clone, Copy, Debug, PartialEq, Eq)]
pub struct Parts {
    /// Messaging, 0 or 2.
    pub m: u8,
    /// Frame control, 0 to 4.
    pub f: u8,
    /// Status, 0 to 2.
    pub s: u8,
    /// Data B, 0 to 12.
    pub b: u8,
    /// Data A, 10 to 24.
    pub a: u8,
}

/// What a frame ends with (PSI5 V2.1).
#[derive(Clone, Copy, Debug, PartialEq, Eq)]
pub enum Check {
    /// One bit, which makes the number of ones in payload and check even.
    Parity,
    /// The three bits of a CRC, most significant first.
    Crc,
}

/// What a PSI5 data line is set up with. Contracts see the bit time, the parts, the check and the jitter.
#[derive(Clone, Copy, Debug, PartialEq, Eq)]
pub struct Psi5Setup {
    bit: u32,
    parts: Parts,
    check: Check,
    jitter: u32,
}

impl Model for Psi5Setup {
    ghost use Rattle.psi5_frame.specs.Setup.{Settings, InRange};

    ghost Value = { Settings };

    ghost view = { λ s. record { bit = s.bit; parts = s.parts; check = s.check; jitter = s.jitter } };

    ghost invariant = { λ s. InRange s.bit s.parts s.jitter };

    ghost inverse = { λ v. record { bit = v.bit; parts = v.parts; check = v.check; jitter = v.jitter } };
}

impl Psi5Setup {
    /// A setup of these values: the nominal bit time in ns, 8,000 or 5,300; the widths of the payload's
    /// parts, 10 to 28 bits in all; what a frame ends with; the jitter of an edge in ns, 1 to a sixteenth of
    /// the bit time. Else the first value that is outside: `Bit`, then `Parts`, then `Jitter`.
    pub fn new(bit: u32, parts: Parts, check: Check, jitter: u32) -> Result<Psi5Setup, SetupFault>
        ensures accepted { OnOk result (fault_of bit parts jitter ≡ None) }
        ensures values { IfOk result (λ setup. setup ≡ record { bit = bit; parts = parts; check = check; jitter = jitter }) }
        ensures first_fault { IfErr result (λ fault. fault_of bit parts jitter ≡ Some fault) }
    {
        if bit != 8_000 && bit != 5_300 {
            return Err(SetupFault::Bit);
        }
        let Parts { m, f, s, b, a } = parts;
        if m != 0 && m != 2 {
            return Err(SetupFault::Parts);
        }
        if f > 4 || s > 2 || b > 12 || a < 10 || a > 24 {
            return Err(SetupFault::Parts);
        }
        if m + f + s + b + a > 28 {
            return Err(SetupFault::Parts);
        }
        if jitter < 1 || 16 * u64::from(jitter) > u64::from(bit) {
            return Err(SetupFault::Jitter);
        }
        Ok(Psi5Setup {
            bit,
            parts,
            check,
            jitter,
        })
    }

    /// The nominal bit time in ns, 8,000 or 5,300.
    #[inline]
    pub fn bit(&self) -> u32
        ensures value { result ≡ self.now.bit }
        ensures range { InRange self.now.bit self.now.parts self.now.jitter }
    {
        self.bit
    }

    /// The widths of the payload's parts in bits.
    pub fn parts(&self) -> Parts
        ensures value { result ≡ self.now.parts }
        ensures range { InRange self.now.bit self.now.parts self.now.jitter }
    {
        self.parts
    }

    /// What a frame ends with.
    pub fn check(&self) -> Check
        ensures value { result ≡ self.now.check }
        ensures range { InRange self.now.bit self.now.parts self.now.jitter }
    {
        self.check
    }

    /// The jitter of an edge in ns, 1 to a sixteenth of the bit time.
    pub fn jitter(&self) -> u32
        ensures value { result ≡ self.now.jitter }
        ensures range { InRange self.now.bit self.now.parts self.now.jitter }
    {
        self.jitter
    }

    /// How many bits a payload has, 10 to 28.
    pub(crate) fn payload_width(&self) -> u8
        ensures value { result ≡ payload_width self.now.parts }
        ensures some { 10 ≤ result }
        ensures few { result ≤ 28 }
    {
        let Parts { m, f, s, b, a } = self.parts;
        m + f + s + b + a
    }

    /// How many bits a frame has, with start and check, 13 to 33.
    pub fn bit_count(&self) -> u8
        ensures value { result ≡ bit_count self.now }
        ensures some { 13 ≤ result }
        ensures few { result ≤ 33 }
    {
        let check = match self.check {
            Check::Parity => 1,
            Check::Crc => 3,
        };
        2 + self.payload_width() + check
    }
}
