//! What a tooth-gap downlink is set up with.
ghost use Rattle.std.specs.Prelude.{◌≡◌, None, Some, IfOk, IfErr, OnOk};
ghost use Rattle.psi5_downlink.specs.Setup.{fault_of, InRange};

use crate::down::Form;
use line_base::SetupFault;
use std::marker::Model;

/// What a tooth-gap downlink is set up with. Contracts see the period, the form and the jitter.
#[derive(Clone, Copy, Debug, PartialEq, Eq)]
pub struct ToothSetup {
    period: u32,
    form: Form,
    jitter: u32,
}

impl Model for ToothSetup {
    ghost use Rattle.psi5_downlink.specs.Setup.{Settings, InRange};

    ghost Value = { Settings };

    ghost view = { λ s. record { period = s.period; form = s.form; jitter = s.jitter } };

    ghost invariant = { λ s. InRange s.period s.jitter };

    ghost inverse = { λ v. record { period = v.period; form = v.form; jitter = v.jitter } };
}

impl ToothSetup {
    /// A setup of these values: the nominal sync period in ns, 10,000 to 10,000,000; the form of the frames; the
    /// jitter of an edge in ns, 1 to a sixteenth of the period. Else the first value that is outside: `Period`,
    /// then `Jitter`.
    pub fn new(period: u32, form: Form, jitter: u32) -> Result<ToothSetup, SetupFault>
        ensures accepted { OnOk result (fault_of period jitter ≡ None) }
        ensures values { IfOk result (λ setup. setup ≡ record { period = period; form = form; jitter = jitter }) }
        ensures first_fault { IfErr result (λ fault. fault_of period jitter ≡ Some fault) }
    {
        if period < 10_000 || period > 10_000_000 {
            return Err(SetupFault::Period);
        }
        if jitter < 1 || 16 * u64::from(jitter) > u64::from(period) {
            return Err(SetupFault::Jitter);
        }
        Ok(ToothSetup {
            period,
            form,
            jitter,
        })
    }

    /// The nominal sync period in ns, 10,000 to 10,000,000.
    pub fn period(&self) -> u32
        ensures value { result ≡ self.now.period }
        ensures range { InRange self.now.period self.now.jitter }
    {
        self.period
    }

    /// The form of the frames.
    pub fn form(&self) -> Form
        ensures value { result ≡ self.now.form }
        ensures range { InRange self.now.period self.now.jitter }
    {
        self.form
    }

    /// The jitter of an edge in ns, 1 to a sixteenth of the period.
    pub fn jitter(&self) -> u32
        ensures value { result ≡ self.now.jitter }
        ensures range { InRange self.now.period self.now.jitter }
    {
        self.jitter
    }
}
