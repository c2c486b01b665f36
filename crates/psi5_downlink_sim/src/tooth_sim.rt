//! A control unit that sends what it is told by the tooth gap (the method: PSI5 V2.1, base standard; the rest is this
//! project's own).
ghost use Rattle.psi5_downlink.specs.Frames.{wide};
ghost use Rattle.std.specs.Prelude.{◌≡◌, ◌^◌, true};
ghost use Rattle.sim_base.specs.Outcomes.{outcome_of};
ghost use Rattle.psi5_downlink_sim.specs.ToothSims.{down_next, fits_down, started, tooth_next};

use crate::tooth_rises::draw_message;
use arrayvec::ArrayVec;
use line_base::Edge;
use psi5_downlink::{Down, Form, ToothSetup};
use receiver_core::Message;
use sim_base::{MAX_EDGES, MAX_IDEAL, Pulses, SimFault, Wobble, opening, push_edges};
use std::marker::Model;

/// Which part of the nominal period a pulse lasts: a tenth.
const PULSE_PART: u64 = 10;

/// A control unit. Contracts see its line, its setup and when its last pulse was ideal.
#[derive(Drop)]
pub struct ToothSim {
    /// The sync line, 0 to 15.
    line: u8,
    /// The frames.
    setup: ToothSetup,
    /// When the last pulse was ideal, in ps, if there was one.
    last: Option<u64>,
}

impl Model for ToothSim {
    ghost use Rattle.psi5_downlink_sim.specs.ToothStates.{IsPulseInTime, ToothState};

    ghost Value = { ToothState };

    ghost view = { λ s. record { line = s.line; setup = s.setup; last = s.last } };

    ghost invariant = { λ s. IsPulseInTime s.setup.period s.last };
}

/// How many values a register has in this form, and a value too.
fn values_below(form: Form) -> u16
    ensures { result ≡ 2 ^ wide form }
{
    match form {
        Form::Short => 1,
        Form::Long => 64,
        Form::XLong => 512,
    }
}

/// Whether the values of a frame fit the widths of their fields.
fn fits_down(form: Form, down: &Down) -> bool
    ensures { result ≡ fits_down form down.now }
{
    let below = values_below(form);
    down.address < 8 && (down.function < 8 && (down.register < below && down.value < below))
}

impl ToothSim {
    /// A control unit of this setup on this line that has sent nothing.
    pub fn new(line: u8, setup: ToothSetup) -> ToothSim
        ensures { result ≡ started line setup }
    {
        ToothSim {
            line,
            setup,
            last: None,
        }
    }

    /// Sends a message, or says why it can't: `Kind` where it is no downlink frame, then `Range` where a value doesn't
    /// fit the width of its field, and then `Late` where its last rise would be ideal above 9 * 10^17 ps. After a fault
    /// the control unit is as it was, and so is the wobble but after `Late`: the words for the period and the gap are
    /// drawn then.
    pub fn next(
        &mut self,
        message: &Message,
        wobble: &mut Wobble,
    ) -> Result<ArrayVec<Edge, MAX_EDGES>, SimFault>
        ensures { outcome_of result self.new wobble.new ≡ tooth_next self.old message.now wobble.old }
    {
        match message {
            Message::Down(down) => {
                if !fits_down(self.setup.form(), down) {
                    return Err(SimFault::Range);
                }
                self.send(down, wobble)
            }
            _ => Err(SimFault::Kind),
        }
    }

    /// Sends a message that fits.
    fn send(
        &mut self,
        down: &Down,
        wobble: &mut Wobble,
    ) -> Result<ArrayVec<Edge, MAX_EDGES>, SimFault>
        requires { fits_down self.old.setup.form down.now ≡ true }
        ensures { outcome_of result self.new wobble.new ≡ down_next self.old down.now wobble.old }
    {
        let drawn = draw_message(&self.setup, self.last, down, wobble);
        if drawn.last > MAX_IDEAL {
            return Err(SimFault::Late);
        }
        let pulses = Pulses {
            line: self.line,
            level: true,
            width: u64::from(self.setup.period()) / PULSE_PART,
        };
        let mut edges = opening(self.line, false, self.last);
        push_edges(
            &mut edges,
            &pulses,
            self.setup.jitter(),
            drawn.rises.as_slice(),
            wobble,
        );
        self.last = Some(drawn.last);
        Ok(edges)
    }
}
