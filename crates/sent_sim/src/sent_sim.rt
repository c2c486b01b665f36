//! A SENT sensor that sends what it is told (frames and serial messages: SAE J2716; the rest is this project's
//! own).
ghost use Rattle.std.specs.Prelude.{◌≡◌, ◌≤◌, ◌<◌, true, drop, length};
ghost use Rattle.rand_pcg.specs.Lcg.{Lcg};
ghost use Rattle.sim_base.specs.Outcomes.{outcome_of};
ghost use Rattle.sim_base.specs.FittingNibbles.{fits_nibbles};
ghost use Rattle.sent_sim.specs.SentSims.{are_enhanced, are_short, begun, completed, fits_enhanced, fits_frame, fits_short, frame_next, sent_next, started, statuses_below};
ghost use Rattle.sent_sim.specs.SentStates.{MayBeLeft};

use crate::sent_frames::draw_frame;
use arrayvec::ArrayVec;
use line_base::Edge;
use receiver_core::{Message, Serial};
use sent_frame::{SentFrame, SentSetup};
use sent_serial::{enhanced_bits, short_bits};
use sim_base::{
    LOW_TICKS, MAX_EDGES, MAX_IDEAL, Pulses, SimFault, Wobble, fits_nibbles, opening, push_edges,
};
use std::marker::Model;

/// A SENT sensor. Contracts see its setup, when its last fall was ideal, the tick of its last frame and the
/// statuses of a serial message that are left to send.
#[derive(Drop)]
pub struct SentSim {
    /// The line, 0 to 15.
    line: u8,
    /// The frames.
    setup: SentSetup,
    /// Which serial messages their status nibbles carry.
    serial: Serial,
    /// When the last fall was ideal, in ps, if there was one.
    last: Option<u64>,
    /// The tick of the last frame in ps, at first the nominal one.
    tick: u64,
    /// The statuses of a serial message that are left to send.
    left: ArrayVec<u8, 18>,
}

impl Model for SentSim {
    ghost use Rattle.sent_sim.specs.SentStates.{IsSentState, SentState};

    ghost Value = { SentState };

    ghost view = { λ s. record { line = s.line; setup = s.setup; serial = s.serial; last = s.last; tick = s.tick; left = s.left.items } };

    ghost invariant = { λ s. IsSentState s.setup.tick s.serial s.last s.tick s.left.items };
}

/// Whether the serial messages are short.
fn are_short(serial: Serial) -> bool
    ensures { result ≡ are_short serial }
{
    match serial {
        Serial::Short => true,
        Serial::Absent | Serial::Enhanced => false,
    }
}

/// Whether the serial messages are enhanced.
fn are_enhanced(serial: Serial) -> bool
    ensures { result ≡ are_enhanced serial }
{
    match serial {
        Serial::Enhanced => true,
        Serial::Absent | Serial::Short => false,
    }
}

/// Whether an enhanced message has room for this ID and this value.
fn fits_enhanced(id: u8, value: u16, wide: bool) -> bool
    ensures { result ≡ fits_enhanced id value wide }
{
    if wide { id < 16 } else { value < 4_096 }
}

/// How many statuses there are: those of 4 bits, with serial messages those of 2.
fn statuses_below(serial: Serial) -> u8
    ensures { result ≡ statuses_below serial }
{
    match serial {
        Serial::Absent => 16,
        Serial::Short | Serial::Enhanced => 4,
    }
}

/// Whether a frame has the setup's number of nibbles and a status that fits.
fn fits_frame(setup: &SentSetup, serial: Serial, frame: &SentFrame) -> bool
    ensures { result ≡ fits_frame setup.now serial frame.now }
{
    fits_nibbles(setup, frame) && frame.status < statuses_below(serial)
}

/// Whether a short message has room for this ID; it has for any value.
fn fits_short(id: u8, value: u8) -> bool
    ensures { result ≡ fits_short id value }
{
    let _value = value;
    id < 16
}

/// Drops the first status, if there is one.
fn drop_first(statuses: &mut ArrayVec<u8, 18>)
    ensures { statuses.new.items ≡ drop 1 statuses.old.items }
{
    if !statuses.is_empty() {
        statuses.remove(0);
    }
}

impl SentSim {
    /// A sensor of this setup on this line, with these serial messages, that has sent nothing.
    pub fn new(line: u8, setup: SentSetup, serial: Serial) -> SentSim
        ensures { result ≡ started line setup serial }
    {
        SentSim {
            line,
            setup,
            serial,
            last: None,
            tick: 1_000 * u64::from(setup.tick()),
            left: ArrayVec::new(),
        }
    }

    /// Sends a message, or says why it can't. After a fault the sensor is as it was.
    pub fn next(
        &mut self,
        message: &Message,
        wobble: &mut Wobble,
    ) -> Result<ArrayVec<Edge, MAX_EDGES>, SimFault>
        ensures { outcome_of result self.new wobble.new ≡ sent_next self.old message.now wobble.old }
    {
        match message {
            Message::Frame(frame) => {
                if !fits_frame(&self.setup, self.serial, frame) {
                    return Err(SimFault::Range);
                }
                self.send(frame, wobble)
            }
            Message::Short { id, value } => {
                if !are_short(self.serial) {
                    return Err(SimFault::Kind);
                }
                if !fits_short(*id, *value) {
                    return Err(SimFault::Range);
                }
                self.begin(&short_bits(*id, *value))
            }
            Message::Enhanced { id, value, wide } => {
                if !are_enhanced(self.serial) {
                    return Err(SimFault::Kind);
                }
                if !fits_enhanced(*id, *value, *wide) {
                    return Err(SimFault::Range);
                }
                self.begin(&enhanced_bits(*id, *value, *wide))
            }
            _ => Err(SimFault::Kind),
        }
    }

    /// Begins a serial message of these statuses, unless another is on its way.
    fn begin(&mut self, statuses: &[u8]) -> Result<ArrayVec<Edge, MAX_EDGES>, SimFault>
        requires few { length statuses.now ≤ 18 }
        requires left { MayBeLeft self.old.serial statuses.now }
        ensures { (g : Lcg) → outcome_of result self.new g ≡ begun self.old statuses.now g }
    {
        if !self.left.is_empty() {
            return Err(SimFault::Order);
        }
        let _ = self.left.try_extend_from_slice(statuses);
        Ok(ArrayVec::new())
    }

    /// A frame that fits, with the bits in its status of the serial message that is on its way.
    fn completed(&self, frame: &SentFrame) -> SentFrame
        requires { fits_frame self.now.setup self.now.serial frame.now ≡ true }
        ensures value { result ≡ completed self.now.left frame.now }
        ensures as_many { length result.nibbles ≡ self.now.setup.nibbles }
        ensures status { result.status < 16 }
    {
        match self.left.as_slice().first() {
            None => *frame,
            Some(bits) => SentFrame {
                status: *bits + frame.status,
                nibbles: frame.nibbles,
            },
        }
    }

    /// Sends a frame that fits.
    fn send(
        &mut self,
        frame: &SentFrame,
        wobble: &mut Wobble,
    ) -> Result<ArrayVec<Edge, MAX_EDGES>, SimFault>
        requires { fits_frame self.old.setup self.old.serial frame.now ≡ true }
        ensures { outcome_of result self.new wobble.new ≡ frame_next self.old frame.now wobble.old }
    {
        let frame = self.completed(frame);
        let drawn = draw_frame(&self.setup, self.last, self.tick, &frame, wobble);
        if drawn.last > MAX_IDEAL {
            return Err(SimFault::Late);
        }
        let pulses = Pulses {
            line: self.line,
            level: false,
            width: LOW_TICKS * u64::from(self.setup.tick()),
        };
        let mut edges = opening(self.line, true, self.last);
        push_edges(
            &mut edges,
            &pulses,
            self.setup.jitter(),
            drawn.falls.as_slice(),
            wobble,
        );
        self.last = Some(drawn.last);
        self.tick = drawn.tick;
        drop_first(&mut self.left);
        Ok(edges)
    }
}
