//! A receiver and its sensor on an SPC line, which send what they are told (the frame of an answer: SAE J2716; the
//! rest is this project's own).
ghost use Rattle.std.specs.Prelude.{◌≡◌, ◌+◌, ◌*◌, ◌^◌, ◌≤◌, All, true, length};
ghost use Rattle.spc_tolerance.specs.Trains.{Transaction};
ghost use Rattle.sim_base.specs.Outcomes.{outcome_of};
ghost use Rattle.spc_sim.specs.SpcSims.{IsOfTimes, answer_next, edges_sent, fits_answer, fits_code, silent_next, spc_next, started};
ghost use Rattle.spc_sim.specs.SpcStates.{MayFall, first_trigger, trigger_at};

use crate::spc_answers::{draw_answer, draw_trigger};
use arrayvec::ArrayVec;
use line_base::Edge;
use receiver_core::Message;
use sent_frame::SentFrame;
use sim_base::{
    LOW_TICKS, MAX_EDGES, MAX_IDEAL, Pulses, SimFault, Wobble, fits_nibbles, opening, push_edges,
    record,
};
use spc_link::SpcSetup;
use std::marker::Model;

/// Triggers and answers of SPC. Contracts see the line, the setup and when the next trigger falls.
#[derive(Drop)]
pub struct SpcSim {
    /// The line, 0 to 15.
    line: u8,
    /// The triggers and the answers.
    setup: SpcSetup,
    /// When the next trigger falls, in ps, where one was sent before.
    next: Option<u64>,
}

impl Model for SpcSim {
    ghost use Rattle.spc_sim.specs.SpcStates.{MayFall, SpcState};

    ghost Value = { SpcState };

    ghost view = { λ s. record { line = s.line; setup = s.setup; next = s.next } };

    ghost invariant = { λ s. MayFall s.setup s.next };
}

/// Whether a code is the number of a window.
fn fits_code(setup: &SpcSetup, code: u8) -> bool
    ensures { result ≡ fits_code setup.now code }
{
    usize::from(code) < setup.windows().len()
}

/// Whether an answer's code is the number of a window, and its frame has the setup's number of nibbles and a status
/// of 4 bits.
fn fits_answer(setup: &SpcSetup, code: u8, frame: &SentFrame) -> bool
    ensures { result ≡ fits_answer setup.now code frame.now }
{
    fits_code(setup, code) && fits_nibbles(&setup.sent(), frame) && frame.status < 16
}

/// When the next trigger falls, in ps: behind the one before, or the first of all.
fn trigger_at(setup: &SpcSetup, next: Option<u64>) -> u64
    requires { MayFall setup.now next }
    ensures value { result ≡ trigger_at setup.now next }
    ensures in_time { result ≤ 10 ^ 18 }
    ensures late { first_trigger setup.now ≤ result }
    ensures room { 1000 * setup.now.sent.jitter ≤ result }
{
    match next {
        Some(next) => next,
        None => {
            let tick = u64::from(setup.sent().tick());
            let jitter = u64::from(setup.sent().jitter());
            100 * tick * u64::from(setup.quiet()) + 1_000 * tick + 2_000 * jitter
        }
    }
}

/// When the trigger behind a transaction falls, in ps, whose last edge is ideal at this time, up to 9 * 10^17, and
/// behind which the quiet time begins so many nominal ticks later, up to 5.
fn next_trigger(setup: &SpcSetup, last: u64, rest: u64) -> u64
    requires last { last ≤ 9 * 10 ^ 17 }
    requires rest { rest ≤ 5 }
    ensures value { result ≡ last + 1000 * rest * setup.now.sent.tick + 100 * setup.now.sent.tick * setup.now.quiet + 2000 * setup.now.sent.jitter }
    ensures in_time { result ≤ 10 ^ 18 }
    ensures behind { last ≤ result }
{
    let tick = u64::from(setup.sent().tick());
    let jitter = u64::from(setup.sent().jitter());
    last + 1_000 * rest * tick + 100 * tick * u64::from(setup.quiet()) + 2_000 * jitter
}

impl SpcSim {
    /// Triggers and answers of this setup on this line, of which none was sent.
    pub fn new(line: u8, setup: SpcSetup) -> SpcSim
        ensures { result ≡ started line setup }
    {
        SpcSim {
            line,
            setup,
            next: None,
        }
    }

    /// Sends a message, or says why it can't. After a fault the simulator is as it was.
    pub fn next(
        &mut self,
        message: &Message,
        wobble: &mut Wobble,
    ) -> Result<ArrayVec<Edge, MAX_EDGES>, SimFault>
        ensures { outcome_of result self.new wobble.new ≡ spc_next self.old message.now wobble.old }
    {
        match message {
            Message::Answer { code, frame } => {
                if !fits_answer(&self.setup, *code, frame) {
                    return Err(SimFault::Range);
                }
                self.answer(*code, frame, wobble)
            }
            Message::Silent { code } => {
                if !fits_code(&self.setup, *code) {
                    return Err(SimFault::Range);
                }
                self.silent(*code, wobble)
            }
            _ => Err(SimFault::Kind),
        }
    }

    /// Sends a trigger that is answered.
    fn answer(
        &mut self,
        code: u8,
        frame: &SentFrame,
        wobble: &mut Wobble,
    ) -> Result<ArrayVec<Edge, MAX_EDGES>, SimFault>
        requires { fits_answer self.old.setup code frame.now ≡ true }
        ensures { outcome_of result self.new wobble.new ≡ answer_next self.old code frame.now wobble.old }
    {
        let fall = trigger_at(&self.setup, self.next);
        let trigger = draw_trigger(&self.setup, fall, code, wobble);
        let answer = draw_answer(&self.setup, trigger.rise, frame, trigger.tick, wobble);
        self.send(
            fall,
            trigger.rise,
            answer.falls.as_slice(),
            answer.last,
            5,
            wobble,
        )
    }

    /// Sends a trigger that nobody answers.
    fn silent(
        &mut self,
        code: u8,
        wobble: &mut Wobble,
    ) -> Result<ArrayVec<Edge, MAX_EDGES>, SimFault>
        requires { fits_code self.old.setup code ≡ true }
        ensures { outcome_of result self.new wobble.new ≡ silent_next self.old code wobble.old }
    {
        let fall = trigger_at(&self.setup, self.next);
        let trigger = draw_trigger(&self.setup, fall, code, wobble);
        self.send(fall, trigger.rise, &[], trigger.rise, 1, wobble)
    }

    /// Sends a trigger with these edges, and an answer with these falls, all in ps; the last edge is ideal at this
    /// time, and the quiet time begins so many nominal ticks behind it.
    fn send(
        &mut self,
        fall: u64,
        rise: u64,
        falls: &[u64],
        last: u64,
        rest: u64,
        wobble: &mut Wobble,
    ) -> Result<ArrayVec<Edge, MAX_EDGES>, SimFault>
        requires few { length falls.now ≤ 10 }
        requires rest { rest ≤ 5 }
        requires late { first_trigger self.old.setup ≤ fall }
        requires trigger { fall ≤ rise }
        requires behind { rise ≤ last }
        requires falls { All (λ time. (rise ≤ time) × (time ≤ last)) falls.now }
        ensures { (transaction : Transaction) → IsOfTimes self.old.setup transaction fall rise falls.now last rest
            → outcome_of result self.new wobble.new ≡ edges_sent self.old transaction wobble.old }
    {
        if last > MAX_IDEAL {
            return Err(SimFault::Late);
        }
        let line = self.line;
        let pulses = Pulses {
            line,
            level: false,
            width: LOW_TICKS * u64::from(self.setup.sent().tick()),
        };
        let jitter = self.setup.sent().jitter();
        let mut edges = opening(line, true, self.next);
        edges.push(Edge {
            line,
            time: record(fall, jitter, wobble),
            level: false,
        });
        edges.push(Edge {
            line,
            time: record(rise, jitter, wobble),
            level: true,
        });
        push_edges(&mut edges, &pulses, jitter, falls, wobble);
        self.next = Some(next_trigger(&self.setup, last, rest));
        Ok(edges)
    }
}
