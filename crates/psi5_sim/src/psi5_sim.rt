//! PSI5 sensors on a data line, and the control unit that they answer where there are slots, which send what they
//! are told (the frames and the slots: PSI5 V2.1, base standard; the rest is this project's own).
ghost use Rattle.std.specs.Prelude.{◌≡◌, ◌*◌, ◌^◌, ◌≤◌, true, Some};
ghost use Rattle.arrayvec.specs.ArrayVec.{array_vec_len};
ghost use Rattle.psi5_frame.specs.Frames.{Fits};
ghost use Rattle.psi5_tolerance.specs.Trains.{FrameAt, SyncAt};
ghost use Rattle.sim_base.specs.Outcomes.{outcome_of};
ghost use Rattle.receiver_core.specs.declared.setup.SyncSlots.{SyncSlots};
ghost use Rattle.sim_base.specs.Wobbles.{behind_word, word};
ghost use Rattle.psi5_sim.specs.Psi5Sims.{burst_next, edges_sent, fits_burst, fits_slot, is_in_order, openings, psi5_next, start_of, started, sync_next};

use crate::bursts::{
    draw_half, draw_rise, fits_parts, free_start, next_sync, push_alternating, times_of,
};
use arrayvec::ArrayVec;
use line_base::Edge;
use psi5_frame::{Payload, Psi5Setup};
use receiver_core::{Message, SyncSlots};
use sim_base::{MAX_EDGES, MAX_IDEAL, Pulses, SimFault, Wobble, opening, push_edges};
use std::marker::Model;

/// Sync pulses and bursts of PSI5. Contracts see the lines, the setup, the slots and what was sent before: the end
/// of the last frame, the last sync pulse, and the slot of the last frame behind it.
#[derive(Drop)]
pub struct Psi5Sim {
    /// The data line, 0 to 15.
    line: u8,
    /// The frames.
    setup: Psi5Setup,
    /// The sync line and the slots, where there are any.
    slots: Option<SyncSlots>,
    /// The end of the last frame in ps, where one was sent.
    frame_end: Option<u64>,
    /// The rise of the last sync pulse in ps, where one was sent.
    sync: Option<u64>,
    /// The slot of the last frame behind that sync pulse, where one was sent.
    slot: Option<u8>,
}

impl Model for Psi5Sim {
    ghost use Rattle.psi5_sim.specs.Psi5States.{IsEarly, Psi5State};

    ghost Value = { Psi5State };

    ghost view = { λ s. record { line = s.line; setup = s.setup; slots = s.slots; before = record { frame_end = s.frame_end; sync = s.sync; slot = s.slot } } };

    ghost invariant = { λ s. IsEarly (record { frame_end = s.frame_end; sync = s.sync; slot = s.slot }) };
}

/// Whether a burst has a slot where there are slots, the number of one of their windows, and else none.
fn fits_slot(slots: &Option<SyncSlots>, slot: Option<u8>) -> bool
    ensures { result ≡ fits_slot slots.now slot }
{
    match slots {
        None => slot.is_none(),
        Some(slots) => match slot {
            None => false,
            Some(slot) => usize::from(slot) < slots.setup.windows().len(),
        },
    }
}

/// Whether a burst's values fit the widths of their parts, and its slot fits too.
fn fits_burst(
    setup: &Psi5Setup,
    slots: &Option<SyncSlots>,
    slot: Option<u8>,
    payload: &Payload,
) -> bool
    ensures { result ≡ fits_burst setup.now slots.now slot payload.now }
{
    fits_parts(setup.parts(), payload) && fits_slot(slots, slot)
}

/// The openings of the lines, where no frame has ended on the line, or no sync pulse was sent where there are two.
fn openings(
    line: u8,
    slots: &Option<SyncSlots>,
    frame_end: Option<u64>,
    sync: Option<u64>,
) -> ArrayVec<Edge, MAX_EDGES>
    ensures edges { result.items ≡ openings line slots.now frame_end sync }
    ensures few { array_vec_len result ≤ 2 }
{
    match slots {
        None => opening(line, false, frame_end),
        Some(slots) => {
            let mut edges = opening(line.min(slots.line), false, sync);
            if sync.is_none() {
                edges.push(Edge {
                    line: line.max(slots.line),
                    time: 0,
                    level: false,
                });
            }
            edges
        }
    }
}

impl Psi5Sim {
    /// Bursts of this setup on this data line, in these slots where there are any, of which none was sent.
    pub fn new(line: u8, setup: Psi5Setup, slots: Option<SyncSlots>) -> Psi5Sim
        ensures { result ≡ started line setup slots }
    {
        Psi5Sim {
            line,
            setup,
            slots,
            frame_end: None,
            sync: None,
            slot: None,
        }
    }

    /// Sends a message, or says why it can't: `Kind` where it is neither a burst nor, where there are slots, a sync
    /// pulse; then `Range` where a value doesn't fit the width of its part, or the slot isn't the number of a window,
    /// missing with slots or there without; then `Order` where a burst comes before the first sync pulse, or in no
    /// later slot than the burst before behind the last one; then `Late` where its last timed edge would be above
    /// 9 * 10^17 ps. After a fault the simulator is as it was, and so is the wobble but after `Late` of a burst,
    /// whose two words for the half-bit and the start are drawn.
    pub fn next(
        &mut self,
        message: &Message,
        wobble: &mut Wobble,
    ) -> Result<ArrayVec<Edge, MAX_EDGES>, SimFault>
        ensures { outcome_of result self.new wobble.new ≡ psi5_next self.old message.now wobble.old }
    {
        match message {
            Message::Sync => self.sync_pulse(wobble),
            Message::Burst { slot, payload } => self.burst(*slot, payload, wobble),
            _ => Err(SimFault::Kind),
        }
    }

    /// Sends a sync pulse, where there are slots.
    fn sync_pulse(&mut self, wobble: &mut Wobble) -> Result<ArrayVec<Edge, MAX_EDGES>, SimFault>
        ensures { outcome_of result self.new wobble.new ≡ sync_next self.old self.old.slots wobble.old }
    {
        let (line, rise) = match &self.slots {
            None => return Err(SimFault::Kind),
            Some(slots) => (slots.line, next_sync(&self.setup, slots, self.sync)),
        };
        self.send_sync(line, rise, wobble)
    }

    /// Sends a burst, if it fits and comes in order.
    fn burst(
        &mut self,
        slot: Option<u8>,
        payload: &Payload,
        wobble: &mut Wobble,
    ) -> Result<ArrayVec<Edge, MAX_EDGES>, SimFault>
        ensures { outcome_of result self.new wobble.new ≡ burst_next self.old slot payload.now wobble.old }
    {
        if !fits_burst(&self.setup, &self.slots, slot, payload) {
            return Err(SimFault::Range);
        }
        if !self.is_in_order(slot) {
            return Err(SimFault::Order);
        }
        let half = draw_half(&self.setup, wobble);
        let start = self.start(slot, half, wobble);
        self.send_burst(slot, payload, start, half, wobble)
    }

    /// Whether a burst with a slot comes behind a sync pulse, in a later slot than the burst before since then.
    fn is_in_order(&self, slot: Option<u8>) -> bool
        ensures { result ≡ is_in_order self.now.before slot }
    {
        let Some(slot) = slot else {
            return true;
        };
        match self.slot {
            None => self.sync.is_some(),
            Some(last) => self.sync.is_some() && last < slot,
        }
    }

    /// The start of a burst in ps, in its slot where there are slots, with a half-bit of this length.
    fn start(&self, slot: Option<u8>, half: u64, wobble: &mut Wobble) -> u64
        requires fits { fits_slot self.now.slots slot ≡ true }
        requires half { half ≤ 4200000 }
        ensures value { result ≡ start_of self.now.setup self.now.slots self.now.before slot half (word wobble.old) }
        ensures next { wobble.new ≡ behind_word wobble.old }
        ensures room { 1000 * self.now.setup.jitter ≤ result }
        ensures most { result ≤ 2 * 10 ^ 18 }
    {
        match &self.slots {
            None => free_start(&self.setup, self.frame_end, wobble),
            Some(slots) => {
                let slot = slot.unwrap_or(0);
                let sync = self.sync.unwrap_or(0);
                draw_rise(&self.setup, &slots.setup, slot, sync, wobble) - half
            }
        }
    }

    /// Sends a sync pulse on this line with this rise in ps.
    fn send_sync(
        &mut self,
        line: u8,
        rise: u64,
        wobble: &mut Wobble,
    ) -> Result<ArrayVec<Edge, MAX_EDGES>, SimFault>
        requires room { 1000 * self.old.setup.jitter ≤ rise }
        ensures { (slots : SyncSlots) → self.old.slots ≡ Some slots → slots.line ≡ line → outcome_of result self.new wobble.new ≡ edges_sent self.old (SyncAt rise) wobble.old }
    {
        if rise > MAX_IDEAL {
            return Err(SimFault::Late);
        }
        let pulses = Pulses {
            line,
            level: true,
            width: 2 * u64::from(self.setup.bit()),
        };
        let mut edges = openings(self.line, &self.slots, self.frame_end, self.sync);
        push_edges(&mut edges, &pulses, self.setup.jitter(), &[rise], wobble);
        self.sync = Some(rise);
        self.slot = None;
        Ok(edges)
    }

    /// Sends a burst that starts at this time, with half-bits of this length, both in ps.
    fn send_burst(
        &mut self,
        slot: Option<u8>,
        payload: &Payload,
        start: u64,
        half: u64,
        wobble: &mut Wobble,
    ) -> Result<ArrayVec<Edge, MAX_EDGES>, SimFault>
        requires fits { Fits self.old.setup.parts payload.now }
        requires half { half ≤ 4200000 }
        requires room { 1000 * self.old.setup.jitter ≤ start }
        requires start { start ≤ 2 * 10 ^ 18 }
        ensures { outcome_of result self.new wobble.new ≡ edges_sent self.old (FrameAt (record { slot = slot; payload = payload.now; start = start; half = half })) wobble.old }
    {
        let burst = times_of(&self.setup, payload, start, half);
        if burst.last > MAX_IDEAL {
            return Err(SimFault::Late);
        }
        let mut edges = openings(self.line, &self.slots, self.frame_end, self.sync);
        push_alternating(
            &mut edges,
            self.line,
            self.setup.jitter(),
            burst.times.as_slice(),
            wobble,
        );
        self.frame_end = Some(start + 2 * u64::from(self.setup.bit_count()) * half);
        self.slot = slot;
        Ok(edges)
    }
}
