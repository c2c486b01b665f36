//! A script of messages for a channel.
ghost use Rattle.std.specs.Prelude.{◌≡◌, ◌≤◌, ◌<◌, IfSome, None, Some, if◌then◌else◌};
ghost use Rattle.rand_core.specs.Pcg32Seed.{pcg32_seed};
ghost use Rattle.rand_pcg.specs.Pcg.{pcg32_of_seed};
ghost use Rattle.receiver_core.specs.Setups.{setup_fault_of};
ghost use Rattle.sim_base.specs.Wobbles.{past};
ghost use Rattle.sensor_script.specs.Draws.{behind_value, init_code};
ghost use Rattle.psi5_downlink.specs.Frames.{wide};
ghost use Rattle.sensor_script.specs.Scripts.{behind_a, behind_b, behind_burst, behind_down, data_a, down_drawn, drawn_count, enhanced_next, frame_next, frame_nibbles, has_code, payload_next, psi5_next, script_from, script_next, sent_next, short_next, slot_next, spc_next, tooth_next};

use crate::draws::{as_nibbles, draw, draw_byte, draw_nibbles, draw_short, draw_signal, init_code};
use line_base::Nibbles;
use psi5_downlink::{Down, Form, ToothSetup};
use psi5_frame::{Payload, Psi5Setup};
use receiver_core::{ChannelSetup, Message, Serial, SyncSlots};
use sent_fast::Layout;
use sent_frame::{SentFrame, SentSetup};
use sim_base::Wobble;
use spc_link::SpcSetup;
use std::marker::Model;

/// How many bursts are counted at most; an initialisation has fewer codes.
const MAX_PLACE: u32 = 1_000;

/// Messages for a channel. Contracts see the setup, the state of its wobble, how many frames of a serial message are
/// left, the counter of the next frame, the slot of the next burst, and how many bursts came before.
#[derive(Drop)]
pub struct Script {
    /// The channel.
    setup: ChannelSetup,
    /// The words of its messages.
    wobble: Wobble,
    /// How many frames of a serial message are left, 0 to 18.
    left: u8,
    /// The counter of the next frame.
    counter: u8,
    /// The slot of the next burst, 0 to 7, where no sync pulse comes before it.
    slot: Option<u8>,
    /// How many bursts came before in each slot, or in the channel, 0 to 1,000.
    place: u32,
}

impl Model for Script {
    ghost use Rattle.sensor_script.specs.Scripts.{IsKept, ScriptState};

    ghost Value = { ScriptState };

    ghost view = { λ s. record { setup = s.setup; wobble = s.wobble; left = s.left; counter = s.counter; slot = s.slot; place = s.place } };

    ghost invariant = { λ s. IsKept s.setup s.slot s.place };
}

// ---- SENT

/// How many nibbles of a frame are drawn, of so many.
fn drawn_count(layout: Layout, nibbles: u8) -> u8
    ensures { result ≡ drawn_count layout nibbles }
{
    match layout {
        Layout::Secure12 => 3,
        Layout::Raw | Layout::One12 | Layout::Two12 | Layout::Split16x8 => nibbles,
    }
}

/// The nibbles of a frame of this layout, 1 to 6 where it has so many of its own, with this counter.
#[tactic(auto, unfolding(crate::specs::Scripts::frame_nibbles))]
fn frame_nibbles(layout: Layout, count: u8, counter: u8, wobble: &mut Wobble) -> Nibbles
    requires some { 1 ≤ count }
    requires few { count ≤ 6 }
    ensures nibbles { result ≡ frame_nibbles layout count counter wobble.old }
    ensures next { wobble.new ≡ past (drawn_count layout count) wobble.old }
{
    match layout {
        Layout::Secure12 => {
            let mut nibbles = draw_nibbles(3, wobble);
            let first = nibbles.as_slice()[0];
            nibbles.push(counter / 16);
            nibbles.push(counter % 16);
            nibbles.push(15 - first);
            as_nibbles(nibbles.as_slice())
        }
        Layout::Raw | Layout::One12 | Layout::Two12 | Layout::Split16x8 => {
            as_nibbles(draw_nibbles(count, wobble).as_slice())
        }
    }
}

// ---- PSI5

/// Data A of so many bits, 10 to 24: where it has 10, the code of a signal.
#[tactic(auto, unfolding(crate::specs::Scripts::data_a, crate::specs::Draws::behind_value))]
fn draw_a(width: u8, wobble: &mut Wobble) -> u32
    requires { width ≤ 24 }
    ensures value { result ≡ data_a width wobble.old }
    ensures next { wobble.new ≡ behind_value width wobble.old }
{
    if width == 10 {
        draw_signal(wobble)
    } else {
        draw(width, wobble)
    }
}

/// Whether the initialisation, if there is one, has a code at this place.
fn has_code(init: Option<u8>, place: u32) -> bool
    ensures { result ≡ has_code init place }
{
    match init {
        None => false,
        Some(repeats) => u64::from(place) < 32 * u64::from(repeats) + 1,
    }
}

/// What a burst says in a slot, 0 to 7, in which so many came before; with an initialisation, if there is one, whose
/// blocks are each sent so many times.
#[tactic(auto, unfolding(crate::specs::Scripts::payload_next, crate::specs::Scripts::behind_a, crate::specs::Scripts::burst_a))]
fn draw_payload(
    setup: &Psi5Setup,
    init: Option<u8>,
    slot: u8,
    place: u32,
    wobble: &mut Wobble,
) -> Payload
    requires init { IfSome init (λ repeats. (1 ≤ repeats) × (repeats ≤ 16)) }
    requires slot { slot < 8 }
    ensures payload { result ≡ payload_next setup.now.parts init slot place wobble.old }
    ensures next { wobble.new ≡ behind_a setup.now.parts init place (behind_b setup.now.parts wobble.old) }
{
    let parts = setup.parts();
    let m = draw_byte(parts.m, wobble);
    let f = draw_byte(parts.f, wobble);
    let s = draw_byte(parts.s, wobble);
    let b = draw_short(parts.b, wobble);
    let a = match init {
        None => draw_a(parts.a, wobble),
        Some(repeats) => draw_code(parts.a, repeats, slot, place, wobble),
    };
    Payload { m, f, s, b, a }
}

/// Data A of so many bits of a burst in a slot in which so many came before, where the blocks of an initialisation are
/// each sent so many times.
fn draw_code(width: u8, repeats: u8, slot: u8, place: u32, wobble: &mut Wobble) -> u32
    requires width { width ≤ 24 }
    requires some { 1 ≤ repeats }
    requires few { repeats ≤ 16 }
    requires slot { slot < 8 }
    ensures value { result ≡ (if has_code (Some repeats) place then init_code repeats slot place else data_a width wobble.old) }
    ensures next { wobble.new ≡ (if has_code (Some repeats) place then wobble.old else behind_value width wobble.old) }
{
    if has_code(Some(repeats), place) {
        init_code(repeats, slot, place)
    } else {
        draw_a(width, wobble)
    }
}

// ---- tooth gap

/// How many bits a register has in this form, and a value too.
fn wide(form: Form) -> u8
    ensures value { result ≡ wide form }
    ensures few { result ≤ 9 }
{
    match form {
        Form::Short => 0,
        Form::Long => 6,
        Form::XLong => 9,
    }
}

/// A downlink frame of this form.
#[tactic(auto, unfolding(crate::specs::Scripts::down_drawn, crate::specs::Scripts::behind_down, crate::specs::Draws::behind_value))]
fn draw_down(form: Form, wobble: &mut Wobble) -> Down
    ensures down { result ≡ down_drawn form wobble.old }
    ensures next { wobble.new ≡ behind_down form wobble.old }
{
    let width = wide(form);
    let address = draw_byte(3, wobble);
    let function = draw_byte(3, wobble);
    let register = draw_short(width, wobble);
    let value = draw_short(width, wobble);
    Down {
        address,
        function,
        register,
        value,
    }
}

impl Script {
    /// A script for a channel of this setup, which has no fault, with the words of this number.
    pub fn new(seed: u64, setup: ChannelSetup) -> Script
        requires { setup_fault_of setup ≡ None }
        ensures { result ≡ script_from setup (pcg32_of_seed (pcg32_seed 16 seed)) }
    {
        Script {
            setup,
            wobble: Wobble::new(seed),
            left: 0,
            counter: 0,
            slot: None,
            place: 0,
        }
    }

    /// The next message: for SENT a frame, and before it a serial message where the channel has such and none has frames
    /// left; for SPC an answer; for PSI5 a burst, with slots a sync pulse and then a burst in each slot; for the tooth
    /// gap a downlink frame.
    #[tactic(auto, unfolding(crate::specs::Scripts::script_next))]
    pub fn next(&mut self) -> Message
        ensures message { result ≡ (script_next self.old).message }
        ensures script { self.new ≡ (script_next self.old).script }
    {
        let setup = self.setup;
        match setup {
            ChannelSetup::Sent {
                setup,
                layout,
                serial,
                ..
            } => self.sent(&setup, layout, serial),
            ChannelSetup::Psi5 {
                setup,
                slots,
                init,
                ..
            } => self.psi5(&setup, &slots, init),
            ChannelSetup::Spc { setup, .. } => self.spc(&setup),
            ChannelSetup::Tooth { setup, .. } => self.tooth(&setup),
        }
    }

    /// A frame, or a serial message where the channel has such and none has frames left.
    #[tactic(auto, unfolding(crate::specs::Scripts::sent_next))]
    fn sent(&mut self, setup: &SentSetup, layout: Layout, serial: Serial) -> Message
        ensures message { result ≡ (sent_next self.old setup.now layout serial).message }
        ensures script { self.new ≡ (sent_next self.old setup.now layout serial).script }
    {
        match serial {
            Serial::Absent => self.frame(setup, layout, 4),
            Serial::Short => {
                if self.left == 0 {
                    self.short()
                } else {
                    self.frame(setup, layout, 2)
                }
            }
            Serial::Enhanced => {
                if self.left == 0 {
                    self.enhanced()
                } else {
                    self.frame(setup, layout, 2)
                }
            }
        }
    }

    /// A short serial message.
    #[tactic(auto, unfolding(crate::specs::Scripts::short_next, crate::specs::Draws::behind_value))]
    fn short(&mut self) -> Message
        ensures message { result ≡ (short_next self.old).message }
        ensures script { self.new ≡ (short_next self.old).script }
    {
        let id = draw_byte(4, &mut self.wobble);
        let value = draw_byte(8, &mut self.wobble);
        self.left = 16;
        Message::Short { id, value }
    }

    /// An enhanced serial message.
    #[tactic(auto, unfolding(crate::specs::Scripts::enhanced_next, crate::specs::Draws::behind_value))]
    fn enhanced(&mut self) -> Message
        ensures message { result ≡ (enhanced_next self.old).message }
        ensures script { self.new ≡ (enhanced_next self.old).script }
    {
        let wide = draw_byte(1, &mut self.wobble) == 1;
        let id = draw_byte(if wide { 4 } else { 8 }, &mut self.wobble);
        let value = draw_short(if wide { 16 } else { 12 }, &mut self.wobble);
        self.left = 18;
        Message::Enhanced { id, value, wide }
    }

    /// A frame whose status has so many bits, 2 or 4.
    #[tactic(auto, unfolding(crate::specs::Scripts::frame_next, crate::specs::Draws::behind_value))]
    fn frame(&mut self, setup: &SentSetup, layout: Layout, width: u8) -> Message
        requires some { 1 ≤ width }
        requires few { width ≤ 4 }
        ensures message { result ≡ (frame_next self.old setup.now layout width).message }
        ensures script { self.new ≡ (frame_next self.old setup.now layout width).script }
    {
        let status = draw_byte(width, &mut self.wobble);
        let nibbles = frame_nibbles(layout, setup.nibbles(), self.counter, &mut self.wobble);
        self.left = self.left.saturating_sub(1);
        self.counter = self.counter.wrapping_add(1);
        Message::Frame(SentFrame { status, nibbles })
    }

    /// An answer.
    #[tactic(auto, unfolding(crate::specs::Scripts::spc_next, crate::specs::Draws::behind_value))]
    fn spc(&mut self, setup: &SpcSetup) -> Message
        ensures message { result ≡ (spc_next self.old setup.now).message }
        ensures script { self.new ≡ (spc_next self.old setup.now).script }
    {
        let code = self.wobble.pick(setup.windows().len() as u64) as u8;
        let status = draw_byte(4, &mut self.wobble);
        let nibbles = draw_nibbles(setup.sent().nibbles(), &mut self.wobble);
        Message::Answer {
            code,
            frame: SentFrame {
                status,
                nibbles: as_nibbles(nibbles.as_slice()),
            },
        }
    }

    /// A burst, or a sync pulse where there are slots and it is due.
    #[tactic(auto, unfolding(crate::specs::Scripts::psi5_next))]
    fn psi5(&mut self, setup: &Psi5Setup, slots: &Option<SyncSlots>, init: Option<u8>) -> Message
        requires { IfSome init (λ repeats. (1 ≤ repeats) × (repeats ≤ 16)) }
        ensures message { result ≡ (psi5_next self.old setup.now slots.now init).message }
        ensures script { self.new ≡ (psi5_next self.old setup.now slots.now init).script }
    {
        match slots {
            None => self.burst(setup, init),
            Some(slots) => {
                let count = slots.setup.windows().len();
                match self.slot {
                    None => {
                        self.slot = Some(0);
                        Message::Sync
                    }
                    Some(slot) => self.burst_in(setup, count, init, slot),
                }
            }
        }
    }

    /// A burst of a channel without slots.
    fn burst(&mut self, setup: &Psi5Setup, init: Option<u8>) -> Message
        requires { IfSome init (λ repeats. (1 ≤ repeats) × (repeats ≤ 16)) }
        ensures message { result ≡ (behind_burst self.old setup.now.parts init).message }
        ensures script { self.new ≡ (behind_burst self.old setup.now.parts init).script }
    {
        let payload = draw_payload(setup, init, 0, self.place, &mut self.wobble);
        self.place = (self.place + 1).min(MAX_PLACE);
        Message::Burst {
            slot: None,
            payload,
        }
    }

    /// A burst in this slot, of so many, up to 8.
    fn burst_in(&mut self, setup: &Psi5Setup, slots: usize, init: Option<u8>, slot: u8) -> Message
        requires init { IfSome init (λ repeats. (1 ≤ repeats) × (repeats ≤ 16)) }
        requires slots { slots ≤ 8 }
        requires slot { slot < 8 }
        ensures message { result ≡ (slot_next self.old setup.now.parts slots init slot).message }
        ensures script { self.new ≡ (slot_next self.old setup.now.parts slots init slot).script }
    {
        let payload = draw_payload(setup, init, slot, self.place, &mut self.wobble);
        if usize::from(slot) + 1 < slots {
            self.slot = Some(slot + 1);
        } else {
            self.slot = None;
            self.place = (self.place + 1).min(MAX_PLACE);
        }
        Message::Burst {
            slot: Some(slot),
            payload,
        }
    }

    /// A downlink frame.
    #[tactic(auto, unfolding(crate::specs::Scripts::tooth_next))]
    fn tooth(&mut self, setup: &ToothSetup) -> Message
        ensures message { result ≡ (tooth_next self.old setup.now).message }
        ensures script { self.new ≡ (tooth_next self.old setup.now).script }
    {
        Message::Down(draw_down(setup.form(), &mut self.wobble))
    }
}
