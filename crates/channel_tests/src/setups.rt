//! Setups of channels at the last accepted and the first refused line, and which fault is told first.

use line_base::{SetupFault, Span};
use psi5_downlink::{Form, ToothSetup};
use psi5_frame::{Check, Parts, Psi5Setup};
use psi5_slots::SlotSetup;
use receiver_core::{ChannelSetup, Serial, SyncSlots};
use sent_fast::Layout;
use sent_frame::{Cover, CrcForm, SentSetup};
use spc_link::SpcSetup;
use std::process::Abort;

/// A bit time of 8,000 ns and so many bits of data A.
fn frame(rt: &impl Abort, a: u8, check: Check) -> Psi5Setup {
    let parts = Parts {
        m: 0,
        f: 0,
        s: 0,
        b: 0,
        a,
    };
    Psi5Setup::new(8_000, parts, check, 300).expect(rt, "in range")
}

#[test]
fn sent_is_refused_at_its_line_and_then_at_its_layout(rt: HostRuntime) {
    let lines = Some(SetupFault::Lines);
    let shape = Some(SetupFault::Layout);
    for (line, nibbles, layout, fault) in [
        (15, 6, Layout::Two12, None),
        (16, 6, Layout::Two12, lines),
        (0, 3, Layout::Two12, shape),
        (16, 3, Layout::Two12, lines),
        (0, 3, Layout::One12, None),
        (0, 6, Layout::One12, shape),
        (0, 5, Layout::Raw, None),
    ] {
        let setup = SentSetup::new(3_000, 300, nibbles, false, CrcForm::New);
        let channel = ChannelSetup::Sent {
            line,
            setup: setup.expect(&rt, "in range"),
            layout,
            serial: Serial::Absent,
        };
        assert!(rt; channel.fault() == fault, "{line} {nibbles} {layout:?}");
    }
}

/// The line, the sync line of a slot for ten bits and a parity bit, the bits and the check of the frames, and how often a
/// block is sent.
#[test]
fn psi5_is_refused_at_its_lines_and_then_at_its_slots_and_its_repeats(rt: HostRuntime) {
    let window = Span {
        low: 44_000,
        high: 400_000,
    };
    let made = SlotSetup::new(&[window], &frame(&rt, 10, Check::Parity)).expect(&rt, "a slot");
    let lines = Some(SetupFault::Lines);
    let repeats = Some(SetupFault::Repeats);
    let others = Some(SetupFault::Slots);
    for (line, sync, a, check, init, fault) in [
        (15, Some(14), 10, Check::Parity, None, None),
        (14, Some(15), 10, Check::Parity, Some(16), None),
        (16, Some(2), 10, Check::Parity, None, lines),
        (1, Some(16), 10, Check::Parity, None, lines),
        (1, Some(1), 10, Check::Parity, None, lines),
        (1, Some(2), 10, Check::Crc, Some(17), others),
        (1, Some(2), 11, Check::Parity, Some(1), others),
        (2, Some(2), 11, Check::Parity, Some(1), lines),
        (1, Some(2), 10, Check::Parity, Some(17), repeats),
        (15, None, 10, Check::Parity, Some(1), None),
        (15, None, 10, Check::Parity, Some(16), None),
        (15, None, 11, Check::Parity, None, None),
        (15, None, 10, Check::Parity, Some(0), repeats),
        (15, None, 10, Check::Parity, Some(17), repeats),
        (15, None, 11, Check::Parity, Some(1), repeats),
        (16, None, 11, Check::Parity, Some(1), lines),
    ] {
        let slots = match sync {
            Some(line) => Some(SyncSlots { line, setup: made }),
            None => None,
        };
        let channel = ChannelSetup::Psi5 {
            line,
            setup: frame(&rt, a, check),
            slots,
            init,
        };
        assert!(rt;
            channel.fault() == fault,
            "{line} {sync:?} {a} {check:?} {init:?}"
        );
    }
}

#[test]
fn spc_and_the_downlink_are_refused_at_line_16(rt: HostRuntime) {
    let sent = SentSetup::new(3_000, 300, 6, false, CrcForm::New).expect(&rt, "in range");
    let window = Span {
        low: 100,
        high: 160,
    };
    let delay = Span { low: 40, high: 400 };
    let spc = SpcSetup::new(sent, &[window], delay, 800, Cover::Nibbles).expect(&rt, "in range");
    let tooth = ToothSetup::new(500_000, Form::Short, 300).expect(&rt, "in range");
    for (line, fault) in [(15, None), (16, Some(SetupFault::Lines))] {
        let spc = ChannelSetup::Spc { line, setup: spc };
        let tooth = ChannelSetup::Tooth { line, setup: tooth };
        assert!(rt;
            spc.fault() == fault && tooth.fault() == fault,
            "line {line}"
        );
    }
}
