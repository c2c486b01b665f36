//! Setups at the last accepted and the first refused values, and which fault is told first. Where words spell the
//! values, the cases of the links have more of them.
ghost use Rattle.std.specs.Prelude.{◌≡◌};

use line_base::{SetupFault, Span};
use psi5_downlink::{Form, ToothSetup};
use psi5_frame::{Check, Parts, Psi5Setup};
use psi5_slots::SlotSetup;
use sent_frame::{Cover, CrcForm, SentSetup};
use spc_link::SpcSetup;
use std::process::Abort;

/// Ten bits of data A alone.
const TEN: Parts = Parts {
    m: 0,
    f: 0,
    s: 0,
    b: 0,
    a: 10,
};

/// A tick of 3,000 ns, a jitter of 300 ns and six nibbles.
fn sent(rt: &impl Abort, pause: bool) -> SentSetup
    ensures { result.pause ≡ pause }
{
    SentSetup::new(3_000, 300, 6, pause, CrcForm::New).expect(rt, "the setup is in range")
}

#[test]
fn frames_of_sent_are_refused_at_their_first_value_out_of_range(rt: HostRuntime) {
    let cases = [
        (2_999, 0, 6, Some(SetupFault::Tick)),
        (3_000, 1, 6, None),
        (90_000, 1, 6, None),
        (90_001, 1, 6, Some(SetupFault::Tick)),
        (3_000, 0, 0, Some(SetupFault::Jitter)),
        (3_000, 300, 6, None),
        (3_000, 301, 6, Some(SetupFault::Jitter)),
        (3_000, 300, 0, Some(SetupFault::Nibbles)),
        (3_000, 300, 1, None),
        (3_000, 300, 7, Some(SetupFault::Nibbles)),
    ];
    for (tick, jitter, nibbles, fault) in cases {
        let found = SentSetup::new(tick, jitter, nibbles, true, CrcForm::Legacy);
        assert!(rt; found.err() == fault, "{tick} {jitter} {nibbles}");
    }
}

#[test]
fn triggers_of_spc_are_refused_at_their_first_value_out_of_range(rt: HostRuntime) {
    let nine = [
        Span { low: 10, high: 20 },
        Span { low: 30, high: 40 },
        Span { low: 50, high: 60 },
        Span { low: 70, high: 80 },
        Span { low: 90, high: 100 },
        Span {
            low: 110,
            high: 120,
        },
        Span {
            low: 130,
            high: 140,
        },
        Span {
            low: 150,
            high: 160,
        },
        Span {
            low: 170,
            high: 180,
        },
    ];
    let cases = [
        (true, 0, 0, 0, Some(SetupFault::Pause)),
        (false, 0, 0, 0, Some(SetupFault::Windows)),
        (false, 9, 0, 0, Some(SetupFault::Windows)),
        (false, 8, 9, 0, Some(SetupFault::Delay)),
        (false, 8, 4_294_967_290, 0, Some(SetupFault::Delay)),
        (false, 8, 10, 0, Some(SetupFault::Quiet)),
        (false, 8, 10, 10_001, Some(SetupFault::Quiet)),
        (false, 8, 10, 10_000, None),
    ];
    for (pause, count, low, quiet, fault) in cases {
        let windows = nine.get(..count).unwrap_or(&[]);
        let delay = Span {
            low,
            high: low.saturating_add(10),
        };
        let found = SpcSetup::new(sent(&rt, pause), windows, delay, quiet, Cover::Nibbles);
        assert!(rt; found.err() == fault, "{pause} {count} {low} {quiet}");
    }
}

#[test]
fn frames_of_psi5_are_refused_at_their_first_value_out_of_range(rt: HostRuntime) {
    let bit = Some(SetupFault::Bit);
    let widths = Some(SetupFault::Parts);
    let jitter = Some(SetupFault::Jitter);
    let cases = [
        (7_999, [1, 0, 0, 0, 10], 0, bit),
        (8_001, [0, 0, 0, 0, 10], 1, bit),
        (5_299, [0, 0, 0, 0, 10], 1, bit),
        (5_301, [0, 0, 0, 0, 10], 1, bit),
        (8_000, [0, 0, 0, 0, 10], 1, None),
        (8_000, [1, 0, 0, 0, 10], 0, widths),
        (8_000, [2, 0, 0, 0, 10], 1, None),
        (8_000, [3, 0, 0, 0, 10], 1, widths),
        (8_000, [0, 4, 0, 0, 10], 1, None),
        (8_000, [0, 5, 0, 0, 10], 1, widths),
        (8_000, [0, 0, 2, 0, 10], 1, None),
        (8_000, [0, 0, 3, 0, 10], 1, widths),
        (8_000, [0, 0, 0, 12, 10], 1, None),
        (8_000, [0, 0, 0, 13, 10], 1, widths),
        (8_000, [0, 0, 0, 0, 9], 1, widths),
        (8_000, [0, 0, 0, 0, 24], 1, None),
        (8_000, [0, 0, 0, 0, 25], 1, widths),
        (8_000, [0, 4, 2, 12, 10], 1, None),
        (8_000, [0, 4, 2, 12, 11], 1, widths),
        (8_000, [0, 0, 0, 0, 10], 0, jitter),
        (8_000, [0, 0, 0, 0, 10], 500, None),
        (8_000, [0, 0, 0, 0, 10], 501, jitter),
        (5_300, [0, 0, 0, 0, 10], 331, None),
        (5_300, [0, 0, 0, 0, 10], 332, jitter),
    ];
    for (nominal, parts, most, fault) in cases {
        let [m, f, s, b, a] = parts;
        let parts = Parts { m, f, s, b, a };
        let found = Psi5Setup::new(nominal, parts, Check::Parity, most);
        assert!(rt; found.err() == fault, "{nominal} {parts:?} {most}");
    }
}

#[test]
fn slots_end_at_ten_million_ns(rt: HostRuntime) {
    let frame = Psi5Setup::new(8_000, TEN, Check::Parity, 300).expect(&rt, "in range");
    let cases = [
        (32_000, 10_000_000, true),
        (32_000, 10_000_001, false),
        (4_294_967_295, 4_294_967_295, false),
    ];
    for (low, high, accepted) in cases {
        let found = SlotSetup::new(&[Span { low, high }], &frame);
        assert!(rt; found.is_ok() == accepted, "{low} {high}");
    }
    assert!(rt; SlotSetup::new(&[], &frame).err() == Some(SetupFault::Slots));
}

#[test]
fn the_downlink_is_refused_at_its_first_value_out_of_range(rt: HostRuntime) {
    let cases = [
        (9_999, 0, Some(SetupFault::Period)),
        (10_000, 1, None),
        (10_000, 0, Some(SetupFault::Jitter)),
        (10_000, 625, None),
        (10_000, 626, Some(SetupFault::Jitter)),
        (10_000_000, 625_000, None),
        (10_000_000, 625_001, Some(SetupFault::Jitter)),
        (10_000_001, 1, Some(SetupFault::Period)),
    ];
    for (period, jitter, fault) in cases {
        let found = ToothSetup::new(period, Form::Long, jitter);
        assert!(rt; found.err() == fault, "{period} {jitter}");
    }
}
