//! PSI5 bursts and the downlink, with gaps among them.

use crate::items::{add_edges, gap, reports, sound};
use line_base::{Item, Span};
use psi5_downlink::{Form, ToothSetup};
use psi5_frame::{Check, Parts, Payload, Psi5Setup};
use psi5_init::Code;
use psi5_slots::SlotSetup;
use receiver_core::{ChannelSetup, Report, SyncSlots, What};
use std::alloc::{AllocError, Global};
use std::process::Abort;
use std::test::Fail;

/// The places of the edges of a burst of data A 1E7 with a parity bit, in half-bits from its start.
pub(crate) const READY: [u32; 20] = [
    1, 2, 3, 5, 6, 7, 8, 9, 11, 12, 13, 15, 16, 17, 18, 19, 20, 21, 23, 25,
];

/// Bursts of ten bits of data A and a parity bit on line 1, with or without a slot behind the sync pulses of line 2.
pub(crate) fn channel(rt: &impl Abort, has_slot: bool) -> ChannelSetup {
    let parts = Parts {
        m: 0,
        f: 0,
        s: 0,
        b: 0,
        a: 10,
    };
    let setup = Psi5Setup::new(8_000, parts, Check::Parity, 300).expect(rt, "in range");
    let window = Span {
        low: 44_000,
        high: 60_000,
    };
    let made = SlotSetup::new(&[window], &setup).expect(rt, "a slot");
    let sync = SyncSlots {
        line: 2,
        setup: made,
    };
    ChannelSetup::Psi5 {
        line: 1,
        setup,
        slots: if has_slot { Some(sync) } else { None },
        init: None,
    }
}

/// What is told of the burst of `READY` that ends at this place.
pub(crate) fn told(slot: Option<u8>, place: u64) -> Report {
    let payload = Payload {
        m: 0,
        f: 0,
        s: 0,
        b: 0,
        a: 0x1E7,
    };
    Report {
        place,
        what: What::Burst {
            slot,
            payload,
            code: Some(Code::Ready),
        },
    }
}

/// So many edges of an opening and the burst of `READY`, a gap, and both once more.
fn cut(alloc: Global, place: usize) -> Result<Vec<Item>, AllocError> {
    let mut list = Vec::new(alloc);
    add_edges(&mut list, 1, 0, 4_000, &[0], false)?;
    add_edges(&mut list, 1, 20_000, 4_000, &READY, true)?;
    list.truncate(place);
    let first = place as u64;
    list.push(Item::Gap { first, count: 1 })?;
    add_edges(&mut list, 1, 500_000, 4_000, &[0], false)?;
    add_edges(&mut list, 1, 520_000, 4_000, &READY, true)?;
    list.push(Item::End)?;
    Ok(list)
}

#[test]
fn a_gap_at_any_place_of_a_burst_drops_it(rt: HostRuntime) -> Result<(), Fail> {
    let setup = sound(&rt, channel(&rt, false));
    for place in 0..22 {
        let found = reports(rt.alloc(), setup, &cut(rt.alloc(), place)?)?;
        let place = place as u64;
        let expected = [gap(place, 1), told(None, place + 21)];
        assert!(rt; found.as_slice() == expected.as_slice(), "{place}");
    }
    Ok(())
}

/// The burst of the edges 2 to 21 stands before the first sync pulse; that of the edges 24 to 43 is open at the gap.
/// Then the sync line opens high, which is no sync pulse, so the burst of the edges 48 to 67 isn't told. The next sync
/// pulse is edge 69.
#[test]
fn behind_a_gap_bursts_are_told_from_the_next_sync_pulse_on(rt: HostRuntime) -> Result<(), Fail> {
    let mut list = Vec::new(rt.alloc());
    let lost = Item::Gap {
        first: 44,
        count: 2,
    };
    let parts: [(u8, u32, &[u32], bool, bool); 11] = [
        (1, 0, &[0], false, false),
        (2, 0, &[0], false, false),
        (1, 146_000, &READY, true, false),
        (2, 400_000, &[0, 4], true, false),
        (1, 446_000, &READY, true, true),
        (1, 900_000, &[0], false, false),
        (2, 1_000_000, &[0], true, false),
        (1, 1_046_000, &READY, true, false),
        (2, 1_900_000, &[0], false, false),
        (2, 2_000_000, &[0, 4], true, false),
        (1, 2_046_000, &READY, true, false),
    ];
    for (line, start, places, first, is_last) in parts {
        add_edges(&mut list, line, start, 4_000, places, first)?;
        if is_last {
            list.push(lost)?;
        }
    }
    list.push(Item::End)?;
    let found = reports(rt.alloc(), sound(&rt, channel(&rt, true)), &list)?;
    assert!(rt; found.as_slice() == [gap(44, 2), told(Some(0), 90)].as_slice());
    Ok(())
}

/// A short frame of the downlink in 100 us, with falls 100 us behind the rises. The rise at 11,500 us is edge 19, and
/// the last before the gap.
#[test]
fn a_gap_drops_a_frame_of_the_downlink(rt: HostRuntime) -> Result<(), Fail> {
    let mut list = Vec::new(rt.alloc());
    let before = [
        0, 10, 11, 15, 16, 55, 56, 65, 66, 75, 76, 80, 81, 85, 86, 95, 96, 105, 106, 115, 116,
    ];
    add_edges(&mut list, 1, 0, 100_000, &before, false)?;
    list.push(Item::Gap {
        first: 21,
        count: 1,
    })?;
    add_edges(&mut list, 1, 0, 100_000, &[118, 120, 121, 125, 126], false)?;
    let setup = ToothSetup::new(500_000, Form::Short, 300).expect(&rt, "in range");
    let channel = ChannelSetup::Tooth { line: 1, setup };
    let found = reports(rt.alloc(), sound(&rt, channel), &list)?;
    assert!(rt; found.as_slice() == [gap(21, 1)].as_slice());
    Ok(())
}
