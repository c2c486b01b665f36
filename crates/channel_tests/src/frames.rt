//! Frames of SENT and the serial messages in their statuses, with gaps and bad frames among them.

use crate::items::{add_edges, gap, reports, sound};
use line_base::{Item, Nibbles};
use receiver_core::{ChannelSetup, Report, Serial, What};
use sent_fast::{Fast, Layout};
use sent_frame::{CrcForm, SentFrame, SentSetup};
use std::alloc::{AllocError, Global};
use std::process::Abort;
use std::test::Fail;

/// The edges of a frame of the status 0 and the nibbles 1 2 3 4 5 14 behind an opening, in ticks: falls, and rises 5
/// ticks behind them.
const WHOLE: [u32; 21] = [
    0, 100, 105, 156, 161, 168, 173, 181, 186, 195, 200, 210, 215, 226, 231, 243, 248, 269, 274,
    284, 289,
];

/// Frames of so many nibbles at a tick of 3,000 ns on line 0.
fn channel(rt: &impl Abort, nibbles: u8, layout: Layout, serial: Serial) -> ChannelSetup {
    let setup = SentSetup::new(3_000, 300, nibbles, false, CrcForm::New).expect(rt, "in range");
    ChannelSetup::Sent {
        line: 0,
        setup,
        layout,
        serial,
    }
}

/// What is told of the frame of `WHOLE` that ends at this place.
fn told(rt: &impl Abort, place: u64) -> [Report; 2] {
    let nibbles = Nibbles::new(&[1, 2, 3, 4, 5, 14]).expect(rt, "six nibbles");
    let frame = Report {
        place,
        what: What::Frame(SentFrame { status: 0, nibbles }),
    };
    let value = Report {
        place,
        what: What::Fast(Fast::Secure {
            a: 0x123,
            counter: 0x45,
        }),
    };
    [frame, value]
}

/// So many edges of the frame of `WHOLE`, a gap, and the frame.
fn cut(alloc: Global, place: usize) -> Result<Vec<Item>, AllocError> {
    let mut list = Vec::new(alloc);
    add_edges(&mut list, 0, 0, 3_000, &WHOLE, true)?;
    list.truncate(place);
    let first = place as u64;
    list.push(Item::Gap { first, count: 1 })?;
    add_edges(&mut list, 0, 1_000_000, 3_000, &WHOLE, true)?;
    Ok(list)
}

#[test]
fn a_gap_at_any_place_of_a_frame_drops_it(rt: HostRuntime) -> Result<(), Fail> {
    for place in 0..22 {
        let list = cut(rt.alloc(), place)?;
        let setup = channel(&rt, 6, Layout::Secure12, Serial::Absent);
        let found = reports(rt.alloc(), sound(&rt, setup), &list)?;
        let place = place as u64;
        let [before, value_before] = told(&rt, 19);
        let [behind, value_behind] = told(&rt, place + 20);
        let expected = [before, value_before, gap(place, 1), behind, value_behind];
        // The frame ends at edge 19.
        let all = expected.as_slice();
        let told = if place > 19 { all } else { &all[2..] };
        assert!(rt; found.as_slice() == told, "{place}");
    }
    Ok(())
}

/// Edges 4 to 6 are lost, and edge 7 is an opening.
#[test]
fn two_gaps_are_told_and_the_line_is_opened_anew(rt: HostRuntime) -> Result<(), Fail> {
    let mut list = Vec::new(rt.alloc());
    add_edges(&mut list, 0, 0, 3_000, &WHOLE[..4], true)?;
    for (first, count) in [(4, 1), (5, 2)] {
        list.push(Item::Gap { first, count })?;
    }
    add_edges(&mut list, 0, 1_000_000, 3_000, &WHOLE, true)?;
    let setup = sound(&rt, channel(&rt, 6, Layout::Secure12, Serial::Absent));
    let found = reports(rt.alloc(), setup, &list)?;
    let [frame, value] = told(&rt, 26);
    assert!(rt; found.as_slice() == [gap(4, 1), gap(5, 2), frame, value].as_slice());
    Ok(())
}

/// The first fall is the opening, so no calibration pulse begins there.
#[test]
fn the_edge_behind_a_gap_is_no_fall(rt: HostRuntime) -> Result<(), Fail> {
    let mut list = Vec::new(rt.alloc());
    list.push(Item::Gap { first: 0, count: 1 })?;
    add_edges(&mut list, 0, 0, 3_000, &WHOLE[1..], false)?;
    let setup = sound(&rt, channel(&rt, 6, Layout::Secure12, Serial::Absent));
    let found = reports(rt.alloc(), setup, &list)?;
    assert!(rt; found.as_slice() == [gap(0, 1)].as_slice());
    Ok(())
}

/// The statuses of the short message 5 A3, and of the wide enhanced message F 1234.
const SHORT: [u8; 16] = [8, 4, 0, 4, 4, 0, 4, 0, 0, 0, 4, 4, 4, 4, 0, 0];

const ENHANCED: [u8; 18] = [8, 12, 8, 8, 12, 12, 0, 8, 12, 8, 8, 8, 4, 4, 0, 4, 8, 0];

/// Adds a frame of this status, the nibble 0 and a last pulse of so many ticks, behind a fall so many ticks behind the
/// start, and answers where its last fall is.
fn add_frame(items: &mut Vec<Item>, start: u32, status: u8, crc: u32) -> Result<u32, AllocError> {
    let value = u32::from(status).saturating_add(68);
    let places = [
        56,
        61,
        value,
        value.saturating_add(5),
        value.saturating_add(12),
        value.saturating_add(17),
        value.saturating_add(12).saturating_add(crc),
        value.saturating_add(17).saturating_add(crc),
    ];
    add_edges(items, 0, start.saturating_mul(3_000), 3_000, &places, false)?;
    Ok(
        start
            .saturating_add(value)
            .saturating_add(12)
            .saturating_add(crc),
    )
}

/// Frames with these statuses, of which a gap or a bad frame stands before the one of this number. Behind a gap comes a
/// frame more: the fall that ends its calibration pulse is an opening, so it isn't read.
fn frames(alloc: Global, statuses: &[u8], cut: usize, lost: bool) -> Result<Vec<Item>, AllocError> {
    let mut list = Vec::new(alloc);
    add_edges(&mut list, 0, 0, 3_000, &[0, 100, 105], true)?;
    let mut start = 100;
    for (number, status) in statuses.iter().enumerate() {
        if number == cut {
            if lost {
                let first = list.len() as u64;
                list.push(Item::Gap { first, count: 1 })?;
            }
            // The right CRC pulse has 22 ticks.
            start = add_frame(&mut list, start, 0, if lost { 22 } else { 23 })?;
        }
        start = add_frame(&mut list, start, *status, 22)?;
    }
    Ok(list)
}

#[test]
fn a_message_is_gone_behind_a_bad_frame_or_a_gap_at_any_of_its_frames(
    rt: HostRuntime,
) -> Result<(), Fail> {
    let cases: [(Serial, &[u8], bool); 4] = [
        (Serial::Short, &SHORT, false),
        (Serial::Short, &SHORT, true),
        (Serial::Enhanced, &ENHANCED, false),
        (Serial::Enhanced, &ENHANCED, true),
    ];
    for (serial, statuses, lost) in cases {
        for cut in 0..statuses.len() {
            let list = frames(rt.alloc(), statuses, cut, lost)?;
            let setup = channel(&rt, 1, Layout::Raw, serial);
            let found = reports(rt.alloc(), sound(&rt, setup), &list)?;
            // The frames, and the bad one or the gap; before the first frame there is nothing to be lost, so its message
            // is told too.
            let told = statuses.len() + 1 + usize::from(cut == 0);
            assert!(rt; found.len() == told, "{serial:?} {lost} {cut}");
            let ends_in_a_frame = matches!(
                found.as_slice().last(),
                Some(Report {
                    what: What::Frame(_),
                    ..
                })
            );
            assert!(rt; ends_in_a_frame == (cut != 0), "{serial:?} {lost} {cut}");
        }
    }
    Ok(())
}
