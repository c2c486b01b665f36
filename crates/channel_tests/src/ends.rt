//! What the end of a list, a cut and a gap tell of what is open, and what a gap counts as.

use crate::bursts::{READY, channel, told};
use crate::items::{add_edges, gap, reports, sound};
use line_base::{Item, Span};
use receiver_core::{ChannelSetup, Report, Tally, What};
use sent_frame::{Cover, CrcForm, SentSetup};
use spc_link::SpcSetup;
use std::process::Abort;
use std::test::Fail;

/// Triggers of 10 to 16 ticks of 3,000 ns on line 0.
fn triggers(rt: &impl Abort) -> ChannelSetup {
    let sent = SentSetup::new(3_000, 300, 6, false, CrcForm::New).expect(rt, "in range");
    let window = Span {
        low: 100,
        high: 160,
    };
    let delay = Span { low: 40, high: 400 };
    let setup = SpcSetup::new(sent, &[window], delay, 800, Cover::Nibbles);
    ChannelSetup::Spc {
        line: 0,
        setup: setup.expect(rt, "in range"),
    }
}

/// The items behind an open burst or trigger, and whether it is told: a cut tells nothing, and neither does an end
/// behind another end.
const ENDS: [(&[Item], bool); 4] = [
    (&[], false),
    (&[Item::End], true),
    (&[Item::End, Item::End], true),
    (&[Item::Cut, Item::End], false),
];

#[test]
fn the_last_burst_is_told_at_the_end_or_with_the_next_one(rt: HostRuntime) -> Result<(), Fail> {
    let mut list = Vec::new(rt.alloc());
    add_edges(&mut list, 1, 0, 4_000, &[0], false)?;
    add_edges(&mut list, 1, 20_000, 4_000, &READY, true)?;
    let burst = [told(None, 20)];
    for (ends, is_told) in ENDS {
        list.truncate(21);
        list.extend_from_slice(ends)?;
        let found = reports(rt.alloc(), sound(&rt, channel(&rt, false)), &list)?;
        let expected = if is_told { burst.as_slice() } else { &[] };
        assert!(rt; found.as_slice() == expected, "{ends:?}");
    }
    list.truncate(21);
    add_edges(&mut list, 1, 224_000, 4_000, &[0], true)?;
    let found = reports(rt.alloc(), sound(&rt, channel(&rt, false)), &list)?;
    assert!(rt; found.as_slice() == burst.as_slice());
    Ok(())
}

#[test]
fn a_silent_trigger_is_told_at_the_end_and_dropped_at_a_gap(rt: HostRuntime) -> Result<(), Fail> {
    let silent = Report {
        place: 2,
        what: What::NoAnswer { code: 0 },
    };
    let mut list = Vec::new(rt.alloc());
    add_edges(&mut list, 0, 0, 1_000, &[0, 300, 339], true)?;
    let trigger = [silent];
    for (ends, is_told) in ENDS {
        list.truncate(3);
        list.extend_from_slice(ends)?;
        let found = reports(rt.alloc(), sound(&rt, triggers(&rt)), &list)?;
        let expected = if is_told { trigger.as_slice() } else { &[] };
        assert!(rt; found.as_slice() == expected, "{ends:?}");
    }
    // A gap tells of itself, but behind an end.
    let lost = Item::Gap { first: 3, count: 2 };
    for (ends, expected) in [([lost, Item::End], gap(3, 2)), ([Item::End, lost], silent)] {
        list.truncate(3);
        list.extend_from_slice(&ends)?;
        let found = reports(rt.alloc(), sound(&rt, triggers(&rt)), &list)?;
        assert!(rt;
            found.first() == Some(&expected) && found.len() == 1,
            "{ends:?}"
        );
    }
    Ok(())
}

#[test]
fn a_gap_counts_as_one_and_its_edges_as_lost(rt: HostRuntime) {
    let mut tally = Tally {
        good: 1,
        bad: 2,
        messages: 3,
        gaps: 4,
        lost: 5,
    };
    let report = Report {
        place: 0,
        what: What::Gap { count: 6 },
    };
    tally.add(&report);
    let expected = Tally {
        good: 1,
        bad: 2,
        messages: 3,
        gaps: 5,
        lost: 11,
    };
    assert!(rt; tally == expected);
}
