//! Serial messages, status by status: the worked ones, and what a status out of place does.

use line_base::Rule;
use sent_serial::{EnhancedReader, SerialStep, ShortReader};
use std::alloc::{AllocError, Global};
use std::test::Fail;

/// A step, with the number of its frame, counted from 1.
type Told = (u32, SerialStep);

/// The short message 5 A3, the wide message F 1234, and the narrow message 00 000, whose CRC is that of 24 zeros.
const SHORT: SerialStep = SerialStep::Short { id: 5, value: 0xA3 };

const WIDE: SerialStep = SerialStep::Enhanced {
    id: 15,
    value: 0x1234,
    wide: true,
};

const ZEROS: SerialStep = SerialStep::Enhanced {
    id: 0,
    value: 0,
    wide: false,
};

/// What a reader answers to these statuses, each step but `Nothing`.
fn told(alloc: Global, enhanced: bool, statuses: &[u8]) -> Result<Vec<Told>, AllocError> {
    let mut short_reader = ShortReader::new();
    let mut enhanced_reader = EnhancedReader::new();
    let mut told = Vec::new(alloc);
    let mut frame: u32 = 0;
    for status in statuses {
        frame = frame.saturating_add(1);
        let step = if enhanced {
            enhanced_reader.push(*status % 16)
        } else {
            short_reader.push(*status % 16)
        };
        if step != SerialStep::Nothing {
            told.push((frame, step))?;
        }
    }
    Ok(told)
}

#[test]
fn a_short_message_is_told_at_its_sixteenth_frame_and_a_fault_at_its_frame(
    rt: HostRuntime,
) -> Result<(), Fail> {
    let cases: [(&[u8], &[Told]); 3] = [
        (
            &[0, 4, 8, 4, 0, 4, 4, 0, 4, 0, 0, 0, 4, 4, 4, 4, 0, 0],
            &[(18, SHORT)],
        ),
        // A start bit within a message begins another.
        (
            &[
                8, 4, 0, 4, 4, 0, 4, 0, 8, 4, 0, 4, 4, 0, 4, 0, 0, 0, 4, 4, 4, 4, 0, 0,
            ],
            &[(9, SerialStep::Bad(Rule::Restart)), (24, SHORT)],
        ),
        (
            &[8, 4, 0, 4, 4, 0, 4, 0, 0, 0, 4, 4, 4, 4, 0, 4],
            &[(16, SerialStep::Bad(Rule::SerialCheck))],
        ),
    ];
    for (statuses, expected) in cases {
        let found = told(rt.alloc(), false, statuses)?;
        assert!(rt; found.as_slice() == expected, "{statuses:?}");
    }
    Ok(())
}

#[test]
fn an_enhanced_message_is_told_at_its_eighteenth_frame_and_a_fault_at_its_frame(
    rt: HostRuntime,
) -> Result<(), Fail> {
    let cases: [(&[u8], &[Told]); 9] = [
        (
            &[8, 12, 8, 8, 12, 12, 0, 8, 12, 8, 8, 8, 4, 4, 0, 4, 8, 0],
            &[(18, WIDE)],
        ),
        (
            &[12, 8, 8, 12, 12, 8, 0, 0, 0, 0, 0, 0, 0, 0, 0, 0, 0, 0],
            &[(18, ZEROS)],
        ),
        // Frames 7 to 18 have five set start bits in a row: they are no start.
        (
            &[
                0, 8, 12, 8, 8, 8, 4, 4, 0, 4, 8, 0, 8, 12, 8, 8, 12, 12, 0, 8, 12, 8, 8, 8, 4, 4,
                0, 4, 8, 0,
            ],
            &[(30, WIDE)],
        ),
        // Of seven set start bits in a row, and of thirteen, the last six are the start.
        (
            &[8, 8, 12, 8, 8, 12, 12, 0, 8, 12, 8, 8, 8, 4, 4, 0, 4, 8, 0],
            &[(19, WIDE)],
        ),
        (
            &[12, 8, 12, 8, 8, 12, 12, 0, 8, 12, 8, 8, 8, 4, 4, 0, 4, 8, 0],
            &[(19, WIDE)],
        ),
        (
            &[
                8, 8, 8, 8, 8, 8, 8, 8, 12, 8, 8, 12, 12, 0, 8, 12, 8, 8, 8, 4, 4, 0, 4, 8, 0,
            ],
            &[(25, WIDE)],
        ),
        // A set start bit in frame 13 or 18 begins the search anew.
        (
            &[
                8, 12, 8, 8, 12, 12, 0, 8, 12, 8, 8, 8, 8, 12, 8, 8, 12, 12, 0, 8, 12, 8, 8, 8, 4,
                4, 0, 4, 8, 0,
            ],
            &[(13, SerialStep::Bad(Rule::Zero13)), (30, WIDE)],
        ),
        (
            &[
                8, 12, 8, 8, 12, 12, 0, 8, 12, 8, 8, 8, 4, 4, 0, 4, 8, 8, 12, 8, 8, 12, 12, 0, 8,
                12, 8, 8, 8, 4, 4, 0, 4, 8, 0,
            ],
            &[(18, SerialStep::Bad(Rule::Zero18)), (35, WIDE)],
        ),
        (
            &[8, 12, 8, 8, 12, 12, 0, 8, 12, 8, 8, 8, 4, 4, 0, 4, 8, 4],
            &[(18, SerialStep::Bad(Rule::SerialCheck))],
        ),
    ];
    for (statuses, expected) in cases {
        let found = told(rt.alloc(), true, statuses)?;
        assert!(rt; found.as_slice() == expected, "{statuses:?}");
    }
    Ok(())
}
