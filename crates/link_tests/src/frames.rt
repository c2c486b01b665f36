//! Which edges of a SENT frame tell nothing.

use line_base::Edge;
use sent_frame::{CrcForm, SentReader, SentSetup};

/// Of a whole frame, the opening and the falls at which the reader stands elsewhere than before are left to
/// `push`: the first fall, the two that end the calibration pulse and the status, and the last.
#[test]
fn an_edge_that_tells_nothing_is_passed(rt: HostRuntime) {
    let setup = SentSetup::new(3_000, 300, 6, false, CrcForm::New).expect(&rt, "in range");
    let mut reader = SentReader::new(setup);
    let edges: [(u32, bool, bool); 21] = [
        (0, true, false),
        (300_000, false, false),
        (315_000, true, true),
        (468_000, false, false),
        (483_000, true, true),
        (504_000, false, false),
        (519_000, true, true),
        (540_000, false, true),
        (555_000, true, true),
        (576_000, false, true),
        (591_000, true, true),
        (612_000, false, true),
        (627_000, true, true),
        (648_000, false, true),
        (663_000, true, true),
        (684_000, false, true),
        (699_000, true, true),
        (720_000, false, true),
        (735_000, true, true),
        (771_000, false, false),
        (786_000, true, true),
    ];
    for (time, level, passed) in edges {
        let edge = Edge {
            line: 0,
            time: u64::from(time),
            level,
        };
        let found = reader.passes(edge);
        assert!(rt; found == passed, "{time} ns");
        if !found {
            reader.push(0, edge);
        }
    }
}
