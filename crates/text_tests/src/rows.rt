//! Rows of an edge list that are taken whole, and rows that are equal.

use edge_trace::{EdgeReader, Row};
use std::alloc::AllocError;

/// A comment without which the rows before it would stand in the last bytes of their block.
const LAST: &str = "# forty bytes more, so that the rows before stand whole\n";

/// How many rows of a text are taken whole, where the other bytes are taken one by one.
fn taken_whole(text: &[u8]) -> u32 {
    let mut reader = EdgeReader::new();
    let mut whole = 0u32;
    let mut rest = text;
    for _ in 0..text.len() {
        let (narrow, _) = reader.take_row(rest);
        rest = &rest[narrow..];
        let (wide, _) = reader.take_wide_row(rest);
        rest = &rest[wide..];
        if narrow > 0 || wide > 0 {
            whole = whole.saturating_add(1);
        } else if let Some((byte, others)) = rest.split_first() {
            rest = others;
            let _ = reader.feed(*byte);
        }
    }
    whole
}

#[test]
fn plain_rows_behind_the_first_are_taken_whole(rt: HostRuntime) -> Result<(), AllocError> {
    for (rows, taken) in [
        (
            "0,0,1\n300000,0,0\n 315000,0,1\n330000,15,1\n330000,15,1\n",
            3,
        ),
        ("0,0,1\n5,16,1\n", 0),
        // A time of 16 digits is left to be read by the line.
        (
            "0,0,1\n999999999999999,0,0\n1000000000000000,0,1\n1000000000000001,0,0\n",
            1,
        ),
        ("5,0,1\n9,0,0\n8,0,1\n", 1),
        ("5,0,1\n9,0,0\r\n9,0,1\n", 1),
        (
            "# version 2 unit=100ns\n0,0,1\n3000,0,0\n+150,0,1\n+0,1,1\n",
            3,
        ),
        ("# version 2 unit=100ns\n9,0,1\n+1,0,0\n9,0,1\n", 1),
        (
            "# version 2 unit=1000000ns\n0,0,1\n1000000000,0,0\n+1,0,1\n",
            1,
        ),
        (
            "# version 2 unit=1000000ns\n0,0,1\n9999999999999999,0,0\n",
            0,
        ),
        (
            "Time [s],A,B\n0.000000000,1,0\n0.000300000,0,0\n0.000315,1,0\n1.000000000,1,1\n",
            3,
        ),
        ("Time [s],A\n0.500000000,0\n0.499999999,1\n", 1),
        ("Time [s],A\n1000000.000000000,0\n1000000.000000001,0\n", 1),
        ("Time [s],A,B\n0.000000000,1,0\n0.000000001,1\n", 1),
        ("Time [s],A\n0.000000000,1\n0.000000001,1,0\n", 1),
        (
            "Time [s],,,,,,,,,,,,,,,,\n0.000000001,1,1,1,1,1,1,1,1,1,1,1,1,1,1,1,1\n",
            1,
        ),
    ] {
        let text = format!(in rt.alloc(); "{rows}{LAST}")?;
        assert_eq!(rt; taken_whole(text.as_bytes()), taken, "{rows}");
    }
    Ok(())
}

/// The row of the last line of a text, if it has an edge.
fn last_row(text: &[u8]) -> Option<Row> {
    let mut reader = EdgeReader::new();
    for byte in text {
        let _ = reader.feed(*byte);
    }
    match reader.finish() {
        Some(Ok(row)) => Some(row),
        _ => None,
    }
}

#[test]
fn two_rows_are_equal_exactly_where_their_edges_are(rt: HostRuntime) {
    let first = last_row(b"1000000005,2,1");
    assert!(rt; first.is_some());
    for (text, same) in [
        ("1000000005,2,1", true),
        // The same edge in a wide row, behind one with the other level, and in units of 5 ns.
        ("Time [s],,,\n0,0,0,0\n1.000000005,0,0,1", true),
        ("# version 2 unit=5ns\n200000000,2,0\n+1,2,1", true),
        ("1000000006,2,1", false),
        ("1000000005,1,1", false),
        ("1000000005,2,0", false),
        ("Time [s],,,\n0,0,0,0\n1.000000005,0,1,1", false),
        ("", false),
    ] {
        assert_eq!(rt; last_row(text.as_bytes()) == first, same, "{text}");
    }
}
