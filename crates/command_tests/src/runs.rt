//! Whole runs in memory: in small pieces, with a pull or a put that fails, and how far they have read at a put.
ghost use Rattle.std.specs.Prelude.{None};

use edge_command::{Plain, run_plain};
use line_base::LineFault::Field;
use line_base::{Failed, MemorySink, MemorySource, Reason, Source};
use std::alloc::{AllocError, Global};
use std::process::Abort;

/// A frame of the status 0 and six nibbles 0: pulses of 56, seven times 12 and 17 ticks of 3,000 ns.
const FRAME: &str = "0,0,1\n300000,0,0\n315000,0,1\n468000,0,0\n483000,0,1\n504000,0,0\n\
    519000,0,1\n540000,0,0\n555000,0,1\n576000,0,0\n591000,0,1\n612000,0,0\n627000,0,1\n\
    648000,0,0\n663000,0,1\n684000,0,0\n699000,0,1\n720000,0,0\n735000,0,1\n771000,0,0\n";

/// The frame as a list of version 2: times in units of 100 ns, and each rise as a step from its fall.
const FRAME_IN_STEPS: &str = "# version 2 unit=100ns\r\n0,0,1\n3000,0,0\n+150,0,1\n4680,0,0\n\
    +150,0,1\n5040,0,0\n+150,0,1\n5400,0,0\n+150,0,1\n5760,0,0\n+150,0,1\n6120,0,0\n+150,0,1\n\
    6480,0,0\n+150,0,1\n6840,0,0\n+150,0,1\n7200,0,0\n+150,0,1\n7710,0,0\n";

/// The frame on line 1 of a wide list whose line 0 changes too.
const WIDE_FRAME: &str = "Time [s],Channel 0,Channel 1\n0,0,1\n0.0003,0,0\n0.000315,1,1\r\n\
    0.000468,0,0\n0.000483,1,1\n0.000504,1,0\n0.000519,0,1\n0.00054,0,0\n0.000555,1,1\n\
    0.000576,0,0\n0.000591,1,1\n0.000612,0,0\n0.000627,1,1\n0.000648,0,0\n0.000663,1,1\n\
    0.000684,0,0\n0.000699,1,1\n0.000720000,0,0\n0.000735,1,1\n0.000771,0,0\n";

/// What is written of that frame.
const FRAME_TEXT: &str = "00 19 frame 0 000000\n00 total good 1 bad 0 messages 0 gaps 0 lost 0\n";

/// The frame is read with both forms of the CRC.
const TWO: &str = "decode sent:line=0 sent:line=0,crc=legacy";

/// The report lines of these channels.
const TWO_LINES: &str = "00 19 frame 0 000000\n01 19 bad Check\n";

/// Their report lines and their total lines.
const TWO_WHOLE: &str = "00 19 frame 0 000000\n01 19 bad Check\n\
    00 total good 1 bad 0 messages 0 gaps 0 lost 0\n\
    01 total good 0 bad 1 messages 0 gaps 0 lost 0\n";

/// Two frames: the first has a data nibble 1 and the CRC of zeros. Its last row ends at byte 215, the second frame's last
/// fall at byte 426, and the list at byte 438.
const TWO_FRAMES: &str = "0,0,1\n300000,0,0\n315000,0,1\n468000,0,0\n483000,0,1\n504000,0,0\n\
    519000,0,1\n540000,0,0\n555000,0,1\n579000,0,0\n594000,0,1\n615000,0,0\n630000,0,1\n\
    651000,0,0\n666000,0,1\n687000,0,0\n702000,0,1\n723000,0,0\n738000,0,1\n774000,0,0\n\
    789000,0,1\n942000,0,0\n957000,0,1\n978000,0,0\n993000,0,1\n1014000,0,0\n1029000,0,1\n\
    1050000,0,0\n1065000,0,1\n1086000,0,0\n1101000,0,1\n1122000,0,0\n1137000,0,1\n1158000,0,0\n\
    1173000,0,1\n1194000,0,0\n1209000,0,1\n1245000,0,0\n1260000,0,1\n";

/// The line of the first frame.
const CHECK: &str = "00 19 bad Check\n";

/// The lines of both.
const BOTH: &str = "00 19 bad Check\n00 37 frame 0 000000\n";

/// The lines of both, and the total line.
const WHOLE: &str = "00 19 bad Check\n00 37 frame 0 000000\n\
    00 total good 1 bad 1 messages 0 gaps 0 lost 0\n";

/// Two messages for a sensor: the first one's line ends at byte 28, and the second one's at byte 44.
const MESSAGES: &str = "# two frames\nframe 0 000000\n\nframe 1 123456\n";

/// The rows of the first message, by the seed 7; worked out by hand.
const ROWS: &str = "0,0,1\n299989,0,0\n311989,0,1\n468389,0,0\n480389,0,1\n504847,0,0\n516847,0,1\n\
    540472,0,0\n552472,0,1\n576461,0,0\n588461,0,1\n612705,0,0\n624705,0,1\n648623,0,0\n660623,0,1\n\
    685144,0,0\n697144,0,1\n721146,0,0\n733146,0,1\n772378,0,0\n784378,0,1\n";

/// The rows of both.
const ALL_ROWS: &str = "0,0,1\n299989,0,0\n311989,0,1\n468389,0,0\n480389,0,1\n504847,0,0\n\
    516847,0,1\n540472,0,0\n552472,0,1\n576461,0,0\n588461,0,1\n612705,0,0\n624705,0,1\n648623,0,0\n\
    660623,0,1\n685144,0,0\n697144,0,1\n721146,0,0\n733146,0,1\n772378,0,0\n784378,0,1\n940347,0,0\n\
    952347,0,1\n979057,0,0\n991057,0,1\n1018120,0,0\n1030120,0,1\n1060271,0,0\n1072271,0,1\n\
    1105362,0,0\n1117362,0,1\n1153497,0,0\n1165497,0,1\n1204296,0,0\n1216296,0,1\n1258461,0,0\n\
    1270461,0,1\n1300563,0,0\n1312563,0,1\n";

/// What a loop of two frames tells, by the seed 1.
const LOOPED: &str = "sent 2 good 2 bad 0 edges 39 last 1557626 thinned good 2 bad 0\n";

/// One channel is decoded.
const DECODE: &str = "decode sent:line=0";

/// Two channels are counted.
const CHECKS: &str = "check sent:line=0 sent:line=0,crc=legacy";

/// A sensor is simulated.
const SIMULATE: &str = "simulate 7 sent:line=0";

/// Two frames are sent and read.
const LOOP: &str = "loop 1 2 sent:line=0";

/// A put failed.
const CUT: Reason = Reason::WriteFault { lane: None };

/// A run in memory: its words, what the source gives, how many bytes a pull gives at most, the numbers of the pull and of
/// the put that fail, from 1, or 0; and how it ends, and what is written.
type Run<'a> = (&'a str, &'a str, usize, u64, u64, Reason, &'a str);

/// The words of a command line.
fn words_of(alloc: Global, text: &str) -> Result<Vec<String>, AllocError> {
    let mut words = Vec::new(alloc);
    for word in text.split_whitespace() {
        words.push(String::from_str(alloc, word)?)?;
    }
    Ok(words)
}

/// Makes a run, and looks at how it ended and at what was written.
fn expect(rt: &impl Abort, alloc: Global, run: Run) -> Result<(), AllocError> {
    let (words, input, piece, pull, put, ended, written) = run;
    let bytes = Vec::from_slice(alloc, input.as_bytes())?;
    let pulls = Vec::from_slice(alloc, &[pull])?;
    let puts = Vec::from_slice(alloc, &[put])?;
    let mut source = MemorySource::new(bytes, piece.max(1), pulls);
    let mut sink = MemorySink::new(alloc, 4_096, puts)?;
    let Plain { status, reason } = run_plain(
        alloc,
        &words_of(alloc, words)?,
        &mut source,
        &mut sink,
    );
    assert_eq!(rt; reason, ended, "{run:?}");
    assert_eq!(rt; status, ended.status(), "{run:?}");
    assert_eq!(rt; sink.bytes(), written.as_bytes(), "{run:?}");
    Ok(())
}

#[test]
fn the_size_of_the_pieces_changes_nothing(rt: HostRuntime) -> Result<(), AllocError> {
    for piece in [1, 7, 4_096] {
        for (words, input, ended, written) in [
            (DECODE, FRAME, Reason::Clean, FRAME_TEXT),
            (DECODE, FRAME_IN_STEPS, Reason::Clean, FRAME_TEXT),
            ("decode sent:line=1", WIDE_FRAME, Reason::Clean, FRAME_TEXT),
            (TWO, FRAME, Reason::Marked, TWO_WHOLE),
            (SIMULATE, MESSAGES, Reason::Clean, ALL_ROWS),
        ] {
            expect(&rt, rt.alloc(), (words, input, piece, 0, 0, ended, written))?;
        }
    }
    Ok(())
}

#[test]
fn a_run_ends_at_a_failed_pull_or_put_behind_what_was_told(
    rt: HostRuntime,
) -> Result<(), AllocError> {
    // Of the two frames pull 23 finds the end.
    for pull in 1..25 {
        let (ended, written) = match pull {
            1..=11 => (Reason::ReadFault, ""),
            12..=22 => (Reason::ReadFault, CHECK),
            23 => (Reason::ReadFault, BOTH),
            _ => (Reason::Marked, WHOLE),
        };
        expect(
            &rt,
            rt.alloc(),
            (DECODE, TWO_FRAMES, 20, pull, 0, ended, written),
        )?;
    }
    for run in [
        (DECODE, TWO_FRAMES, 20, 0, 1, CUT, ""),
        (DECODE, TWO_FRAMES, 20, 0, 2, CUT, CHECK),
        (DECODE, TWO_FRAMES, 20, 0, 3, CUT, BOTH),
        (DECODE, TWO_FRAMES, 20, 0, 4, Reason::Marked, WHOLE),
        (TWO, FRAME, 20, 0, 1, CUT, ""),
        (TWO, FRAME, 20, 0, 2, CUT, TWO_LINES),
        (TWO, FRAME, 20, 0, 3, Reason::Marked, TWO_WHOLE),
        // Pull 40 is within the list, and put 1 is the only one.
        (CHECKS, FRAME, 4, 40, 0, Reason::ReadFault, ""),
        (CHECKS, FRAME, 4, 0, 1, CUT, ""),
        (
            CHECKS,
            "0,0,1\n1,0\n",
            7,
            0,
            1,
            Reason::Input {
                line: 2,
                fault: Field,
            },
            "",
        ),
        (SIMULATE, MESSAGES, 10, 1, 0, Reason::ReadFault, ""),
        (SIMULATE, MESSAGES, 10, 2, 0, Reason::ReadFault, ""),
        (SIMULATE, MESSAGES, 10, 3, 0, Reason::ReadFault, ""),
        (SIMULATE, MESSAGES, 10, 4, 0, Reason::ReadFault, ROWS),
        (SIMULATE, MESSAGES, 10, 5, 0, Reason::ReadFault, ROWS),
        (SIMULATE, MESSAGES, 10, 6, 0, Reason::ReadFault, ALL_ROWS),
        (SIMULATE, MESSAGES, 4_096, 2, 0, Reason::ReadFault, ALL_ROWS),
        (SIMULATE, MESSAGES, 4_096, 0, 1, CUT, ""),
        (SIMULATE, MESSAGES, 4_096, 0, 2, CUT, ROWS),
        (SIMULATE, MESSAGES, 4_096, 0, 3, Reason::Clean, ALL_ROWS),
        (SIMULATE, "", 4_096, 0, 1, Reason::Clean, ""),
        // A loop pulls nothing.
        (LOOP, "", 4_096, 1, 0, Reason::Clean, LOOPED),
        (LOOP, "", 4_096, 0, 1, CUT, ""),
    ] {
        expect(&rt, rt.alloc(), run)?;
    }
    Ok(())
}

/// Gives bytes in pieces, and counts the pulls.
#[derive(Drop)]
struct Counting {
    bytes: &'static str,
    piece: usize,
    pulls: usize,
}

impl Source for Counting {
    ghost left = { λ s. None };

    ghost faults = { λ s. 0 };

    fn pull(&mut self, buf: &mut [u8]) -> Result<usize, Failed> {
        let start = self.pulls.saturating_mul(self.piece);
        self.pulls = self.pulls.saturating_add(1);
        let Some(rest) = self.bytes.as_bytes().get(start..) else {
            return Ok(0);
        };
        let count = rest.len().min(self.piece).min(buf.len());
        for (cell, byte) in buf.iter_mut().zip(rest.iter().take(count)) {
            *cell = *byte;
        }
        Ok(count)
    }
}

#[test]
fn what_was_told_of_a_line_is_put_before_the_next_pull(rt: HostRuntime) -> Result<(), AllocError> {
    for (words, bytes, piece, put, pulls) in [
        (DECODE, TWO_FRAMES, 20, 1, 11),
        (DECODE, TWO_FRAMES, 20, 2, 22),
        (DECODE, TWO_FRAMES, 20, 3, 23),
        (SIMULATE, MESSAGES, 10, 1, 3),
        (SIMULATE, MESSAGES, 10, 2, 5),
    ] {
        let mut source = Counting {
            bytes,
            piece,
            pulls: 0,
        };
        let puts = Vec::from_slice(rt.alloc(), &[put])?;
        let mut sink = MemorySink::new(rt.alloc(), 4_096, puts)?;
        let words = words_of(rt.alloc(), words)?;
        let plain = run_plain(rt.alloc(), &words, &mut source, &mut sink);
        assert_eq!(rt; plain.reason, CUT, "{bytes} {put}");
        assert_eq!(rt; source.pulls, pulls, "{bytes} {put}");
    }
    Ok(())
}
