//! Each kind of report with its line, written and read, and the total line.
ghost use Rattle.std.specs.Prelude.{◌<◌};

use arrayvec::ArrayString;
use line_base::{Nibbles, Rule};
use psi5_downlink::Down;
use psi5_frame::Payload;
use psi5_init::Code;
use receiver_core::{Report, Tally, What};
use report_text::{read_report, write_report, write_total};
use sent_fast::Fast;
use sent_frame::SentFrame;
use std::process::Abort;

/// A frame of this status and these nibbles.
fn frame(rt: &impl Abort, status: u8, nibbles: &[u8]) -> SentFrame {
    SentFrame {
        status,
        nibbles: Nibbles::new(nibbles).expect(rt, "1 to 6 nibbles"),
    }
}

/// A burst of these five parts, from messaging to data A.
fn burst(slot: Option<u8>, parts: (u8, u8, u8, u16, u32), code: Option<Code>) -> What {
    let (m, f, s, b, a) = parts;
    What::Burst {
        slot,
        payload: Payload { m, f, s, b, a },
        code,
    }
}

/// Whether the report is written as this line, and the line is read as the report.
fn expect_line(rt: &impl Abort, channel: u8, place: u64, what: &What, line: &str)
    requires { channel < 16 }
{
    let report = Report { place, what: *what };
    let mut text = ArrayString::new();
    write_report(channel, &report, &mut text);
    assert_eq!(rt; text.as_str(), line);
    assert_eq!(rt; read_report(line), Ok((channel, report)), "{line}");
}

#[test]
fn each_report_has_its_line_and_is_read_of_it(rt: HostRuntime) {
    let zeros = What::Frame(frame(&rt, 0, &[0, 0, 0, 0, 0, 0]));
    for (channel, place, line) in [
        (0, 0, "00 0 frame 0 000000"),
        (0, 19, "00 19 frame 0 000000"),
        (9, 10, "09 10 frame 0 000000"),
        (10, 1, "10 1 frame 0 000000"),
        (15, u64::MAX, "15 18446744073709551615 frame 0 000000"),
    ] {
        expect_line(&rt, channel.min(15), place, &zeros, line);
    }
    let longest = burst(Some(7), (0, 0, 0, 0, 0), Some(Code::Signal(-480)));
    let line = "15 18446744073709551615 psi5 7 0 0 0 000 000000 signal -480";
    expect_line(&rt, 15, u64::MAX, &longest, line);
    let none = (0, 0, 0, 0, 0);
    let all = [15, 15, 15, 15, 15, 15];
    for (what, line) in [
        (What::Frame(frame(&rt, 0, &[0])), "03 7 frame 0 0"),
        (What::Frame(frame(&rt, 15, &[15])), "03 7 frame F F"),
        (
            What::Frame(frame(&rt, 10, &[1, 2, 3, 13, 14, 15])),
            "03 7 frame A 123DEF",
        ),
        (What::Frame(frame(&rt, 15, &all)), "03 7 frame F FFFFFF"),
        (What::Fast(Fast::One { a: 0 }), "03 7 one 000"),
        (What::Fast(Fast::One { a: 4_095 }), "03 7 one FFF"),
        (What::Fast(Fast::Two { a: 0, b: 4_095 }), "03 7 two 000 FFF"),
        (What::Fast(Fast::Two { a: 4_095, b: 0 }), "03 7 two FFF 000"),
        (
            What::Fast(Fast::Secure { a: 0, counter: 255 }),
            "03 7 secure 000 FF",
        ),
        (
            What::Fast(Fast::Secure {
                a: 4_095,
                counter: 0,
            }),
            "03 7 secure FFF 00",
        ),
        (
            What::Fast(Fast::Split { a: 0, b: 255 }),
            "03 7 split 0000 FF",
        ),
        (
            What::Fast(Fast::Split { a: 65_535, b: 0 }),
            "03 7 split FFFF 00",
        ),
        (
            What::Counter {
                before: 0,
                now: 255,
            },
            "03 7 counter 00 FF",
        ),
        (
            What::Counter {
                before: 255,
                now: 1,
            },
            "03 7 counter FF 01",
        ),
        (What::Short { id: 0, value: 255 }, "03 7 short 0 FF"),
        (What::Short { id: 15, value: 0 }, "03 7 short F 00"),
        (
            What::Enhanced {
                id: 0,
                value: 4_095,
                wide: false,
            },
            "03 7 enhanced8 00 FFF",
        ),
        (
            What::Enhanced {
                id: 255,
                value: 0,
                wide: false,
            },
            "03 7 enhanced8 FF 000",
        ),
        (
            What::Enhanced {
                id: 0,
                value: 65_535,
                wide: true,
            },
            "03 7 enhanced4 0 FFFF",
        ),
        (
            What::Enhanced {
                id: 15,
                value: 0,
                wide: true,
            },
            "03 7 enhanced4 F 0000",
        ),
        (
            What::Answer {
                code: 0,
                frame: frame(&rt, 0, &[0]),
            },
            "03 7 answer 0 0 0",
        ),
        (
            What::Answer {
                code: 7,
                frame: frame(&rt, 15, &all),
            },
            "03 7 answer 7 F FFFFFF",
        ),
        (What::NoAnswer { code: 0 }, "03 7 noanswer 0"),
        (What::NoAnswer { code: 7 }, "03 7 noanswer 7"),
        (burst(None, none, None), "03 7 psi5 - 0 0 0 000 000000 -"),
        (
            burst(None, (3, 15, 3, 4_095, 16_777_215), None),
            "03 7 psi5 - 3 F 3 FFF FFFFFF -",
        ),
        (
            burst(None, (1, 10, 2, 11, 12), None),
            "03 7 psi5 - 1 A 2 00B 00000C -",
        ),
        (
            burst(Some(0), (0, 0, 0, 0, 0x1E7), Some(Code::Ready)),
            "03 7 psi5 0 0 0 0 000 0001E7 ready",
        ),
        (
            burst(Some(1), (0, 0, 0, 0, 0x1E7), Some(Code::Ready)),
            "03 7 psi5 1 0 0 0 000 0001E7 ready",
        ),
        (What::Block { id: 1, value: 0 }, "03 7 init 1 0"),
        (What::Block { id: 16, value: 15 }, "03 7 init 16 F"),
        (What::Done { blocks: 0 }, "03 7 initdone 0"),
        (
            What::Done { blocks: u64::MAX },
            "03 7 initdone 18446744073709551615",
        ),
        (down(0, 0, 0, 0), "03 7 down 0 0 000 000"),
        (down(7, 7, 511, 511), "03 7 down 7 7 1FF 1FF"),
        (down(3, 2, 0, 511), "03 7 down 3 2 000 1FF"),
        (down(1, 6, 10, 0), "03 7 down 1 6 00A 000"),
        (What::Bad(Rule::Check), "03 7 bad Check"),
        (What::Gap { count: 1 }, "03 7 gap 1"),
        (
            What::Gap { count: u64::MAX },
            "03 7 gap 18446744073709551615",
        ),
    ] {
        expect_line(&rt, 3, 7, &what, line);
    }
    for (code, line) in [
        (Code::Signal(0), "01 25 psi5 - 0 0 0 000 000000 signal 0"),
        (
            Code::Signal(480),
            "01 25 psi5 - 0 0 0 000 000000 signal 480",
        ),
        (Code::Signal(-1), "01 25 psi5 - 0 0 0 000 000000 signal -1"),
        (
            Code::Signal(-480),
            "01 25 psi5 - 0 0 0 000 000000 signal -480",
        ),
        (Code::Block(1), "01 25 psi5 - 0 0 0 000 000000 block 1"),
        (Code::Block(16), "01 25 psi5 - 0 0 0 000 000000 block 16"),
        (Code::Value(0), "01 25 psi5 - 0 0 0 000 000000 value 0"),
        (Code::Value(15), "01 25 psi5 - 0 0 0 000 000000 value F"),
        (Code::Ready, "01 25 psi5 - 0 0 0 000 000000 ready"),
        (Code::Busy, "01 25 psi5 - 0 0 0 000 000000 busy"),
        (Code::Defect, "01 25 psi5 - 0 0 0 000 000000 defect"),
        (
            Code::Reserved(0),
            "01 25 psi5 - 0 0 0 000 000000 reserved 000",
        ),
        (
            Code::Reserved(0x1E7),
            "01 25 psi5 - 0 0 0 000 000000 reserved 1E7",
        ),
        (
            Code::Reserved(0x3FF),
            "01 25 psi5 - 0 0 0 000 000000 reserved 3FF",
        ),
    ] {
        expect_line(&rt, 1, 25, &burst(None, none, Some(code)), line);
    }
}

/// A downlink frame of these values.
fn down(address: u8, function: u8, register: u16, value: u16) -> What {
    What::Down(Down {
        address,
        function,
        register,
        value,
    })
}

#[test]
fn totals_are_told_from_none_to_the_greatest(rt: HostRuntime) {
    let most = Tally {
        good: u64::MAX,
        bad: 2,
        messages: 30,
        gaps: 400,
        lost: 5_000,
    };
    let greatest = "15 total good 18446744073709551615 bad 2 messages 30 gaps 400 lost 5000";
    let none = "00 total good 0 bad 0 messages 0 gaps 0 lost 0";
    for (channel, tally, line) in [(0, Tally::new(), none), (15, most, greatest)] {
        let mut text = ArrayString::new();
        write_total(channel.min(15), &tally, &mut text);
        assert_eq!(rt; text.as_str(), line);
    }
}
