//! Texts that are no line of a report: the first fault from the left.

use report_text::{TextFault, read_report};

// Each constant holds texts, with | between two.

/// A field that is needed is missing or empty, or a word is none of the table.
const WORDS: &str =
    "| |00|00 |00  19 gap 1| 00 19 gap 1|00 19|00 19 |00 19  gap 1|00 19 gap|00 19 gap \
    |00 19 frame|00 19 frame 0|00 19 frame 0 |00 19 frame  0|00 19 one|00 19 two 000\
    |00 19 secure 000|00 19 split 0000|00 19 counter 00|00 19 short 0|00 19 enhanced8 00\
    |00 19 enhanced4 0|00 19 bad|00 19 bad |00 19 raw|00 19 Frame 0 0|00 19 fram 0 0\
    |00 19 frames 0 0|00 19 enhanced 0|00 19 total|00 19 bad check|00 19 bad Chec\
    |00 19 bad Checks|00 19 bad 4|00 19 Gap 1|00 1 psi5|00 1 psi5 |00 1 psi5 -|00 1 psi5 - 0\
    |00 1 psi5 - 0 0|00 1 psi5 - 0 0 0|00 1 psi5 - 0 0 0 000|00 1 psi5 - 0 0 0 000 000000\
    |00 1 psi5 - 0 0 0 000 000000 |00 1 psi5 - 0 0 0 000 000000 none\
    |00 1 psi5 - 0 0 0 000 000000 Ready|00 1 psi5 - 0 0 0 000 000000 signals 1\
    |00 1 psi5 - 0 0 0 000 000000 signal|00 1 psi5 - 0 0 0 000 000000 signal \
    |00 1 psi5 - 0 0 0 000 000000 block|00 1 psi5 - 0 0 0 000 000000 value\
    |00 1 psi5 - 0 0 0 000 000000 reserved|00 1 psi5  0 0 0 000 000000 -|00 1 init|00 1 init 1\
    |00 1 init 1 |00 1 initdone|00 1 initdone |00 19 answer|00 19 answer |00 19 answer 0\
    |00 19 answer 0 0|00 19 answer 0 0 |00 19 noanswer|00 19 noanswer |00 19 no answer 0\
    |00 19 Answer 0 0 0|00 19 down|00 19 down 0|00 19 down 0 0|00 19 down 0 0 000\
    |00 19 down 0 0  000|00 19 downs 0 0 000 000|00 19 bad Check\n";

/// A number is misspelled; an LF is no part of a line, and a total line is no report.
const NUMBERS: &str =
    "0 19 gap 1|000 19 gap 1|0A 19 gap 1|A0 19 gap 1|-1 19 gap 1|1/ 19 gap 1|1: 19 gap 1\
    |00 019 gap 1|00 00 gap 1|00 +1 gap 1|00 -0 gap 1|00 1x gap 1|00 99999999999999999999x gap 1\
    |00 019999999999999999999 gap 1|00 19 gap 01|00 19 gap 00|00 19 gap -1|00 19 gap A\
    |00 19 frame G 0|00 19 frame 00 0|00 19 frame a 0|00 19 frame / 0|00 19 frame : 0\
    |00 19 frame @ 0|00 19 frame 0 0000000|00 19 frame 0 abcdef|00 19 frame 0 00000G\
    |00 19 one 00|00 19 one 0000|00 19 one fff|00 19 two 00 000|00 19 two 000 0000\
    |00 19 secure 0 00|00 19 secure 000 0|00 19 split 000 00|00 19 split 0000 000\
    |00 19 counter 0 00|00 19 counter 00 0|00 19 short 00 00|00 19 short 0 0\
    |00 19 enhanced8 0 000|00 19 enhanced8 00 0000|00 19 enhanced4 00 0000|00 19 enhanced4 0 000\
    |00 19 enhanced4 0 000g|00 1 psi5 12 0 0 0 000 000000 -|00 1 psi5 00 0 0 0 000 000000 -\
    |00 1 psi5 -- 0 0 0 000 000000 -|00 1 psi5 -1 0 0 0 000 000000 -\
    |00 1 psi5 A 0 0 0 000 000000 -|00 1 psi5 - 00 0 0 000 000000 -\
    |00 1 psi5 - 0 00 0 000 000000 -|00 1 psi5 - 0 0 g 000 000000 -\
    |00 1 psi5 - 0 0 0 00 000000 -|00 1 psi5 - 0 0 0 000 00000 -|00 1 psi5 - 0 0 0 000 0000000 -\
    |00 1 psi5 - 0 0 0 000 00000a -|00 1 psi5 - 0 0 0 000 000000 signal -0\
    |00 1 psi5 - 0 0 0 000 000000 signal -|00 1 psi5 - 0 0 0 000 000000 signal --1\
    |00 1 psi5 - 0 0 0 000 000000 signal +1|00 1 psi5 - 0 0 0 000 000000 signal 00\
    |00 1 psi5 - 0 0 0 000 000000 signal 0480|00 1 psi5 - 0 0 0 000 000000 signal -01\
    |00 1 psi5 - 0 0 0 000 000000 block 01|00 1 psi5 - 0 0 0 000 000000 block -1\
    |00 1 psi5 - 0 0 0 000 000000 value 10|00 1 psi5 - 0 0 0 000 000000 value f\
    |00 1 psi5 - 0 0 0 000 000000 reserved 1E|00 1 psi5 - 0 0 0 000 000000 reserved 1e7\
    |00 1 init 01 0|00 1 init done 1|00 1 init 1 00|00 1 init 1 -|00 1 initdone 00\
    |00 1 initdone -1|00 19 answer 00 0 0|00 19 answer A 0 0|00 19 answer - 0 0\
    |00 19 answer 08 0 0|00 19 answer 0 00 0|00 19 answer 0 g 0|00 19 answer 0 0 0000000\
    |00 19 noanswer 00|00 19 noanswer x|00 19 down 00 0 000 000|00 19 down 0 x 000 000\
    |00 19 down 0 0 00 000|00 19 down 0 0 0000 000|00 19 down 0 0 1ff 000|00 19 down 0 0 000 00\
    |00 19 gap 1\n|00 19 one 000\n|00 total good 0 bad 0 messages 0 gaps 0 lost 0";

/// A number is outside its range.
const RANGES: &str =
    "16 19 gap 1|99 19 gap 1|20 x|00 18446744073709551616 gap 1|00 99999999999999999999 gap 1\
    |00 184467440737095516150 gap 1|00 19 gap 0|00 19 gap 18446744073709551616|00 19 gap 0 \
    |00 1 psi5 8 0 0 0 000 000000 -|00 1 psi5 9 0 0 0 000 000000 -|00 1 psi5 8 x\
    |00 1 psi5 - 4 0 0 000 000000 -|00 1 psi5 - F 0 0 000 000000 -\
    |00 1 psi5 - 0 0 4 000 000000 -|00 1 psi5 - 0 0 0 000 000000 signal 481\
    |00 1 psi5 - 0 0 0 000 000000 signal -481\
    |00 1 psi5 - 0 0 0 000 000000 signal 18446744073709551616\
    |00 1 psi5 - 0 0 0 000 000000 signal -18446744073709551616\
    |00 1 psi5 - 0 0 0 000 000000 block 0|00 1 psi5 - 0 0 0 000 000000 block 17\
    |00 1 psi5 - 0 0 0 000 000000 reserved 400|00 1 psi5 - 0 0 0 000 000000 reserved FFF\
    |00 1 init 0 0|00 1 init 17 0|00 1 init 256 x|00 1 initdone 18446744073709551616\
    |00 19 answer 8 0 0|00 19 answer 10 x 0|00 19 answer 18446744073709551616 0 0\
    |00 19 noanswer 8|00 19 noanswer 256|00 19 down 8 0 000 000|00 19 down 0 8 000 000\
    |00 19 down 0 0 200 000|00 19 down 0 0 FFF x|00 19 down 0 0 000 200";

/// The text goes on behind its last field.
const ENDS: &str =
    "00 19 gap 1 |00 19 gap 1 1|00 19 gap 1  |00 19 frame 0 000000 |00 19 one 000 000\
    |00 19 two 000 000 |00 19 secure 000 00 00|00 19 split 0000 00 |00 19 counter 00 00 00\
    |00 19 short 0 00 0|00 19 enhanced8 00 000 |00 19 enhanced4 0 0000 0|00 19 bad Check \
    |00 19 bad Check 4|00 1 psi5 - 0 0 0 000 000000 - |00 1 psi5 - 0 0 0 000 000000 - 0\
    |00 1 psi5 - 0 0 0 000 000000 ready |00 1 psi5 - 0 0 0 000 000000 busy 0\
    |00 1 psi5 - 0 0 0 000 000000 signal 0 0|00 1 psi5 - 0 0 0 000 000000 reserved 000 -\
    |00 1 init 1 0 |00 1 init 1 0 0|00 1 initdone 1 |00 1 initdone 1 1|00 19 answer 0 0 0 \
    |00 19 answer 0 0 0 0|00 19 noanswer 0 |00 19 noanswer 0 0 0|00 19 down 0 0 000 000 \
    |00 19 down 0 0 000 000 000";

#[test]
fn a_text_that_is_no_line_of_a_report_has_its_first_fault(rt: HostRuntime) {
    for (fault, texts) in [
        (TextFault::Word, WORDS),
        (TextFault::Number, NUMBERS),
        (TextFault::Range, RANGES),
        (TextFault::End, ENDS),
    ] {
        for text in texts.split('|') {
            assert_eq!(rt; read_report(text), Err(fault), "{text}");
        }
    }
}
