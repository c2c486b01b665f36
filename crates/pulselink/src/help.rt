//! The text of `--help`.

/// The commands, the keys of a SPEC, the input, the statuses and examples.
pub const HELP: &str = "\
pulselink: decodes edge lists of automotive sensor links

usage: pulselink decode SPEC.. < FILE
       pulselink check SPEC.. < FILE
       pulselink simulate SEED SPEC < MESSAGES
       pulselink loop SEED COUNT SPEC
       pulselink --help | -h
       pulselink --version | -V

The input comes from standard input: < FILE, or a pipe.
decode writes a line for each frame, answer, burst, value, message and violated
rule, and then a total line for each channel; check writes the total lines alone.
simulate writes the edges of a sensor that sends the messages of its input.
loop sends COUNT messages that it draws itself, decodes them, and writes a line:
  sent N good G bad B edges E last T thinned good H bad C
T is the time of the last edge in ns; H and C are counted with 50 edges of each
thousand lost.

SPEC names a channel: a kind, a colon, and pairs KEY=VALUE with commas between.
There are 1 to 16 SPECs; the first is channel 00. Channels may share a line.
simulate and loop take one SPEC, and before it SEED, a number below 2^64 that
decides how ticks drift and how far edges are off. COUNT is 0 to 100000.
  sent:line=N   a SENT channel (SAE J2716); its keys, and their defaults:
    line      0 to 15                                  must be there
    tick      3000 to 90000, in ns                     3000
    jitter    1 to 9000, in ns, at most tick/10        tick/10
    nibbles   1 to 6 data nibbles                      6
    pause     no, yes: a pause pulse after each frame  no
    crc       new, legacy: the recommended CRC-4, or   new
              the legacy one
    layout    raw, one12 (3 nibbles), two12, secure12  raw
              and split16_8 (6 nibbles)
    serial    none, short, enhanced                    none
  spc:line=N    an SPC channel, a trigger and its answer; times in tenths of a tick:
    line, tick, jitter, nibbles and crc are as for sent
    cover     data, status: the CRC covers the data    data
              nibbles alone, or the status too
    windows   1 to 8 spans LOW-HIGH with / between,    100-160/210-290/
              10 to 2000: the widths of the triggers   350-450/520-660
    delay     a span LOW-HIGH, from 10, below quiet:   40-400
              from the trigger to its answer
    quiet     700 to 10000: high before a trigger      800
  psi5:line=N   a PSI5 channel, one sensor or a bus (PSI5 V2.1):
    line      0 to 15                                  must be there
    rate      125, 189: kbit/s                         125
    jitter    1 to 500, in ns, at most bit/16          bit/16
    m         0, 2: bits of messaging                  0
    f         0 to 4: bits of frame control            0
    s         0 to 2: bits of status                   0
    b         0 to 12: bits of data B                  0
    a         10 to 24: bits of data A; at most 28 in  10
              all five parts
    check     parity, crc: one bit, or the CRC-3       parity
    sync      0 to 15: the line of the sync pulses;    no slots
              with slots
    slots     1 to 8 spans LOW-HIGH with / between,    no slots
              in ns from a sync pulse to a burst
    init      1 to 16: how often each block is         not read
              sent at the start; with a=10
  tooth:line=N  the tooth-gap downlink, in the gaps of PSI5 sync pulses:
    line      0 to 15                                  must be there
    period    10000 to 10000000, in ns                 500000
    jitter    1 to 625000, in ns, at most period/16    period/16
    form      short, long, xlong                       short

FILE is an edge list, with at most 512 bytes a line:
  narrow   TIME,LINE,LEVEL          a time in ns, a line 0 to 15, a level 0 or 1
  wide     Time [s],NAME,NAME..     a header, then a time in seconds with up to
           TIME,LEVEL,LEVEL..       9 decimals and a level for each line
  version 2: line 1 is `# version 2 unit=Uns`, with U from 1 to 1000000; a
           narrow row's time counts units, or is +N, units since the row before
MESSAGES has a message a line, by the kind and the keys of SPEC. CODE, SLOT, and
A and F of down are decimal, all other fields hexadecimal:
  sent   frame S N                     a status and the data nibbles
         short I VV, enhanced8 II VVV, enhanced4 I VVVV   with serial
  spc    answer CODE S N, silent CODE
  psi5   burst - M F S BBB AAAAAA      without slots
         sync, burst SLOT M F S BBB AAAAAA   with slots
  tooth  down A F RRR VVV              address, function, register, value
Lines end by LF or CRLF. Empty lines and lines that begin with # are skipped.

statuses
  0   all was read and written, no rule was violated, no counter jumped and each
      SPC trigger was answered; of simulate and loop, all was written
  1   all was read and written, and a rule was violated, a counter jumped or an
      SPC trigger wasn't answered
  2   the words are faulty               word K: FAULT
  3   a line of the input is faulty      input line N: FAULT
  4   reading failed                     read fault
  5   writing failed                     write fault
  6   there is no memory                 out of memory

faults of a word
  Missing       a command, a SPEC after it, SEED or COUNT has to be there
  Command       the first word is no command, or a word isn't UTF-8
  Kind          no colon, or no kind of channel before it
  Key           no such key, or it was given before, or it has no =
  Value         the value, SEED or COUNT is out of its range
  Absent        a key that must be there isn't
  Setup         the values don't go together
  Channels      the seventeenth SPEC
  Extra         a word behind the SPEC of simulate or loop
  NotBuilt      not built yet
faults of a line of the input
  Field         a wrong number of fields, or a bad header
  Number        the time or the line is no number in its form; simulate: a field
                of a message isn't in its spelling
  Line          a line above 15
  Level         neither 0 nor 1
  TimeBack      earlier than the row before
  TooLarge      a time above 10^15 ns; simulate: a value that doesn't fit, or a
                message that ends above 9 * 10^14 ns
  LineTooLong   more than 512 bytes
  InputTooLong  2^36 bytes or more
  Order         simulate: a message that may not come at its place
  Version       line 1 is no version line
docs/GLOSSARY.md says what to do about each, and about each violated rule.

examples, in the folder of the repository
  pulselink decode sent:line=0 < examples/three_frames.txt
  pulselink decode psi5:line=1 < examples/psi5_bursts.txt
  pulselink check sent:line=0,layout=two12 < examples/saleae.csv
  pulselink simulate 7 spc:line=0 < examples/messages_spc.txt
  pulselink loop 1 1000 sent:line=0,serial=enhanced,pause=yes
";
