//! A list of channels: each edge is handed to each of them in order, and what they tell is written.
ghost use Rattle.std.specs.Prelude.{◌≡◌, ◌+◌, ◌^◌, ◌<◌, ◌≤◌, ◌++◌, [], ◌∷◌, List, false, None, All, IfOk, OnOk, OnErr, length, take};
ghost use Rattle.line_base.specs.Causes.{HasCause};
ghost use Rattle.line_base.specs.declared.edge.Edge.{Edge};
ghost use Rattle.receiver_core.specs.Setups.{reads_line, setup_fault_of};
ghost use Rattle.receiver_core.specs.declared.setup.ChannelSetup.{ChannelSetup};
ghost use Rattle.report_text.specs.Reports.{lines_of, report_line};
ghost use Rattle.report_text.specs.Totals.{total_line};
ghost use Rattle.decode_command.specs.Channels.{edge_lines, end_lines, final_on, has_marks, is_marked, reports_added, reports_of_end, told_lines, total_lines};
ghost use Rattle.decode_command.specs.Followed.{AllCounted, AllFollow, Follows, setups_of};
ghost use Rattle.receiver_core.specs.Tallies.{tally_of};
ghost use Rattle.decode_command.specs.Writes.{Takes, TakesFront};

use crate::channel::{hand_edge, hand_end};
use crate::gathered::Gathered;
use arrayvec::{ArrayString, ArrayVec};
use line_base::{Edge, Failed, Sink};
use receiver_core::{ChannelSetup, CountedReceiver, Report, Tally};
use report_text::{LINE_ROOM, TOTAL_ROOM, write_report, write_total};
use std::alloc::{AllocError, Global};

/// Channels of these setups, none of which has a fault, that have taken no edge; or the error where there is
/// no memory for them.
pub fn channels_of(
    alloc: Global,
    setups: &[ChannelSetup],
) -> Result<Vec<CountedReceiver>, AllocError>
    requires { All (λ setup. setup_fault_of setup ≡ None) setups.now }
    ensures setups { IfOk result (λ channels. setups_of channels.items ≡ setups.now) }
    ensures follow { IfOk result (λ channels. AllFollow channels.items []) }
{
    let mut channels = Vec::with_capacity(alloc, setups.len())?;
    let mut rest = setups;
    'setups: while let Some((setup, others)) = rest.split_first() {
        channels.push(CountedReceiver::new(setup))?;
        rest = others;
    }
    Ok(channels)
}

/// Writes the line of a report of the channel with this number, 0 to 15.
#[tactic(auto, unfolding(report_text::specs::Reports::report_line))]
fn write_line<K: Sink>(
    number: u8,
    report: &Report,
    text: &mut Gathered,
    out: &mut K,
) -> Result<(), Failed>
    requires { number < 16 }
    ensures written { OnOk result (Takes (record { got = K.got out.old; gathered = text.old }) (record { got = K.got out.new; gathered = text.new }) (report_line number report.now)) }
    ensures cut { OnErr result (TakesFront (record { got = K.got out.old; gathered = text.old }) (K.got out.new) (report_line number report.now)) }
    ensures cause { HasCause (K.faults out.old) (K.faults out.new) result }
{
    let mut line = ArrayString::<LINE_ROOM>::new();
    write_report(number, report, &mut line);
    line.push('\n');
    text.add(line.as_str().as_bytes(), out)
}

/// Writes the total line of the channel with this number, 0 to 15.
#[tactic(auto, unfolding(report_text::specs::Totals::total_line))]
fn write_total_line<K: Sink>(
    number: u8,
    tally: &Tally,
    text: &mut Gathered,
    out: &mut K,
) -> Result<(), Failed>
    requires { number < 16 }
    ensures written { OnOk result (Takes (record { got = K.got out.old; gathered = text.old }) (record { got = K.got out.new; gathered = text.new }) (total_line number tally.now)) }
    ensures cut { OnErr result (TakesFront (record { got = K.got out.old; gathered = text.old }) (K.got out.new) (total_line number tally.now)) }
    ensures cause { HasCause (K.faults out.old) (K.faults out.new) result }
{
    let mut line = ArrayString::<TOTAL_ROOM>::new();
    write_total(number, tally, &mut line);
    line.push('\n');
    text.add(line.as_str().as_bytes(), out)
}

/// Writes the lines of these reports of the channel with this number, 0 to 15.
fn write_reports<K: Sink>(
    number: u8,
    reports: &[Report],
    text: &mut Gathered,
    out: &mut K,
) -> Result<(), Failed>
    requires { number < 16 }
    ensures written { OnOk result (Takes (record { got = K.got out.old; gathered = text.old }) (record { got = K.got out.new; gathered = text.new }) (lines_of number reports.now)) }
    ensures cut { OnErr result (TakesFront (record { got = K.got out.old; gathered = text.old }) (K.got out.new) (lines_of number reports.now)) }
    ensures cause { HasCause (K.faults out.old) (K.faults out.new) result }
{
    match reports.split_first() {
        None => Ok(()),
        Some((report, others)) => {
            write_line(number, report, text, out)?;
            write_reports(number, others, text, out)
        }
    }
}

/// Writes the lines of reports, where lines are told, and drops the reports.
fn tell<K: Sink>(
    told: bool,
    number: u8,
    reports: &mut ArrayVec<Report, 8>,
    text: &mut Gathered,
    out: &mut K,
) -> Result<(), Failed>
    requires { number < 16 }
    ensures dropped { reports.new.items ≡ [] }
    ensures written { OnOk result (Takes (record { got = K.got out.old; gathered = text.old }) (record { got = K.got out.new; gathered = text.new }) (told_lines told (lines_of number reports.old.items))) }
    ensures cut { OnErr result (TakesFront (record { got = K.got out.old; gathered = text.old }) (K.got out.new) (told_lines told (lines_of number reports.old.items))) }
    ensures cause { HasCause (K.faults out.old) (K.faults out.new) result }
{
    if !told {
        reports.clear();
        return Ok(());
    }
    let result = write_reports(number, reports.as_slice(), text, out);
    reports.clear();
    result
}

/// Hands the next edge of the list to the channel with this number, and writes the lines of what it reports.
#[inline(always)]
fn take_edge_on<K: Sink>(
    channel: &mut CountedReceiver,
    told: bool,
    number: u8,
    edge: Edge,
    reports: &mut ArrayVec<Report, 8>,
    text: &mut Gathered,
    out: &mut K,
) -> Result<(), Failed>
    requires number { number < 16 }
    requires in_range { edge.time ≤ 10 ^ 15 }
    requires empty { reports.old.items ≡ [] }
    requires follows { (edges : List Edge) × Follows channel.old edges × (length edges < 2 ^ 60) }
    ensures setup { channel.new.setup ≡ channel.old.setup }
    ensures empty { reports.new.items ≡ [] }
    ensures follows { (edges : List Edge) → Follows channel.old edges → Follows channel.new (edges ++ edge ∷ []) }
    ensures written { OnOk result ((edges : List Edge) → Follows channel.old edges
        → Takes (record { got = K.got out.old; gathered = text.old }) (record { got = K.got out.new; gathered = text.new }) (told_lines told (lines_of number (reports_added channel.old.setup edges edge)))) }
    ensures cut { OnErr result ((edges : List Edge) → Follows channel.old edges
        → TakesFront (record { got = K.got out.old; gathered = text.old }) (K.got out.new) (told_lines told (lines_of number (reports_added channel.old.setup edges edge)))) }
    ensures cause { HasCause (K.faults out.old) (K.faults out.new) result }
{
    hand_edge(channel, edge, reports);
    if reports.is_empty() {
        return Ok(());
    }
    tell(told, number, reports, text, out)
}

/// Hands the end to the channel with this number, and writes the lines of what it reports.
fn take_end_on<K: Sink>(
    channel: &mut CountedReceiver,
    told: bool,
    number: u8,
    reports: &mut ArrayVec<Report, 8>,
    text: &mut Gathered,
    out: &mut K,
) -> Result<(), Failed>
    requires number { number < 16 }
    requires empty { reports.old.items ≡ [] }
    requires follows { (edges : List Edge) × Follows channel.old edges × (length edges < 2 ^ 60) }
    ensures setup { channel.new.setup ≡ channel.old.setup }
    ensures empty { reports.new.items ≡ [] }
    ensures counted { (edges : List Edge) → Follows channel.old edges → channel.new.tally ≡ tally_of (final_on channel.old.setup edges) }
    ensures written { OnOk result ((edges : List Edge) → Follows channel.old edges
        → Takes (record { got = K.got out.old; gathered = text.old }) (record { got = K.got out.new; gathered = text.new }) (told_lines told (lines_of number (reports_of_end channel.old.setup edges)))) }
    ensures cut { OnErr result ((edges : List Edge) → Follows channel.old edges
        → TakesFront (record { got = K.got out.old; gathered = text.old }) (K.got out.new) (told_lines told (lines_of number (reports_of_end channel.old.setup edges)))) }
    ensures cause { HasCause (K.faults out.old) (K.faults out.new) result }
{
    hand_end(channel, reports);
    tell(told, number, reports, text, out)
}

/// How many of these channels, from the first on, read other lines than this.
fn passed_over(channels: &[CountedReceiver], line: u8) -> usize
    ensures fits { result ≤ length channels.now }
    ensures others { All (λ channel. reads_line channel.setup line ≡ false) (take result channels.now) }
{
    let mut count = 0;
    let mut rest = channels;
    'channels: while let Some((channel, others)) = rest.split_first() {
        if channel.setup.reads(line) {
            break 'channels;
        }
        count += 1;
        rest = others;
    }
    count
}

/// Hands the next edge of the list to each of these channels in order, of which the first has this number,
/// and writes the lines of what they report. Most channels read other lines: those are passed over.
fn take_edge_from<K: Sink>(
    channels: &mut [CountedReceiver],
    told: bool,
    number: u8,
    edge: Edge,
    reports: &mut ArrayVec<Report, 8>,
    text: &mut Gathered,
    out: &mut K,
) -> Result<(), Failed>
    requires few { number + length channels.old ≤ 16 }
    requires in_range { edge.time ≤ 10 ^ 15 }
    requires empty { reports.old.items ≡ [] }
    requires follow { (edges : List Edge) × AllFollow channels.old edges × (length edges < 2 ^ 60) }
    ensures setups { setups_of channels.new ≡ setups_of channels.old }
    ensures empty { reports.new.items ≡ [] }
    ensures follow { OnOk result ((edges : List Edge) → AllFollow channels.old edges → AllFollow channels.new (edges ++ edge ∷ [])) }
    ensures written { OnOk result ((edges : List Edge) → AllFollow channels.old edges
        → Takes (record { got = K.got out.old; gathered = text.old }) (record { got = K.got out.new; gathered = text.new }) (told_lines told (edge_lines number (setups_of channels.old) edges edge))) }
    ensures cut { OnErr result ((edges : List Edge) → AllFollow channels.old edges
        → TakesFront (record { got = K.got out.old; gathered = text.old }) (K.got out.new) (told_lines told (edge_lines number (setups_of channels.old) edges edge))) }
    ensures cause { HasCause (K.faults out.old) (K.faults out.new) result }
{
    let passed = passed_over(channels, edge.line);
    let (_, reading) = channels.split_at_mut(passed);
    let next = number + passed as u8;
    match reading.split_first_mut() {
        None => Ok(()),
        Some((channel, others)) => {
            take_edge_on(channel, told, next, edge, reports, text, out)?;
            take_edge_from(others, told, next + 1, edge, reports, text, out)
        }
    }
}

/// Hands the next edge of the list to each of these channels in order, of which the first has number 1, and
/// writes the lines of what they report. They get an edge of their own, so that none has to be kept in memory
/// where channel 0 is the only one.
#[inline(always)]
fn take_edge_by_others<K: Sink>(
    others: &mut [CountedReceiver],
    told: bool,
    edge: Edge,
    reports: &mut ArrayVec<Report, 8>,
    text: &mut Gathered,
    out: &mut K,
) -> Result<(), Failed>
    requires few { 1 + length others.old ≤ 16 }
    requires in_range { edge.time ≤ 10 ^ 15 }
    requires empty { reports.old.items ≡ [] }
    requires follow { (edges : List Edge) × AllFollow others.old edges × (length edges < 2 ^ 60) }
    ensures setups { setups_of others.new ≡ setups_of others.old }
    ensures empty { reports.new.items ≡ [] }
    ensures follow { OnOk result ((edges : List Edge) → AllFollow others.old edges → AllFollow others.new (edges ++ edge ∷ [])) }
    ensures written { OnOk result ((edges : List Edge) → AllFollow others.old edges
        → Takes (record { got = K.got out.old; gathered = text.old }) (record { got = K.got out.new; gathered = text.new }) (told_lines told (edge_lines 1 (setups_of others.old) edges edge))) }
    ensures cut { OnErr result ((edges : List Edge) → AllFollow others.old edges
        → TakesFront (record { got = K.got out.old; gathered = text.old }) (K.got out.new) (told_lines told (edge_lines 1 (setups_of others.old) edges edge))) }
    ensures cause { HasCause (K.faults out.old) (K.faults out.new) result }
{
    let Edge { line, time, level } = edge;
    take_edge_from(
        others,
        told,
        1,
        Edge { line, time, level },
        reports,
        text,
        out,
    )
}

/// Hands the next edge of the list to each of these channels, at most 16, in order, and writes the lines of
/// what they report. Most runs have one channel: it is looked at without a call.
#[inline(always)]
pub fn take_edge<K: Sink>(
    channels: &mut [CountedReceiver],
    told: bool,
    edge: Edge,
    reports: &mut ArrayVec<Report, 8>,
    text: &mut Gathered,
    out: &mut K,
) -> Result<(), Failed>
    requires few { length channels.old ≤ 16 }
    requires in_range { edge.time ≤ 10 ^ 15 }
    requires empty { reports.old.items ≡ [] }
    requires follow { (edges : List Edge) × AllFollow channels.old edges × (length edges < 2 ^ 60) }
    ensures setups { setups_of channels.new ≡ setups_of channels.old }
    ensures empty { reports.new.items ≡ [] }
    ensures follow { OnOk result ((edges : List Edge) → AllFollow channels.old edges → AllFollow channels.new (edges ++ edge ∷ [])) }
    ensures written { OnOk result ((edges : List Edge) → AllFollow channels.old edges
        → Takes (record { got = K.got out.old; gathered = text.old }) (record { got = K.got out.new; gathered = text.new }) (told_lines told (edge_lines 0 (setups_of channels.old) edges edge))) }
    ensures cut { OnErr result ((edges : List Edge) → AllFollow channels.old edges
        → TakesFront (record { got = K.got out.old; gathered = text.old }) (K.got out.new) (told_lines told (edge_lines 0 (setups_of channels.old) edges edge))) }
    ensures cause { HasCause (K.faults out.old) (K.faults out.new) result }
{
    match channels.split_first_mut() {
        None => Ok(()),
        Some((channel, others)) => {
            take_edge_on(channel, told, 0, edge, reports, text, out)?;
            if others.is_empty() {
                return Ok(());
            }
            take_edge_by_others(others, told, edge, reports, text, out)
        }
    }
}

/// Hands the end to each of these channels in order, of which the first has this number, and writes the
/// lines of what they report.
pub fn take_end<K: Sink>(
    channels: &mut [CountedReceiver],
    told: bool,
    number: u8,
    reports: &mut ArrayVec<Report, 8>,
    text: &mut Gathered,
    out: &mut K,
) -> Result<(), Failed>
    requires few { number + length channels.old ≤ 16 }
    requires empty { reports.old.items ≡ [] }
    requires follow { (edges : List Edge) × AllFollow channels.old edges × (length edges < 2 ^ 60) }
    ensures setups { setups_of channels.new ≡ setups_of channels.old }
    ensures empty { reports.new.items ≡ [] }
    ensures counted { OnOk result ((edges : List Edge) → AllFollow channels.old edges → AllCounted channels.new edges) }
    ensures written { OnOk result ((edges : List Edge) → AllFollow channels.old edges
        → Takes (record { got = K.got out.old; gathered = text.old }) (record { got = K.got out.new; gathered = text.new }) (told_lines told (end_lines number (setups_of channels.old) edges))) }
    ensures cut { OnErr result ((edges : List Edge) → AllFollow channels.old edges
        → TakesFront (record { got = K.got out.old; gathered = text.old }) (K.got out.new) (told_lines told (end_lines number (setups_of channels.old) edges))) }
    ensures cause { HasCause (K.faults out.old) (K.faults out.new) result }
{
    match channels.split_first_mut() {
        None => Ok(()),
        Some((channel, others)) => {
            take_end_on(channel, told, number, reports, text, out)?;
            take_end(others, told, number + 1, reports, text, out)
        }
    }
}

/// Writes the total line of each of these channels in order, of which the first has this number.
pub fn write_totals<K: Sink>(
    channels: &[CountedReceiver],
    number: u8,
    text: &mut Gathered,
    out: &mut K,
) -> Result<(), Failed>
    requires { number + length channels.now ≤ 16 }
    ensures written { OnOk result ((edges : List Edge) → AllCounted channels.now edges
        → Takes (record { got = K.got out.old; gathered = text.old }) (record { got = K.got out.new; gathered = text.new }) (total_lines number (setups_of channels.now) edges)) }
    ensures cut { OnErr result ((edges : List Edge) → AllCounted channels.now edges
        → TakesFront (record { got = K.got out.old; gathered = text.old }) (K.got out.new) (total_lines number (setups_of channels.now) edges)) }
    ensures cause { HasCause (K.faults out.old) (K.faults out.new) result }
{
    match channels.split_first() {
        None => Ok(()),
        Some((channel, others)) => {
            write_total_line(number, &channel.tally, text, out)?;
            write_totals(others, number + 1, text, out)
        }
    }
}

/// Hands the end to these channels, at most 16, writes the lines of what they report and their total lines,
/// and puts all that is gathered.
pub fn put_end<K: Sink>(
    channels: &mut [CountedReceiver],
    told: bool,
    reports: &mut ArrayVec<Report, 8>,
    text: &mut Gathered,
    out: &mut K,
) -> Result<(), Failed>
    requires few { length channels.old ≤ 16 }
    requires empty { reports.old.items ≡ [] }
    requires follow { (edges : List Edge) × AllFollow channels.old edges × (length edges < 2 ^ 60) }
    ensures setups { setups_of channels.new ≡ setups_of channels.old }
    ensures empty { reports.new.items ≡ [] }
    ensures counted { OnOk result ((edges : List Edge) → AllFollow channels.old edges → AllCounted channels.new edges) }
    ensures written { OnOk result ((edges : List Edge) → AllFollow channels.old edges
        → Takes (record { got = K.got out.old; gathered = text.old }) (record { got = K.got out.new; gathered = [] }) (told_lines told (end_lines 0 (setups_of channels.old) edges) ++ total_lines 0 (setups_of channels.old) edges)) }
    ensures cut { OnErr result ((edges : List Edge) → AllFollow channels.old edges
        → TakesFront (record { got = K.got out.old; gathered = text.old }) (K.got out.new) (told_lines told (end_lines 0 (setups_of channels.old) edges) ++ total_lines 0 (setups_of channels.old) edges)) }
    ensures cause { HasCause (K.faults out.old) (K.faults out.new) result }
{
    take_end(channels, told, 0, reports, text, out)?;
    write_totals(channels, 0, text, out)?;
    text.put(out)
}

/// Whether a tally counts something bad, or a gap.
fn has_marks(tally: &Tally) -> bool
    ensures { result ≡ has_marks tally.now }
{
    tally.bad > 0 || tally.gaps > 0
}

/// Whether a channel has counted something bad, or a gap.
pub fn are_marked(channels: &[CountedReceiver]) -> bool
    ensures { (edges : List Edge) → AllCounted channels.now edges → result ≡ is_marked (setups_of channels.now) edges }
{
    match channels.split_first() {
        None => false,
        Some((channel, others)) => has_marks(&channel.tally) || are_marked(others),
    }
}
