//! A SENT channel between two gaps: frames, and what their nibbles say.
ghost use Rattle.std.specs.Prelude.{◌≡◌, ◌+◌, ◌^◌, ◌≤◌, ◌++◌, ◌<◌, [], ◌∷◌, List, ℕ, Result, true};
ghost use Rattle.line_base.specs.Edges.{NumberedEdge};
ghost use Rattle.line_base.specs.declared.rule.Rule.{Rule};
ghost use Rattle.arrayvec.specs.ArrayVec.{array_vec_len};
ghost use Rattle.sent_frame.specs.Setup.{Settings};
ghost use Rattle.sent_frame.specs.Reading.{sent_reading};
ghost use Rattle.receiver_core.specs.Setups.{nibbles_fit};
ghost use Rattle.receiver_core.specs.declared.setup.Serial.{Serial};
ghost use Rattle.receiver_core.specs.Serials.{SerialStandsFor};
ghost use Rattle.receiver_core.specs.SentReports.{counter_reports, value_reports, watch_after, serial_report, serial_reports, step_reports, watch_past_step, statuses_past_step, sent_reports, IsReadable};

use crate::report::{Report, What};
use crate::serial::SerialReader;
use crate::setup::Serial;
use arrayvec::ArrayVec;
use line_base::{Edge, Rule};
use sent_fast::{CounterWatch, Fast, Layout, unpack};
use sent_frame::{SentReader, SentSetup, SentStep};
use sent_serial::SerialStep;

/// Reads one stretch of a SENT line's edges at a time: the frames, their values in the layout, the counter
/// from frame to frame, and the serial messages of the statuses. After a violated rule of frames it stands
/// where the reading of frames goes on, the next counter is the first, and so is the next status.
#[derive(Debug, Drop)]
pub struct SentChannel {
    /// How the data nibbles are laid out.
    layout: Layout,
    /// Reads the frames.
    reader: SentReader,
    /// Watches the counter.
    watch: CounterWatch,
    /// Reads the serial messages.
    serial: SerialReader,
}

/// Takes the counter of a frame that ends at this place, and adds a report where it doesn't follow.
fn push_counter(
    watch: &mut CounterWatch,
    place: u64,
    counter: u8,
    reports: &mut ArrayVec<Report, 8>,
)
    requires { array_vec_len reports.old ≤ 7 }
    ensures watch { watch.new ≡ Some counter }
    ensures reports { reports.new.items ≡ reports.old.items ++ counter_reports place watch.old counter }
{
    if let Some((before, now)) = watch.push(counter) {
        reports.push(Report {
            place,
            what: What::Counter { before, now },
        });
    }
}

/// Takes what the nibbles of a frame say that ends at this place, and adds the reports of it.
fn push_value(
    watch: &mut CounterWatch,
    place: u64,
    value: Result<Fast, Rule>,
    reports: &mut ArrayVec<Report, 8>,
)
    requires { array_vec_len reports.old ≤ 6 }
    ensures watch { watch.new ≡ watch_after watch.old value }
    ensures reports { reports.new.items ≡ reports.old.items ++ value_reports place watch.old value }
{
    match value {
        Err(rule) => {
            watch.reset();
            reports.push(Report {
                place,
                what: What::Bad(rule),
            });
        }
        Ok(Fast::Raw) => {}
        Ok(Fast::Secure { a, counter }) => {
            reports.push(Report {
                place,
                what: What::Fast(Fast::Secure { a, counter }),
            });
            push_counter(watch, place, counter, reports);
        }
        Ok(value) => reports.push(Report {
            place,
            what: What::Fast(value),
        }),
    }
}

/// Adds the report, at this place, of what a status ended.
fn push_serial(place: u64, step: SerialStep, reports: &mut ArrayVec<Report, 8>)
    requires { array_vec_len reports.old ≤ 7 }
    ensures { reports.new.items ≡ reports.old.items ++ serial_report place step }
{
    let what = match step {
        SerialStep::Nothing => return,
        SerialStep::Short { id, value } => What::Short { id, value },
        SerialStep::Enhanced { id, value, wide } => What::Enhanced { id, value, wide },
        SerialStep::Bad(rule) => What::Bad(rule),
    };
    reports.push(Report { place, what });
}

/// Takes the status, 0 to 15, of a frame that ends at this place, and adds the report of what it ends.
fn push_status(serial: &mut SerialReader, place: u64, status: u8, reports: &mut ArrayVec<Report, 8>)
    requires status { status < 16 }
    requires room { array_vec_len reports.old ≤ 7 }
    ensures stands { (form : Serial) (statuses : List ℕ) → SerialStandsFor form serial.old statuses → SerialStandsFor form serial.new (statuses ++ status ∷ []) }
    ensures reports { (form : Serial) (statuses : List ℕ) → SerialStandsFor form serial.old statuses
        → reports.new.items ≡ reports.old.items ++ serial_reports form place statuses status }
{
    let step = serial.push(status);
    push_serial(place, step, reports);
}

/// Takes what an edge ended, and adds the reports of it to none.
fn push_step(
    watch: &mut CounterWatch,
    serial: &mut SerialReader,
    layout: Layout,
    step: SentStep,
    reports: &mut ArrayVec<Report, 8>,
)
    requires readable { IsReadable layout step }
    requires empty { reports.old.items ≡ [] }
    ensures watch { watch.new ≡ watch_past_step layout watch.old step }
    ensures serial { (form : Serial) (statuses : List ℕ) → SerialStandsFor form serial.old statuses → SerialStandsFor form serial.new (statuses_past_step statuses step) }
    ensures reports { (form : Serial) (statuses : List ℕ) → SerialStandsFor form serial.old statuses
        → reports.new.items ≡ step_reports layout form watch.old statuses step }
{
    match step {
        SentStep::Nothing => {}
        SentStep::Good { place, frame } => {
            reports.push(Report {
                place,
                what: What::Frame(frame),
            });
            push_value(watch, place, unpack(layout, &frame.nibbles), reports);
            push_status(serial, place, frame.status, reports);
        }
        SentStep::Bad { place, rule } => {
            watch.reset();
            serial.reset();
            reports.push(Report {
                place,
                what: What::Bad(rule),
            });
        }
    }
}

impl SentChannel {
    ghost use Rattle.receiver_core.specs.SentStretches.{StandsForStretch};

    /// A channel for this setup, this layout and these serial messages that has seen no edge. The layout has
    /// the setup's number of nibbles.
    pub fn new(setup: SentSetup, layout: Layout, serial: Serial) -> SentChannel
        requires { nibbles_fit layout setup.nibbles ≡ true }
        ensures { StandsForStretch setup layout serial result [] }
    {
        SentChannel {
            layout,
            reader: SentReader::new(setup),
            watch: CounterWatch::new(),
            serial: SerialReader::new(serial),
        }
    }

    /// Takes the next edge of the line, with its number in the channel, and adds the reports of what it
    /// ends to none. Its time is at most 10^15 ns. An edge that ends nothing is left at once.
    #[inline(always)]
    pub fn push(&mut self, number: u64, edge: Edge, reports: &mut ArrayVec<Report, 8>)
        requires in_range { edge.time ≤ 10 ^ 15 }
        requires empty { reports.old.items ≡ [] }
        requires stands { (setup : Settings) × (layout : Layout) × (serial : Serial) × (seen : List NumberedEdge) × StandsForStretch setup layout serial self.old seen }
        ensures stands { (setup : Settings) (layout : Layout) (serial : Serial) (seen : List NumberedEdge) → StandsForStretch setup layout serial self.old seen
            → StandsForStretch setup layout serial self.new (seen ++ record { number = number; edge = edge } ∷ []) }
        ensures grows { (setup : Settings) (layout : Layout) (serial : Serial) (seen : List NumberedEdge) → StandsForStretch setup layout serial self.old seen
            → sent_reports layout serial [] (sent_reading setup (seen ++ record { number = number; edge = edge } ∷ []))
            ≡ sent_reports layout serial [] (sent_reading setup seen) ++ reports.new.items }
    {
        if self.reader.passes(edge) {
            return;
        }
        // The call gets an edge of its own, so that one that is passed is never put in memory.
        let Edge { line, time, level } = edge;
        self.read(number, Edge { line, time, level }, reports);
    }

    /// The same for an edge that may end a frame or violate a rule.
    #[inline(never)]
    fn read(&mut self, number: u64, edge: Edge, reports: &mut ArrayVec<Report, 8>)
        requires in_range { edge.time ≤ 10 ^ 15 }
        requires empty { reports.old.items ≡ [] }
        requires stands { (setup : Settings) × (layout : Layout) × (serial : Serial) × (seen : List NumberedEdge) × StandsForStretch setup layout serial self.old seen }
        ensures stands { (setup : Settings) (layout : Layout) (serial : Serial) (seen : List NumberedEdge) → StandsForStretch setup layout serial self.old seen
            → StandsForStretch setup layout serial self.new (seen ++ record { number = number; edge = edge } ∷ []) }
        ensures grows { (setup : Settings) (layout : Layout) (serial : Serial) (seen : List NumberedEdge) → StandsForStretch setup layout serial self.old seen
            → sent_reports layout serial [] (sent_reading setup (seen ++ record { number = number; edge = edge } ∷ []))
            ≡ sent_reports layout serial [] (sent_reading setup seen) ++ reports.new.items }
    {
        let step = self.reader.push(number, edge);
        push_step(
            &mut self.watch,
            &mut self.serial,
            self.layout,
            step,
            reports,
        );
    }

    /// Forgets all edges: the next one is an opening, and the next counter and status are the first.
    pub fn reset(&mut self)
        ensures { (setup : Settings) (layout : Layout) (serial : Serial) (seen : List NumberedEdge) → StandsForStretch setup layout serial self.old seen
            → StandsForStretch setup layout serial self.new [] }
    {
        self.reader.reset();
        self.watch.reset();
        self.serial.reset();
    }
}
