//! The reader of edge lists, which is fed one byte at a time.
//!
//! It keeps the bytes of the unfinished line, and judges the line at its end. Most bytes are only put
//! behind the others: while the line has room, nothing else is looked at.
ghost use Rattle.std.specs.Prelude.{◌≡◌, ℕ, ◌≤◌, ◌^◌, min, Some, IsTrue, IfSome};
ghost use Rattle.edge_trace.specs.Readings.{is_in_range};
ghost use Rattle.edge_trace.specs.declared.form.Form.{Form as ListForm};
ghost use Rattle.edge_trace.specs.declared.state.State.TheVariants as state;

use crate::form::Form;
use crate::levels::{Levels, is_edge, keep_levels};
use crate::lines::read_content;
use crate::narrow::narrow_front;
use crate::row::{Row, RowEdges};
use crate::state::State;
use crate::texts::length_before;
use crate::units::units_front;
use crate::wide_fronts::wide_front;
use line_base::{Edge, LineFault, MAX_TIME};
use text_lines::{INPUT_LIMIT, LINE_LIMIT, LineBytes, content_of};

/// Reads an edge list byte by byte: both versions, the narrow and the wide form.
///
/// Contracts say which bytes a reader stands for: its answers are those that a list of these bytes has.
/// Behind a fault or the end nothing more is answered.
#[derive(Drop)]
pub struct EdgeReader {
    /// How far the list has come, and nothing behind a fault or the end.
    state: Option<State>,
    /// The bytes of the unfinished line.
    line: LineBytes,
    /// How many bytes the line may have now: 512, or what is left of the input; 0 behind a fault or the end.
    room: usize,
    /// How many bytes may still stand in lines, from the start of this line on.
    left: u64,
    /// How many lines have ended.
    ended: u64,
    /// The last level of each line, if it has one.
    levels: Levels,
    ghost in_range: { IsTrue (is_in_range state) },
    ghost fits: { room ≤ 512 },
}

/// How many bytes a line may have where so many may still stand in lines: at most 512.
#[inline(always)]
fn room_in(left: u64) -> usize
    ensures room { result ≡ min 512 left }
{
    if left < LINE_LIMIT as u64 {
        left as usize
    } else {
        LINE_LIMIT
    }
}

/// Keeps the time of a row, 0 to 10^15 ns, where the form is known.
#[inline(always)]
fn keep_time(list: &mut Option<State>, time: u64)
    requires in_range { IsTrue (is_in_range list.old) }
    requires time { time ≤ 10 ^ 15 }
    ensures in_range { IsTrue (is_in_range list.new) }
    ensures kept { (form : ListForm) (before : ℕ) → list.old ≡ Some (state.Rows form before) → list.new ≡ Some (state.Rows form time) }
{
    if let Some(State::Rows(_, last)) = list {
        *last = time;
    }
}

impl EdgeReader {
    ghost use Rattle.std.specs.Prelude.{◌≢◌, ◌<◌, ◌+◌, ◌-◌, ◌==◌, ◌⊎◌, List, [], ◌∷◌, ◌++◌, length, take, filter, slice_index_or, Option, None, Err, if◌then◌else◌};
    ghost use Rattle.std.specs.Option.{option_to_list};
    ghost use Rattle.line_base.specs.declared.faults.LineFault.{LineFault as Fault};
    ghost use Rattle.text_lines.specs.Lines.{without_cr};
    ghost use Rattle.edge_trace.specs.EdgeLists.{Standing, content_read, is_new};
    ghost use Rattle.edge_trace.specs.declared.form.Form.TheVariants as variant;
    ghost use Rattle.edge_trace.specs.Limits.{fault_of, answers_of, whole_fault_of, whole_answers_of, line_number_of};
    ghost use Rattle.text_lines.specs.Inputs.{last_line};
    ghost use Rattle.edge_trace.specs.PlainRows.{IsRowFront};
    ghost use Rattle.edge_trace.specs.Readings.{IsAt, form_of};
    ghost use Rattle.edge_trace.specs.Readers.{answers_in, answers_with, answers_of_row, StandsFor, GoesOn, HasEnded, Takes, EndsLine, IsLongest};

    /// A reader of no bytes.
    pub fn new() -> EdgeReader
        ensures stands { StandsFor result [] }
    {
        EdgeReader {
            state: Some(State::Start),
            line: LineBytes::new(),
            room: LINE_LIMIT,
            left: INPUT_LIMIT,
            ended: 0,
            levels: [None; 16],
        }
    }

    /// Takes the next byte. Gives the row of the line that it ends, if that has an edge, or a fault, which is
    /// the last answer.
    #[inline(always)]
    pub fn feed(&mut self, byte: u8) -> Option<Result<Row, LineFault>>
        ensures stands { (seen : List ℕ) → StandsFor self.old seen → StandsFor self.new (seen ++ byte ∷ []) }
        ensures grows { (seen : List ℕ) → StandsFor self.old seen → answers_of (seen ++ byte ∷ []) ≡ answers_of seen ++ answers_in result }
        ensures stops { (seen : List ℕ) (number : ℕ) (fault : Fault) → StandsFor self.old seen → fault_of (seen ++ byte ∷ []) ≡ Some (number, fault) → HasEnded self.new number }
        ensures ended { (number : ℕ) → HasEnded self.old number → (result ≡ None) × HasEnded self.new number }
    {
        if byte != b'\n' && self.line.len() < self.room {
            self.line.push(byte);
            return None;
        }
        self.turn(byte)
    }

    /// Takes bytes at the front of a block that end no line and are no fault, and answers how many: those
    /// before the first LF, as many as have room in the line and in the input.
    #[inline]
    pub fn take_run(&mut self, block: &[u8]) -> usize
        ensures fits { result ≤ length block.now }
        ensures stands { (seen : List ℕ) → StandsFor self.old seen → StandsFor self.new (seen ++ take result block.now) }
        ensures quiet { (seen : List ℕ) → StandsFor self.old seen → answers_of (seen ++ take result block.now) ≡ answers_of seen }
        ensures longest { (seen : List ℕ) → StandsFor self.old seen → fault_of seen ≡ None → result < length block.now → IsLongest seen block.now result }
        ensures ended { (number : ℕ) → HasEnded self.old number → (result ≡ 0) × HasEnded self.new number }
    {
        let room = self.room.saturating_sub(self.line.len());
        let count = length_before(block, b'\n', room);
        self.line.extend(&block[..count]);
        count
    }

    /// Takes the plain row that stands whole at the front of a block, with its LF, and gives how many bytes it
    /// has and its edge, if it is one. It takes 0 bytes where there is none, where the list isn't of narrow
    /// rows, where a line is begun, and where the row isn't fault-free: those bytes are for `feed` and
    /// `take_run`. It also leaves a row in the last 40 bytes of a block to them.
    #[inline(always)]
    pub fn take_row(&mut self, block: &[u8]) -> (usize, Option<Edge>)
        ensures fits { result.0 ≤ length block.now }
        ensures in_range { IfSome result.1 (λ edge. edge.time ≤ 10 ^ 15) }
        ensures stands { (seen : List ℕ) → StandsFor self.old seen → StandsFor self.new (seen ++ take result.0 block.now) }
        ensures grows { (seen : List ℕ) → StandsFor self.old seen → answers_of (seen ++ take result.0 block.now) ≡ answers_of seen ++ answers_with result.1 }
        ensures ended { (number : ℕ) → HasEnded self.old number → (result.0 ≡ 0) × (result.1 ≡ None) × HasEnded self.new number }
    {
        if self.line.len() > 0 {
            return (0, None);
        }
        if let Some(State::Rows(Form::Narrow, before)) = self.state {
            if let Some((edge, count)) = narrow_front(before, block) {
                return self.take_front(Form::Narrow, before, edge, count, block);
            }
            return (0, None);
        }
        if let Some(State::Rows(Form::Units(unit), before)) = self.state {
            return self.take_units_row(unit, before, block);
        }
        (0, None)
    }

    /// The same where the list is of version 2, in units of so many ns, and stands behind a row of a time of
    /// `before` ns.
    #[inline(always)]
    fn take_units_row(&mut self, unit: u32, before: u64, block: &[u8]) -> (usize, Option<Edge>)
        requires empty { length self.old.line ≡ 0 }
        requires state { self.old.state ≡ Some (state.Rows (variant.Units unit) before) }
        ensures fits { result.0 ≤ length block.now }
        ensures in_range { IfSome result.1 (λ edge. edge.time ≤ 10 ^ 15) }
        ensures stands { (seen : List ℕ) → StandsFor self.old seen → StandsFor self.new (seen ++ take result.0 block.now) }
        ensures grows { (seen : List ℕ) → StandsFor self.old seen → answers_of (seen ++ take result.0 block.now) ≡ answers_of seen ++ answers_with result.1 }
    {
        match units_front(unit, before, block) {
            Some((edge, count)) => self.take_front(Form::Units(unit), before, edge, count, block),
            None => (0, None),
        }
    }

    /// Takes a narrow row of so many bytes and its LF at the front of a block, behind a row of a time of
    /// `before` ns, where a line has room for it.
    #[inline(always)]
    fn take_front(
        &mut self,
        form: Form,
        before: u64,
        edge: Edge,
        count: usize,
        block: &[u8],
    ) -> (usize, Option<Edge>)
        requires empty { length self.old.line ≡ 0 }
        requires state { self.old.state ≡ Some (state.Rows form before) }
        requires narrow { (columns : ℕ) → form ≢ variant.Wide columns }
        requires front { IsRowFront (form_of form) before block.now edge count }
        requires line { edge.line ≤ 15 }
        requires time { edge.time ≤ 10 ^ 15 }
        ensures fits { result.0 ≤ length block.now }
        ensures in_range { IfSome result.1 (λ edge. edge.time ≤ 10 ^ 15) }
        ensures stands { (seen : List ℕ) → StandsFor self.old seen → StandsFor self.new (seen ++ take result.0 block.now) }
        ensures grows { (seen : List ℕ) → StandsFor self.old seen → answers_of (seen ++ take result.0 block.now) ≡ answers_of seen ++ answers_with result.1 }
    {
        if count >= self.room {
            return (0, None);
        }
        (count + 1, self.keep_row(edge, count))
    }

    /// Takes the plain wide row that stands whole at the front of a block, with its LF, and gives how many bytes
    /// it has and its edges. It takes 0 bytes where there is none with nine decimals and without blanks, where
    /// the list isn't of wide rows, where a line is begun, and where the row isn't fault-free: those bytes are
    /// for `feed` and `take_run`. It also leaves a row in the last 40 bytes of a block to them.
    #[inline]
    pub fn take_wide_row(&mut self, block: &[u8]) -> (usize, RowEdges)
        ensures fits { result.0 ≤ length block.now }
        ensures stands { (seen : List ℕ) → StandsFor self.old seen → StandsFor self.new (seen ++ take result.0 block.now) }
        ensures grows { (seen : List ℕ) → StandsFor self.old seen → answers_of (seen ++ take result.0 block.now) ≡ answers_of seen ++ answers_of_row result.1 }
        ensures ended { (number : ℕ) → HasEnded self.old number → (result.0 ≡ 0) × (result.1 ≡ []) × HasEnded self.new number }
    {
        let mut edges = RowEdges::new();
        if self.line.len() != 0 {
            return (0, edges);
        }
        let Some(State::Rows(Form::Wide(columns), before)) = self.state else {
            return (0, edges);
        };
        let Some((time, row, count)) = wide_front(columns, before, block) else {
            return (0, edges);
        };
        if self.room <= count {
            return (0, edges);
        }
        keep_levels(time, row.as_slice(), &mut self.levels, &mut edges);
        self.begin_behind(count, State::Rows(Form::Wide(columns), time));
        (count + 1, edges)
    }

    /// Begins the next line behind a narrow row of so many bytes, where no line is begun. Gives its edge, if it is one.
    #[inline(always)]
    fn keep_row(&mut self, edge: Edge, count: usize) -> Option<Edge>
        requires empty { self.old.line ≡ [] }
        requires short { count < 512 }
        requires line { edge.line ≤ 15 }
        requires time { edge.time ≤ 10 ^ 15 }
        ensures state { (form : ListForm) (before : ℕ) → self.old.state ≡ Some (state.Rows form before) → self.new.state ≡ Some (state.Rows form edge.time) }
        ensures room { self.new.room ≡ min 512 self.new.left }
        ensures line { self.new.line ≡ [] }
        ensures number { self.new.ended ≡ min (self.old.ended + 1) 18446744073709551615 }
        ensures left { self.new.left ≡ self.old.left - (count + 1) }
        ensures edges { filter (λ row. is_new (slice_index_or self.old.levels row.line None) row.level) (edge ∷ []) ≡ option_to_list result }
        ensures same { IfSome result (λ told. told ≡ edge) }
        ensures levels { (line : ℕ) → slice_index_or self.new.levels line None ≡ (if edge.line == line then Some edge.level else slice_index_or self.old.levels line None) }
    {
        keep_time(&mut self.state, edge.time);
        self.left = self.left.saturating_sub(count as u64 + 1);
        self.room = room_in(self.left);
        self.ended = self.ended.saturating_add(1);
        if is_edge(edge, &mut self.levels) {
            Some(edge)
        } else {
            None
        }
    }

    /// Ends the input: an unfinished last line counts as ended. This is the last answer.
    pub fn finish(&mut self) -> Option<Result<Row, LineFault>>
        ensures whole { (seen : List ℕ) → StandsFor self.old seen → whole_answers_of seen ≡ answers_of seen ++ answers_in result }
        ensures ends { (seen : List ℕ) → StandsFor self.old seen → HasEnded self.new (line_number_of seen) }
        ensures stops { (seen : List ℕ) (number : ℕ) (fault : Fault) → StandsFor self.old seen → whole_fault_of seen ≡ Some (number, fault) → HasEnded self.new number }
        ensures ended { (number : ℕ) → HasEnded self.old number → (result ≡ None) × HasEnded self.new number }
    {
        let state = self.state?;
        let answer = self.end_input(state);
        self.state = None;
        self.room = 0;
        answer
    }

    /// The number, from 1, of the line of the last byte taken, or of the fault; 0 before the first byte.
    pub fn line_number(&self) -> u64
        ensures number { (seen : List ℕ) → StandsFor self.now seen → result ≡ line_number_of seen }
        ensures ended { (number : ℕ) → HasEnded self.now number → result ≡ number }
    {
        if self.line.len() == 0 {
            return self.ended;
        }
        self.ended.saturating_add(1)
    }

    /// Takes a byte that is an LF, or for which there is no room.
    #[inline(always)]
    fn turn(&mut self, byte: u8) -> Option<Result<Row, LineFault>>
        ensures takes { (seen : List ℕ) → StandsFor self.old seen → (byte ≡ 10) ⊎ (self.old.room ≤ length self.old.line) → Takes self.new seen byte result }
        ensures ended { (number : ℕ) → HasEnded self.old number → (result ≡ None) × HasEnded self.new number }
    {
        let state = self.state?;
        if self.line.len() as u64 >= self.left {
            return self.stop(LineFault::InputTooLong);
        }
        if byte == b'\n' {
            return self.end_line(state);
        }
        self.stop(LineFault::LineTooLong)
    }

    /// Judges the unfinished line, if there is one, as ended.
    fn end_input(&mut self, state: State) -> Option<Result<Row, LineFault>>
        requires { IsTrue (is_in_range (Some state)) }
        ensures whole { (seen : List ℕ) → GoesOn self.old state seen → whole_answers_of seen ≡ answers_of seen ++ answers_in result }
        ensures number { (seen : List ℕ) → GoesOn self.old state seen → self.new.ended + length (last_line self.new.line) ≡ line_number_of seen }
        ensures small { (seen : List ℕ) → GoesOn self.old state seen → self.new.ended < 9223372036854775808 }
    {
        if self.line.len() == 0 {
            return None;
        }
        self.end_line(state)
    }

    /// Stops at a fault of the line of the last byte.
    #[inline(always)]
    fn stop(&mut self, fault: LineFault) -> Option<Result<Row, LineFault>>
        ensures state { self.new.state ≡ None }
        ensures room { self.new.room ≡ 0 }
        ensures line { self.new.line ≡ [] }
        ensures number { self.new.ended ≡ min (self.old.ended + 1) 18446744073709551615 }
        ensures left { self.new.left ≡ self.old.left }
        ensures answer { result ≡ Some (Err fault) }
    {
        self.state = None;
        self.room = 0;
        self.line.clear();
        self.ended = self.ended.saturating_add(1);
        Some(Err(fault))
    }

    /// Judges the line that has ended, and begins the next.
    #[inline(always)]
    fn end_line(&mut self, state: State) -> Option<Result<Row, LineFault>>
        requires { IsTrue (is_in_range (Some state)) }
        ensures read { (standing : Standing) → IsAt state self.old.levels standing → EndsLine self.new (content_read standing (without_cr self.old.line)) result }
        ensures line { self.new.line ≡ [] }
        ensures number { self.new.ended ≡ min (self.old.ended + 1) 18446744073709551615 }
        ensures left { self.new.left ≡ self.old.left - (length self.old.line + 1) }
    {
        let mut edges = RowEdges::new();
        let line = content_of(self.line.as_slice());
        let read = read_content(state, line, &mut self.levels, &mut edges);
        self.left = self.left.saturating_sub(self.line.len() as u64 + 1);
        match read {
            Err(fault) => self.stop(fault),
            Ok(next) => {
                self.begin_line(next);
                if edges.is_empty() {
                    None
                } else {
                    Some(Ok(Row { edges }))
                }
            }
        }
    }

    /// Begins the next line behind a row of so many bytes that was taken whole.
    #[inline(always)]
    fn begin_behind(&mut self, count: usize, next: State)
        requires { IsTrue (is_in_range (Some next)) }
        ensures state { self.new.state ≡ Some next }
        ensures room { self.new.room ≡ min 512 self.new.left }
        ensures line { self.new.line ≡ [] }
        ensures number { self.new.ended ≡ min (self.old.ended + 1) 18446744073709551615 }
        ensures left { self.new.left ≡ self.old.left - (count + 1) }
        ensures levels { self.new.levels ≡ self.old.levels }
    {
        self.left = self.left.saturating_sub(count as u64).saturating_sub(1);
        self.begin_line(next);
    }

    /// Begins the next line, where the list has come so far.
    #[inline]
    fn begin_line(&mut self, next: State)
        requires { IsTrue (is_in_range (Some next)) }
        ensures state { self.new.state ≡ Some next }
        ensures room { self.new.room ≡ min 512 self.old.left }
        ensures line { self.new.line ≡ [] }
        ensures number { self.new.ended ≡ min (self.old.ended + 1) 18446744073709551615 }
        ensures left { self.new.left ≡ self.old.left }
        ensures levels { self.new.levels ≡ self.old.levels }
    {
        self.state = Some(next);
        self.room = room_in(self.left);
        self.line.clear();
        self.ended = self.ended.saturating_add(1);
    }
}
