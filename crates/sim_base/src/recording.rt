//! When edges are recorded that are ideal at some time.
ghost use Rattle.std.specs.Prelude.{◌≡◌, ◌+◌, ◌*◌, ◌^◌, ◌≤◌, ◌++◌, All, length};
ghost use Rattle.arrayvec.specs.ArrayVec.{array_vec_len};
ghost use Rattle.sim_base.specs.Recordings.{opening_of, pulses_at, recorded_at, recorded_by};
ghost use Rattle.sim_base.specs.Wobbles.{behind_word, past, word, words};

use crate::wobble::Wobble;
use arrayvec::ArrayVec;
use line_base::Edge;

/// The greatest ideal time in ps at which an edge is sent.
pub const MAX_IDEAL: u64 = 900_000_000_000_000_000;

/// How many edges one message has at most.
pub const MAX_EDGES: usize = 80;

/// How many nominal ticks after a fall the line rises.
pub const LOW_TICKS: u64 = 4;

/// The time in ns at which an edge is recorded that is ideal at this time in ps, 0 to 10^18: off by up to the
/// jitter, 1 to 2^20 ns. The jitter isn't longer than the ideal time.
#[tactic(auto, unfolding(crate::specs::Recordings::recorded_at))]
pub fn record(ideal: u64, jitter: u32, wobble: &mut Wobble) -> u64
    requires some { 1 ≤ jitter }
    requires few { jitter ≤ 2 ^ 20 }
    requires room { 1000 * jitter ≤ ideal }
    requires range { ideal ≤ 10 ^ 18 }
    ensures value { result ≡ recorded_at jitter ideal (word wobble.old) }
    ensures next { wobble.new ≡ behind_word wobble.old }
    ensures range { result ≤ 10 ^ 15 + 2 ^ 20 }
{
    let jitter = u64::from(jitter);
    ideal / 1_000 + wobble.pick(2 * jitter) - (jitter - 1)
}

/// Edges of one line to the same level, each with the edge back after a fixed time.
#[derive(Clone, Copy)]
pub struct Pulses {
    /// The line, 0 to 15.
    pub line: u8,
    /// The level of an edge that has a time of its own.
    pub level: bool,
    /// How many ns later the edge back is.
    pub width: u64,
}

/// Adds the edges that are ideal at these times in ps, each with the edge back.
pub fn push_edges(
    edges: &mut ArrayVec<Edge, MAX_EDGES>,
    pulses: &Pulses,
    jitter: u32,
    ideals: &[u64],
    wobble: &mut Wobble,
)
    requires room { array_vec_len edges.old + 2 * length ideals.now ≤ 80 }
    requires width { pulses.now.width ≤ 2 ^ 32 }
    requires some { 1 ≤ jitter }
    requires few { jitter ≤ 2 ^ 20 }
    requires range { All (λ ideal. (1000 * jitter ≤ ideal) × (ideal ≤ 10 ^ 18)) ideals.now }
    ensures edges { edges.new.items ≡ edges.old.items ++ pulses_at pulses.now.line pulses.now.level pulses.now.width (recorded_by jitter ideals.now (words (length ideals.now) wobble.old)) }
    ensures next { wobble.new ≡ past (length ideals.now) wobble.old }
{
    let Pulses { line, level, width } = *pulses;
    for ideal in ideals {
        let time = record(*ideal, jitter, wobble);
        edges.push(Edge { line, time, level });
        edges.push(Edge {
            line,
            time: time + width,
            level: !level,
        });
    }
}

/// The opening of a line that rests at this level, where nothing was sent on it yet.
pub fn opening(line: u8, level: bool, last: Option<u64>) -> ArrayVec<Edge, MAX_EDGES>
    ensures { result.items ≡ opening_of line level last }
{
    let mut edges = ArrayVec::new();
    if last.is_none() {
        edges.push(Edge {
            line,
            time: 0,
            level,
        });
    }
    edges
}
