//! What the bursts of a line's edges stand for.
ghost use Rattle.std.specs.Prelude.{◌≡◌, ◌-◌, ◌++◌, All, List, ℕ, false, length};
ghost use Rattle.line_base.specs.Edges.{NumberedEdge};
ghost use Rattle.line_base.specs.Streams.{IsFrontOf};
ghost use Rattle.psi5_frame.specs.Setup.{Settings};
ghost use Rattle.psi5_frame.specs.Edges.{Change, changes_of};
ghost use Rattle.psi5_frame.specs.Frames.{Fits, frame_of, waveform};
ghost use Rattle.psi5_frame.specs.Waveforms.{Alternate, IsFrameBurst};
ghost use Rattle.psi5_frame.specs.Bursts.{burst_starts, bursts_at_end, bursts_so_far, has_start, judged, last_of};
ghost use Rattle.psi5_frame.specs.Meanings.{BurstFits, Means};

use crate::burst::{Burst, Payload};

/// Does nothing; its contract is a law. No two payloads share the waveform of a frame.
pub fn waveforms_differ()
    ensures { (s : Settings) (p q : Payload) → Fits s.parts p → Fits s.parts q → waveform (frame_of s p) ≡ waveform (frame_of s q) → p ≡ q }
{}

/// Does nothing; its contract is a law. A burst whose levels alternate is good with a payload exactly where
/// it is the waveform of that payload's frame, and its place is then its last edge.
pub fn good_bursts_are_waveforms()
    ensures good { (s : Settings) (first : Change) (later : List Change) (place : ℕ) (payload : Payload) → has_start later ≡ false → Alternate first.level later
        → judged s first later ≡ Burst.Good place payload → (place ≡ (last_of first later).number) × IsFrameBurst s first later payload }
    ensures frame { (s : Settings) (first : Change) (later : List Change) (payload : Payload) → Alternate first.level later
        → IsFrameBurst s first later payload → judged s first later ≡ Burst.Good (last_of first later).number payload }
{}

/// Does nothing; its contract is a law. Each burst that is told of a line's edges stands for one that is
/// read there: a good one for the waveform of its payload's frame, and a bad one for the first rule that is
/// violated, at the edge that violates it.
pub fn bursts_have_meaning()
    ensures { (s : Settings) (edges : List NumberedEdge) → All (Means s (changes_of s.bit edges)) (bursts_at_end s edges) }
{}

/// Does nothing; its contract is a law. What is told so far is a front of what is told when more comes, and
/// of what is told at the end.
pub fn bursts_grow()
    ensures bursts { (s : Settings) (edges more : List NumberedEdge) → IsFrontOf (bursts_so_far s edges) (bursts_so_far s (edges ++ more)) }
    ensures starts { (s : Settings) (edges more : List NumberedEdge) → IsFrontOf (burst_starts s edges) (burst_starts s (edges ++ more)) }
    ensures at_end { (s : Settings) (edges more : List NumberedEdge) → IsFrontOf (bursts_so_far s edges) (bursts_at_end s (edges ++ more)) }
{}

/// Does nothing; its contract is a law. There is one burst for each edge that begins one, and of those so far
/// the last isn't complete.
pub fn bursts_are_counted()
    ensures so_far { (s : Settings) (edges : List NumberedEdge) → length (bursts_so_far s edges) ≡ length (burst_starts s edges) - 1 }
    ensures at_end { (s : Settings) (edges : List NumberedEdge) → length (bursts_at_end s edges) ≡ length (burst_starts s edges) }
{}

/// Does nothing; its contract is a law. The values of a good burst fit the widths of their parts.
pub fn payloads_fit()
    ensures { (s : Settings) (edges : List NumberedEdge) → All (BurstFits s) (bursts_at_end s edges) }
{}
