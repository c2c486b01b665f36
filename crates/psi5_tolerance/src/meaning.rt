//! What is read of honest traces.
ghost use Rattle.std.specs.Prelude.{◌≡◌, ℕ, ◌+◌, ◌-◌, ◌*◌, ◌≤◌, List, Option, None, Some, false, map};
ghost use Rattle.line_base.specs.Edges.{NumberedEdge};
ghost use Rattle.link_math.specs.Manchester.{halves_in};
ghost use Rattle.psi5_frame.specs.Bursts.{burst_starts, bursts_at_end};
ghost use Rattle.psi5_frame.specs.Intervals.{is_quiet};
ghost use Rattle.psi5_frame.specs.Setup.{Settings, fault_of};
ghost use Rattle.link_tolerance.specs.Recorded.{IsRecorded};
ghost use Rattle.psi5_tolerance.specs.FromFirst.{HeardFrame, IsRestOf, bursts_in, from_first, good_burst, heard_of, said};
ghost use Rattle.psi5_tolerance.specs.Lines.{SyncWindows, data_edges};
ghost use Rattle.psi5_tolerance.specs.Places.{place_of, slot_places};
ghost use Rattle.psi5_tolerance.specs.Traces.{IsHonest};
ghost use Rattle.psi5_tolerance.specs.Trains.{IsHalf, Psi5Message};

use link_math::Halves;

/// Does nothing; its contract is a law. With a setup that is accepted, two edges one half-bit apart count as
/// one half-bit and two edges two half-bits apart as two, whatever the jitter of both; from a frame's last
/// edge, which is at its end or earlier, to the first edge of the next is quiet; and where a line was opened
/// behind an edge of a frame, the interval to the next edge isn't.
pub fn half_bits_are_heard()
    ensures one { (s : Settings) (half ideal recorded next : ℕ) → fault_of s.bit s.parts s.jitter ≡ None → IsHalf s.bit half
        → IsRecorded s.jitter ideal recorded → IsRecorded s.jitter (ideal + half) next → halves_in (next - recorded) s.bit ≡ Halves.One }
    ensures two { (s : Settings) (half ideal recorded next : ℕ) → fault_of s.bit s.parts s.jitter ≡ None → IsHalf s.bit half
        → IsRecorded s.jitter ideal recorded → IsRecorded s.jitter (ideal + 2 * half) next → halves_in (next - recorded) s.bit ≡ Halves.Two }
    ensures quiet { (s : Settings) (half last end recorded start next : ℕ) → fault_of s.bit s.parts s.jitter ≡ None → IsHalf s.bit half
        → last ≤ end → IsRecorded s.jitter last recorded → end + 1050 * s.bit ≤ start → IsRecorded s.jitter (start + half) next → halves_in (next - recorded) s.bit ≡ Halves.Quiet }
    ensures opened { (s : Settings) (half ideal opening next halves : ℕ) → fault_of s.bit s.parts s.jitter ≡ None → IsHalf s.bit half
        → halves ≤ 2 → ideal ≤ 1000 * (opening + s.jitter) → IsRecorded s.jitter (ideal + halves * half) next → is_quiet (halves_in (next - opening) s.bit) ≡ false }
{}

/// Does nothing; its contract is a law. Without slots the bursts of an honest trace are all good, and are
/// exactly the frames that were sent, from the first on whose first edge was seen behind a quiet interval,
/// each at its last edge; they begin at their first edges. Of a channel with slots the same holds of its data
/// line.
pub fn honest_bursts_are_read()
    ensures bursts { (s : Settings) (messages : List Psi5Message) (edges : List NumberedEdge) → IsHonest s None messages edges
        → bursts_at_end s edges ≡ map good_burst (from_first s None messages edges) }
    ensures starts { (s : Settings) (messages : List Psi5Message) (edges : List NumberedEdge) → IsHonest s None messages edges
        → burst_starts s edges ≡ map (λ (f : HeardFrame). f.first) (from_first s None messages edges) }
    ensures line_bursts { (s : Settings) (sync : Option SyncWindows) (messages : List Psi5Message) (edges : List NumberedEdge) → IsHonest s sync messages edges
        → bursts_at_end s (data_edges sync edges) ≡ map good_burst (heard_of s sync messages edges) }
    ensures line_starts { (s : Settings) (sync : Option SyncWindows) (messages : List Psi5Message) (edges : List NumberedEdge) → IsHonest s sync messages edges
        → burst_starts s (data_edges sync edges) ≡ map (λ (f : HeardFrame). f.first) (heard_of s sync messages edges) }
{}

/// Does nothing; its contract is a law. With slots each burst of an honest trace begins in its frame's slot,
/// or before the first sync pulse that was seen.
pub fn honest_bursts_are_in_their_slots()
    ensures { (s : Settings) (sync : SyncWindows) (messages : List Psi5Message) (edges : List NumberedEdge) → IsHonest s (Some sync) messages edges
        → slot_places s sync edges ≡ map place_of (heard_of s (Some sync) messages edges) }
{}

/// Does nothing; its contract is a law. Behind the first frame that is told none is missing: what is told are
/// all the frames that were sent, but for the first so many.
pub fn no_frame_is_missing()
    ensures { (s : Settings) (sync : Option SyncWindows) (messages : List Psi5Message) (edges : List NumberedEdge) → IsHonest s sync messages edges
        → IsRestOf (map said (from_first s sync messages edges)) (bursts_in messages) }
{}
