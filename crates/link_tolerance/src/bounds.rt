//! Where the bounds on ticks, on their drift and on jitter lie.
ghost use Rattle.std.specs.Prelude.{◌≡◌, ℕ, ◌+◌, ◌*◌};
ghost use Rattle.link_tolerance.specs.Recorded.{IsRecorded};
ghost use Rattle.link_tolerance.specs.Ticks.{FollowsTick, IsOwnTick, IsTick};

/// Does nothing; its contract is a law. A tick is off from the nominal tick by up to a fifth of it, and not by
/// one ps more. The nominal tick is in ns, and a tick in ps.
pub fn ticks_end_at_a_fifth()
    ensures least { (nominal : ℕ) → IsTick nominal (800 * nominal) }
    ensures below { (nominal tick : ℕ) → tick + 1 ≡ 800 * nominal → IsTick nominal tick → ⊥ }
    ensures greatest { (nominal : ℕ) → IsTick nominal (1200 * nominal) }
    ensures above { (nominal : ℕ) → IsTick nominal (1200 * nominal + 1) → ⊥ }
{}

/// Does nothing; its contract is a law. A pulse's own tick is off from the frame's by up to a 400th of that one,
/// and not by one ps more.
pub fn own_ticks_end_at_a_400th()
    ensures least { (part : ℕ) → IsOwnTick (400 * part) (399 * part) }
    ensures below { (part own : ℕ) → own + 1 ≡ 399 * part → IsOwnTick (400 * part) own → ⊥ }
    ensures greatest { (part : ℕ) → IsOwnTick (400 * part) (401 * part) }
    ensures above { (part : ℕ) → IsOwnTick (400 * part) (401 * part + 1) → ⊥ }
{}

/// Does nothing; its contract is a law. A frame's tick is off from that of the frame before by up to a 200th of
/// that one, and not by one ps more.
pub fn drift_ends_at_a_200th()
    ensures least { (part : ℕ) → FollowsTick (200 * part) (199 * part) }
    ensures below { (part tick : ℕ) → tick + 1 ≡ 199 * part → FollowsTick (200 * part) tick → ⊥ }
    ensures greatest { (part : ℕ) → FollowsTick (200 * part) (201 * part) }
    ensures above { (part : ℕ) → FollowsTick (200 * part) (201 * part + 1) → ⊥ }
{}

/// Does nothing; its contract is a law. An edge is recorded up to the jitter earlier or later than its ideal
/// time, and not one ps more. The jitter and the recorded time are in ns, and the ideal time is in ps.
pub fn jitter_ends_at_its_bound()
    ensures earliest { (jitter recorded : ℕ) → IsRecorded jitter (1000 * (recorded + jitter)) recorded }
    ensures too_early { (jitter recorded : ℕ) → IsRecorded jitter (1000 * (recorded + jitter) + 1) recorded → ⊥ }
    ensures latest { (jitter ideal : ℕ) → IsRecorded jitter (1000 * ideal) (ideal + jitter) }
    ensures too_late { (jitter ideal recorded : ℕ) → 1000 * recorded ≡ ideal + 1000 * jitter + 1 → IsRecorded jitter ideal recorded → ⊥ }
{}
