//! Where the bounds of what may be sent are.
ghost use Rattle.std.specs.Prelude.{◌≡◌, ℕ, ◌+◌, ◌*◌, ◌<◌, ◌≤◌, [], ◌∷◌, None, Some, length};
ghost use Rattle.psi5_frame.specs.declared.burst.Payload.{Payload};
ghost use Rattle.psi5_frame.specs.Frames.{Fits};
ghost use Rattle.psi5_frame.specs.Setup.{Settings, fault_of};
ghost use Rattle.psi5_slots.specs.Meanings.{window_at};
ghost use Rattle.psi5_tolerance.specs.Bounds.{answer, answer_and_sync, lone_frame, middle_frame, two_answers, two_frames};
ghost use Rattle.psi5_tolerance.specs.Lines.{SyncWindows};
ghost use Rattle.psi5_tolerance.specs.Traces.{AreSlots};
ghost use Rattle.psi5_tolerance.specs.Trains.{FrameAt, IsTrain, SyncAt, end_of};

/// Does nothing; its contract is a law. Half-bits of 475 to 525 ps for each ns of the nominal bit time are
/// sent, and none that are 1 ps shorter or longer; the next frame starts 1.05 nominal bit times behind the
/// end of a frame, and not 1 ps earlier.
pub fn frames_have_bounds()
    ensures shortest { (s : Settings) (payload : Payload) (start : ℕ) → Fits s.parts payload → IsTrain s None (lone_frame payload start (475 * s.bit)) }
    ensures shorter { (s : Settings) (payload : Payload) (start half : ℕ) → half + 1 ≡ 475 * s.bit → IsTrain s None (lone_frame payload start half) → ⊥ }
    ensures longest { (s : Settings) (payload : Payload) (start : ℕ) → Fits s.parts payload → IsTrain s None (lone_frame payload start (525 * s.bit)) }
    ensures longer { (s : Settings) (payload : Payload) (start : ℕ) → IsTrain s None (lone_frame payload start (525 * s.bit + 1)) → ⊥ }
    ensures closest { (s : Settings) (payload : Payload) (start : ℕ) → Fits s.parts payload → IsTrain s None (two_frames s payload start (1050 * s.bit)) }
    ensures closer { (s : Settings) (payload : Payload) (start quiet : ℕ) → quiet + 1 ≡ 1050 * s.bit → IsTrain s None (two_frames s payload start quiet) → ⊥ }
{}

/// Does nothing; its contract is a law. The first rise of a frame in a slot is at the earliest twice the
/// jitter behind the least offset of its window and at the latest twice the jitter before the greatest, and
/// not 1 ps outside; a slot has a window, a frame in a slot comes behind a sync pulse, and in a later slot
/// than the one before.
pub fn answers_have_bounds()
    ensures earliest { (s : Settings) (sync : SyncWindows) (payload : Payload) (pulse number start : ℕ) → fault_of s.bit s.parts s.jitter ≡ None → AreSlots s (Some sync) → Fits s.parts payload → number < length sync.windows
        → start + 500 * s.bit ≡ pulse + (1000 * (window_at sync.windows number).low + 2000 * s.jitter) → IsTrain s (Some sync) (answer s payload pulse number start) }
    ensures earlier { (s : Settings) (sync : SyncWindows) (payload : Payload) (pulse number start : ℕ)
        → start + 500 * s.bit + 1 ≡ pulse + (1000 * (window_at sync.windows number).low + 2000 * s.jitter) → IsTrain s (Some sync) (answer s payload pulse number start) → ⊥ }
    ensures latest { (s : Settings) (sync : SyncWindows) (payload : Payload) (pulse number start : ℕ) → fault_of s.bit s.parts s.jitter ≡ None → AreSlots s (Some sync) → Fits s.parts payload → number < length sync.windows
        → start + 500 * s.bit + 2000 * s.jitter ≡ pulse + 1000 * (window_at sync.windows number).high → IsTrain s (Some sync) (answer s payload pulse number start) }
    ensures later { (s : Settings) (sync : SyncWindows) (payload : Payload) (pulse number start : ℕ)
        → start + 500 * s.bit + 2000 * s.jitter ≡ pulse + 1000 * (window_at sync.windows number).high + 1 → IsTrain s (Some sync) (answer s payload pulse number start) → ⊥ }
    ensures no_window { (s : Settings) (sync : SyncWindows) (payload : Payload) (pulse number start : ℕ) → length sync.windows ≤ number → IsTrain s (Some sync) (answer s payload pulse number start) → ⊥ }
    ensures no_sync { (s : Settings) (sync : SyncWindows) (payload : Payload) (number start : ℕ) → IsTrain s (Some sync) (FrameAt (middle_frame s (Some number) payload start) ∷ []) → ⊥ }
    ensures no_later_slot { (s : Settings) (sync : SyncWindows) (payload : Payload) (pulse number start other next : ℕ) → other ≤ number → IsTrain s (Some sync) (two_answers s payload pulse number start other next) → ⊥ }
{}

/// Does nothing; its contract is a law. A sync pulse may come at the end of a frame, and not 1 ps earlier; two
/// of them 1 ps apart may be sent, and not at the same time; and none is sent where there are no slots.
pub fn sync_pulses_have_bounds()
    ensures at_end { (s : Settings) (sync : SyncWindows) (payload : Payload) (pulse number start : ℕ) → pulse < end_of s (middle_frame s (Some number) payload start) → IsTrain s (Some sync) (answer s payload pulse number start)
        → IsTrain s (Some sync) (answer_and_sync s payload pulse number start (end_of s (middle_frame s (Some number) payload start))) }
    ensures before_end { (s : Settings) (sync : SyncWindows) (payload : Payload) (pulse number start next : ℕ) → next + 1 ≡ end_of s (middle_frame s (Some number) payload start)
        → IsTrain s (Some sync) (answer_and_sync s payload pulse number start next) → ⊥ }
    ensures behind { (s : Settings) (sync : SyncWindows) (pulse : ℕ) → IsTrain s (Some sync) (SyncAt pulse ∷ SyncAt (pulse + 1) ∷ []) }
    ensures together { (s : Settings) (sync : SyncWindows) (pulse : ℕ) → IsTrain s (Some sync) (SyncAt pulse ∷ SyncAt pulse ∷ []) → ⊥ }
    ensures no_slots { (s : Settings) (pulse : ℕ) → IsTrain s None (SyncAt pulse ∷ []) → ⊥ }
{}
