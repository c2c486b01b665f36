//! Where the bounds on what is sent on an SPC line lie. The nominal tick and the jitter are in ns, windows, delay
//! and quiet time in tenths of the nominal tick, and ideal times in ps.
ghost use Rattle.std.specs.Prelude.{◌≡◌, ℕ, ◌+◌, ◌*◌, get_or};
ghost use Rattle.line_base.specs.Spans.{no_span};
ghost use Rattle.spc_link.specs.Setup.{Settings};
ghost use Rattle.spc_tolerance.specs.Traces.{IsQuiet};
ghost use Rattle.spc_tolerance.specs.Trains.{IsAnswerSent, IsTriggerSent, SentAnswer, Trigger};

/// Does nothing; its contract is a law. A trigger's width may lie twice the jitter inside each end of its
/// window, and not one ps nearer to the end.
pub fn widths_end_two_jitters_inside()
    ensures narrowest { (setup : Settings) (trigger : Trigger) → IsTriggerSent setup trigger
        → IsTriggerSent setup (record trigger { rise = trigger.fall + (100 * setup.sent.tick * (get_or setup.windows trigger.code no_span).low + 2000 * setup.sent.jitter) }) }
    ensures too_narrow { (setup : Settings) (trigger : Trigger) (width : ℕ)
        → width + 1 ≡ 100 * setup.sent.tick * (get_or setup.windows trigger.code no_span).low + 2000 * setup.sent.jitter
        → IsTriggerSent setup (record trigger { rise = trigger.fall + width }) → ⊥ }
    ensures widest { (setup : Settings) (trigger : Trigger) (width : ℕ) → IsTriggerSent setup trigger
        → width + 2000 * setup.sent.jitter ≡ 100 * setup.sent.tick * (get_or setup.windows trigger.code no_span).high
        → IsTriggerSent setup (record trigger { rise = trigger.fall + width }) }
    ensures too_wide { (setup : Settings) (trigger : Trigger) (width : ℕ)
        → width + 2000 * setup.sent.jitter ≡ 100 * setup.sent.tick * (get_or setup.windows trigger.code no_span).high + 1
        → IsTriggerSent setup (record trigger { rise = trigger.fall + width }) → ⊥ }
{}

/// Does nothing; its contract is a law. The delay of an answer may lie twice the jitter inside each end of the
/// setup's delay, and not one ps nearer to the end.
pub fn delays_end_two_jitters_inside()
    ensures shortest { (setup : Settings) (trigger : Trigger) (answer : SentAnswer) → IsAnswerSent setup trigger answer
        → IsAnswerSent setup trigger (record answer { start = trigger.rise + (100 * setup.sent.tick * setup.delay.low + 2000 * setup.sent.jitter) }) }
    ensures too_short { (setup : Settings) (trigger : Trigger) (answer : SentAnswer) (delay : ℕ)
        → delay + 1 ≡ 100 * setup.sent.tick * setup.delay.low + 2000 * setup.sent.jitter
        → IsAnswerSent setup trigger (record answer { start = trigger.rise + delay }) → ⊥ }
    ensures longest { (setup : Settings) (trigger : Trigger) (answer : SentAnswer) (delay : ℕ) → IsAnswerSent setup trigger answer
        → delay + 2000 * setup.sent.jitter ≡ 100 * setup.sent.tick * setup.delay.high
        → IsAnswerSent setup trigger (record answer { start = trigger.rise + delay }) }
    ensures too_long { (setup : Settings) (trigger : Trigger) (answer : SentAnswer) (delay : ℕ)
        → delay + 2000 * setup.sent.jitter ≡ 100 * setup.sent.tick * setup.delay.high + 1
        → IsAnswerSent setup trigger (record answer { start = trigger.rise + delay }) → ⊥ }
{}

/// Does nothing; its contract is a law. A trigger may fall when the quiet time and twice the jitter are over
/// behind the recorded rise, and not one ps earlier.
pub fn quiet_times_end_two_jitters_later()
    ensures earliest { (setup : Settings) (rise : ℕ) → IsQuiet setup rise (1000 * rise + 100 * setup.sent.tick * setup.quiet + 2000 * setup.sent.jitter) }
    ensures too_early { (setup : Settings) (rise fall : ℕ) → fall + 1 ≡ 1000 * rise + 100 * setup.sent.tick * setup.quiet + 2000 * setup.sent.jitter
        → IsQuiet setup rise fall → ⊥ }
{}
