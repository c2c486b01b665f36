//! What data A says that is drawn.
ghost use Rattle.std.specs.Prelude.{◌≡◌, ℕ, ◌%◌, pos, ◌-ℤ◌};
ghost use Rattle.psi5_init.specs.Codes.{class_in};
ghost use Rattle.psi5_init.specs.declared.code.Code.TheVariants.{Signal};
ghost use Rattle.sensor_script.specs.Draws.{signal_code};

/// Does nothing; its contract is a law. The codes that are drawn are those of signals, from -480 to 480.
pub fn drawn_codes_are_signals()
    ensures { (word : ℕ) → class_in (signal_code word) ≡ Signal (pos (word % 961) -ℤ pos 480) }
{}
