//! Which nibbles a sensor can send.
ghost use Rattle.std.specs.Prelude.{◌≡◌};
ghost use Rattle.sim_base.specs.FittingNibbles.{fits_nibbles};

use sent_frame::{SentFrame, SentSetup};

/// Whether a frame has the setup's number of nibbles.
pub fn fits_nibbles(setup: &SentSetup, frame: &SentFrame) -> bool
    ensures { result ≡ fits_nibbles setup.now frame.now.nibbles }
{
    frame.nibbles.values().len() == usize::from(setup.nibbles())
}
