//! The pulses of a frame, as a sensor sends them.
ghost use Rattle.std.specs.Prelude.{IsTrue, ◌≡◌, ◌+◌, ◌*◌, ◌<◌, ◌≤◌, ◌∷◌, List, suc, length, take, ℕ};
ghost use Rattle.sent_frame.specs.Pulses.{Pulse};
ghost use Rattle.sent_frame.specs.Reading.{place_at};
ghost use Rattle.sent_frame.specs.Frames.{HaveTicks, IsFrameAt, ticks_of};

use crate::crc::crc_nibble;
use crate::frame::SentFrame;
use crate::setup::SentSetup;
use arrayvec::ArrayVec;
use link_math::CALIBRATION_TICKS;

/// The ticks of a nibble pulse that carries 0 (SAE J2716).
const NIBBLE_TICKS: u16 = 12;

/// The pulses of a frame, in ticks: the calibration pulse, the status, each data nibble, the CRC, and then
/// a pause of so many ticks, 12 to 768, where the setup has one; else `pause` isn't looked at. The frame has
/// as many nibbles as the setup says, and a status below 16. Sent with a tick of 4/5 to 6/5 of the setup's,
/// the pulses are this frame.
pub fn pulses_of(setup: &SentSetup, frame: &SentFrame, pause: u16) -> ArrayVec<u16, 10>
    requires as_many { length frame.now.nibbles ≡ setup.now.nibbles }
    requires status { frame.now.status < 16 }
    requires pause { IsTrue setup.now.pause → (12 ≤ pause) × (pause ≤ 768) }
    ensures ticks { result.items ≡ ticks_of setup.now frame.now pause }
    ensures sent { (tick : ℕ) (calibration : Pulse) (others : List Pulse) → 4 * setup.now.tick ≤ 5 * tick → 5 * tick ≤ 6 * setup.now.tick
        → HaveTicks tick (take (setup.now.nibbles + 3) result.items) (calibration ∷ others)
        → IsFrameAt setup.now calibration others frame.now (place_at others (suc setup.now.nibbles)) }
{
    let nibbles = frame.nibbles.values();
    let mut ticks = ArrayVec::new();
    ticks.push(CALIBRATION_TICKS as u16);
    ticks.push(NIBBLE_TICKS + u16::from(frame.status));
    for nibble in nibbles {
        ticks.push(NIBBLE_TICKS + u16::from(*nibble));
    }
    ticks.push(NIBBLE_TICKS + u16::from(crc_nibble(setup.crc(), nibbles)));
    if setup.pause() {
        ticks.push(pause);
    }
    ticks
}
