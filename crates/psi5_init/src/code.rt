//! What a 10-bit code says.
ghost use Rattle.std.specs.Prelude.{◌≡◌, ◌<◌};
ghost use Rattle.psi5_init.specs.Codes.{class_in};

/// What a 10-bit code says (after PSI5 V2.1; the name `Reserved` for all other codes is this project's own).
#[derive(Clone, Copy, Debug, PartialEq, Eq)]
pub enum Code {
    /// A measured value, -480 to 480.
    Signal(i16),
    /// The ID of a block, 1 to 16.
    Block(u8),
    /// The value of a block, 0 to 15.
    Value(u8),
    /// The sensor is ready: the phase has ended.
    Ready,
    /// The sensor is busy.
    Busy,
    /// The sensor is defect.
    Defect,
    /// Any other code, as it stands.
    Reserved(u16),
}

// 000 to 1E0  Signal 0 to 480       200 to 20F  Block 1 to 16
// 1E7         Ready                 210 to 21F  Value 0 to 15
// 1E8         Busy                  220 to 3FF  Signal -480 to -1
// 1F4         Defect                all others  Reserved

/// What a code, 0 to 1,023, says.
#[tactic(auto, unfolding(crate::specs::Codes::class_in))]
pub fn class_of(code: u16) -> Code
    requires { code < 1024 }
    ensures { result ≡ class_in code }
{
    match code {
        0x000..=0x1E0 => Code::Signal(code as i16),
        0x1E7 => Code::Ready,
        0x1E8 => Code::Busy,
        0x1F4 => Code::Defect,
        0x200..=0x20F => Code::Block((code - 0x200) as u8 + 1),
        0x210..=0x21F => Code::Value((code - 0x210) as u8),
        0x220..=0x3FF => Code::Signal(code as i16 - 0x400),
        _ => Code::Reserved(code),
    }
}
