//! The two bits of a status nibble that carry serial messages (SAE J2716).
ghost use Rattle.std.specs.Prelude.{◌≡◌, ◌/◌, ◌%◌, ◌^◌, ◌<◌, nat_eq};
ghost use Rattle.sent_serial.specs.Statuses.{start_bit, value_bit};

/// Whether bit 3 of a status is set, the start bit.
pub fn has_start(status: u8) -> bool
    ensures { result ≡ start_bit status }
{
    status / 8 % 2 == 1
}

/// Whether bit 2 of a status is set, the value bit.
pub fn has_value(status: u8) -> bool
    ensures { result ≡ value_bit status }
{
    status / 4 % 2 == 1
}

/// Whether the bit of a register is set that stands so many places, 0 to 31, above the lowest.
pub fn has_bit(register: u32, place: usize) -> bool
    requires { place < 32 }
    ensures { result ≡ nat_eq (register / 2 ^ place % 2) 1 }
{
    register >> place & 1 == 1
}
