//! The bits of a burst that isn't complete yet.
ghost use Rattle.std.specs.Prelude.{◌≡◌, ◌<◌, ◌≤◌, ◌++◌, [], ◌∷◌, length};

use std::marker::Model;

/// How many bits a frame has at most: two start bits, 28 bits of payload and a CRC of three.
pub const MAX_BITS: usize = 33;

/// Up to 33 bits. Contracts see the list.
#[derive(Clone, Copy, Debug, PartialEq, Eq)]
pub struct FrameBits {
    cells: [bool; MAX_BITS],
    count: usize,
}

impl Model for FrameBits {
    ghost use Rattle.std.specs.Prelude.{List, Bool, false, take, length, replicate, ◌++◌, ◌-◌};
    ghost use Rattle.psi5_frame.specs.Bits.{IsKept};

    ghost Value = { List Bool };

    ghost view = { λ v. take v.count v.cells };

    ghost invariant = { λ v. IsKept v.cells v.count };

    ghost inverse = { λ bits. record {
      cells = bits ++ replicate (33 - length bits) false;
      count = length bits;
    } };
}

impl FrameBits {
    /// No bit.
    pub fn new() -> Self
        ensures { result ≡ [] }
    {
        FrameBits {
            cells: [false; MAX_BITS],
            count: 0,
        }
    }

    /// Puts one more bit at the end.
    #[inline]
    pub fn push(&mut self, bit: bool)
        requires { length self.old < 33 }
        ensures { self.new ≡ self.old ++ bit ∷ [] }
    {
        self.cells[self.count] = bit;
        self.count += 1;
    }

    /// The bits, at most 33.
    pub fn as_slice(&self) -> &[bool]
        ensures value { result.now ≡ self.now }
        ensures few { length result.now ≤ 33 }
    {
        &self.cells[..self.count]
    }
}
