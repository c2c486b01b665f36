//! The bits of a frame that is being read or made.
ghost use Rattle.std.specs.Prelude.{◌≡◌, ◌<◌, ◌≤◌, ◌++◌, [], ◌∷◌, length};

use std::marker::Model;

/// How many bits are kept at most: a frame has up to 38, and one interval brings up to six more before they are
/// judged.
pub const MAX_BITS: usize = 44;

/// Up to 44 bits. Contracts see the list.
#[derive(Clone, Copy, Debug, PartialEq, Eq)]
pub struct FrameBits {
    cells: [bool; MAX_BITS],
    count: usize,
}

impl Model for FrameBits {
    ghost use Rattle.std.specs.Prelude.{List, Bool, false, take, length, replicate, ◌++◌, ◌-◌};
    ghost use Rattle.psi5_downlink.specs.Bits.{IsKept};

    ghost Value = { List Bool };

    ghost view = { λ v. take v.count v.cells };

    ghost invariant = { λ v. IsKept v.cells v.count };

    ghost inverse = { λ bits. record {
      cells = bits ++ replicate (44 - length bits) false;
      count = length bits;
    } };
}

impl FrameBits {
    /// No bit.
    pub fn new() -> Self
        ensures { result ≡ [] }
    {
        FrameBits {
            cells: [false; MAX_BITS],
            count: 0,
        }
    }

    /// Puts one more bit at the end.
    #[inline]
    pub fn push(&mut self, bit: bool)
        requires { length self.old < 44 }
        ensures { self.new ≡ self.old ++ bit ∷ [] }
    {
        self.cells[self.count] = bit;
        self.count += 1;
    }

    /// How many bits there are, at most 44.
    #[inline]
    pub fn len(&self) -> usize
        ensures value { result ≡ length self.now }
        ensures few { result ≤ 44 }
    {
        self.count
    }

    /// The bits, at most 44.
    pub fn as_slice(&self) -> &[bool]
        ensures value { result.now ≡ self.now }
        ensures few { length result.now ≤ 44 }
    {
        &self.cells[..self.count]
    }
}
