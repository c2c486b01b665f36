//! The values of a frame that isn't whole yet.
ghost use Rattle.std.specs.Prelude.{◌≡◌, ◌<◌, ◌++◌, [], ◌∷◌, length};
ghost use Rattle.sent_frame.specs.Values.{AreValues};

use std::marker::Model;

/// How many values a frame has at most: a status, 6 data nibbles and a CRC.
pub const MAX_VALUES: usize = 8;

/// Up to 8 values below 16. Contracts see the list.
#[derive(Clone, Copy, Debug, PartialEq, Eq)]
pub struct FrameValues {
    cells: [u8; MAX_VALUES],
    count: usize,
}

impl Model for FrameValues {
    ghost use Rattle.std.specs.Prelude.{List, ℕ, take, length, replicate, ◌++◌, ◌-◌};
    ghost use Rattle.sent_frame.specs.Values.{IsKept};

    ghost Value = { List ℕ };

    ghost view = { λ v. take v.count v.cells };

    ghost invariant = { λ v. IsKept v.cells v.count };

    ghost inverse = { λ values. record {
      cells = values ++ replicate (8 - length values) 0;
      count = length values;
    } };
}

impl FrameValues {
    /// No value.
    pub fn new() -> Self
        ensures { result ≡ [] }
    {
        FrameValues {
            cells: [0; MAX_VALUES],
            count: 0,
        }
    }

    /// These values, and one more.
    pub fn with(self, value: u8) -> Self
        requires room { length self < 8 }
        requires nibble { value < 16 }
        ensures { result ≡ self ++ value ∷ [] }
    {
        let FrameValues { mut cells, count } = self;
        cells[count] = value;
        FrameValues {
            cells,
            count: count + 1,
        }
    }

    /// Adds one more value, in place.
    #[inline(always)]
    pub fn push(&mut self, value: u8)
        requires room { length self.old < 8 }
        requires nibble { value < 16 }
        ensures { self.new ≡ self.old ++ value ∷ [] }
    {
        self.cells[self.count] = value;
        self.count += 1;
    }

    /// How many values there are, 0 to 8.
    pub fn len(&self) -> usize
        ensures { result ≡ length self.now }
    {
        self.count
    }

    /// The values, each below 16.
    pub fn as_slice(&self) -> &[u8]
        ensures value { result.now ≡ self.now }
        ensures nibbles { AreValues result.now }
    {
        &self.cells[..self.count]
    }
}
