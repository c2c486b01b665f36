//! A list of 1 to 6 data nibbles, by value.
ghost use Rattle.std.specs.Prelude.{◌≡◌, IfSome, ◌↔◌, IsSome};
ghost use Rattle.line_base.specs.Nibbles.{AreNibbles};

use std::marker::Model;

/// 1 to 6 numbers below 16. Contracts see the list.
#[derive(Clone, Copy, Debug, PartialEq, Eq)]
pub struct Nibbles {
    cells: [u8; 6],
    count: usize,
}

impl Model for Nibbles {
    ghost use Rattle.std.specs.Prelude.{List, ℕ, take, length, replicate, ◌++◌, ◌-◌};
    ghost use Rattle.line_base.specs.Nibbles.{IsKept};

    ghost Value = { List ℕ };

    ghost view = { λ n. take n.count n.cells };

    ghost invariant = { λ n. IsKept n.cells n.count };

    ghost inverse = { λ values. record {
      cells = values ++ replicate (6 - length values) 0;
      count = length values;
    } };
}

impl Nibbles {
    /// The list of these values, or `None` exactly where there aren't 1 to 6 or one is above 15.
    pub fn new(values: &[u8]) -> Option<Nibbles>
        ensures values { IfSome result (λ nibbles. nibbles ≡ values.now) }
        ensures accepted { IsSome result ↔ AreNibbles values.now }
    {
        if values.is_empty() || values.len() > 6 || values.iter().any(|value| *value > 15) {
            return None;
        }
        let mut cells = [0; 6];
        let count = values.len();
        cells[..count].copy_from_slice(values);
        Some(Nibbles { cells, count })
    }

    /// The values, 1 to 6, each below 16.
    pub fn values(&self) -> &[u8]
        ensures values { result.now ≡ self.now }
        ensures nibbles { AreNibbles result.now }
    {
        &self.cells[..self.count]
    }
}
