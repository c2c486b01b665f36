//! The bytes of one line, up to 512.
ghost use Rattle.std.specs.Prelude.{◌≡◌, ◌+◌, ◌<◌, ◌≤◌, [], ◌∷◌, ◌++◌, length};

use std::marker::Model;

/// How many bytes a line may have before its LF: 512, this project's own limit.
pub const LINE_LIMIT: usize = 512;

/// The bytes of a line. Contracts see the list.
#[derive(Drop)]
pub struct LineBytes {
    cells: [u8; 512],
    count: usize,
}

impl Model for LineBytes {
    ghost use Rattle.std.specs.Prelude.{List, ℕ, take, ◌≤◌};

    ghost Value = { List ℕ };

    ghost view = { λ line. take line.count line.cells };

    ghost invariant = { λ line. line.count ≤ 512 };
}

impl LineBytes {
    /// No bytes.
    pub fn new() -> LineBytes
        ensures { result ≡ [] }
    {
        LineBytes {
            cells: [0; 512],
            count: 0,
        }
    }

    /// How many bytes there are, up to 512.
    #[inline]
    pub fn len(&self) -> usize
        ensures length { result ≡ length self.now }
        ensures limit { result ≤ 512 }
    {
        self.count
    }

    /// The bytes.
    #[inline]
    pub fn as_slice(&self) -> &[u8]
        ensures { result.now ≡ self.now }
    {
        &self.cells[..self.count]
    }

    /// Adds a byte at the end. There are fewer than 512.
    #[inline]
    pub fn push(&mut self, byte: u8)
        requires { length self.old < 512 }
        ensures { self.new ≡ self.old ++ byte ∷ [] }
    {
        self.cells[self.count] = byte;
        self.count += 1;
    }

    /// Adds bytes at the end. There are at most 512 with them.
    #[inline]
    pub fn extend(&mut self, bytes: &[u8])
        requires { length self.old + length bytes.now ≤ 512 }
        ensures { self.new ≡ self.old ++ bytes.now }
    {
        let end = self.count + bytes.len();
        self.cells[self.count..end].copy_from_slice(bytes);
        self.count = end;
    }

    /// Drops all bytes.
    #[inline]
    pub fn clear(&mut self)
        ensures { self.new ≡ [] }
    {
        self.count = 0;
    }
}
