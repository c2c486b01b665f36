//! Where bytes go.
ghost use Rattle.std.specs.Prelude.{List, ℕ, Option};
ghost use Rattle.line_base.specs.Causes.{HasCause};
ghost use Rattle.line_base.specs.Streams.{PutAppends};

use crate::Failed;

/// A sink of bytes.
pub trait Sink {
    /// The bytes taken, where the sink tells them.
    ghost got: { Self → Option (List ℕ) };

    /// How often a put has failed.
    ghost faults: { Self → ℕ };

    /// Takes all of the bytes. After a failure it has taken some front of them.
    fn put(&mut self, bytes: &[u8]) -> Result<(), Failed>
        ensures bytes { PutAppends (got self.old) (got self.new) result bytes.now }
        ensures cause { HasCause (faults self.old) (faults self.new) result };
}
