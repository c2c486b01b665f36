//! The counter of secure12, from frame to frame.
ghost use Rattle.std.specs.Prelude.{◌≡◌, ◌↔◌, Some, None, IsSome, IsSomeAnd, IfSome};
ghost use Rattle.sent_fast.specs.Counters.{Follows};

use std::marker::Model;

/// Watches the counter from frame to frame. Contracts see the counter of the last frame since it was made
/// or reset, if there was one.
#[derive(Debug, Drop)]
pub struct CounterWatch {
    last: Option<u8>,
}

impl Model for CounterWatch {
    ghost use Rattle.std.specs.Prelude.{ℕ, Option};

    ghost Value = { Option ℕ };

    ghost view = { λ w. w.last };
}

impl CounterWatch {
    /// A watch that has seen no frame.
    pub fn new() -> CounterWatch
        ensures { result ≡ None }
    {
        CounterWatch { last: None }
    }

    /// Takes the counter of the next frame, 0 to 255. Where it doesn't follow the one before, both come
    /// back, the one before first; 0 follows 255.
    pub fn push(&mut self, counter: u8) -> Option<(u8, u8)>
        ensures kept { self.new ≡ Some counter }
        ensures found { IsSome result ↔ IsSomeAnd self.old (λ before. ¬ Follows before counter) }
        ensures value { IfSome result (λ jump. (self.old ≡ Some jump.0) × (jump.1 ≡ counter)) }
    {
        let before = self.last.replace(counter)?;
        if counter == before.wrapping_add(1) {
            return None;
        }
        Some((before, counter))
    }

    /// Forgets the last frame: whatever comes next is the first.
    pub fn reset(&mut self)
        ensures { self.new ≡ None }
    {
        self.last = None;
    }
}
