//! The channels of a command, by value.
ghost use Rattle.std.specs.Prelude.{◌≡◌, ◌<◌, ◌≤◌, ◌++◌, ◌∷◌, [], length};

use receiver_core::ChannelSetup;
use std::marker::Model;

/// How many channels a command may have.
pub(crate) const MAX_CHANNELS: usize = 16;

/// The setups of 1 to 16 channels. Contracts see the list.
#[derive(Clone, Copy, Debug, PartialEq, Eq)]
pub struct Setups {
    cells: [ChannelSetup; MAX_CHANNELS],
    count: usize,
}

impl Model for Setups {
    ghost use Rattle.std.specs.Prelude.{List, take, length};
    ghost use Rattle.receiver_core.specs.declared.setup.ChannelSetup.{ChannelSetup};
    ghost use Rattle.link_words.specs.Setups.{IsKept, padded};

    ghost Value = { List ChannelSetup };

    ghost view = { λ s. take s.count s.cells };

    ghost invariant = { λ s. IsKept s.cells s.count };

    ghost inverse = { λ setups. record { cells = padded setups; count = length setups } };
}

impl Setups {
    /// One channel.
    pub(crate) fn new(setup: ChannelSetup) -> Setups
        ensures { result ≡ setup ∷ [] }
    {
        Setups {
            cells: [setup; MAX_CHANNELS],
            count: 1,
        }
    }

    /// The setups, 1 to 16.
    pub fn list(&self) -> &[ChannelSetup]
        ensures list { result.now ≡ self.now }
        ensures some { 1 ≤ length result.now }
        ensures few { length result.now ≤ 16 }
    {
        &self.cells[..self.count]
    }

    /// Puts a channel behind the others, of which there are fewer than 16.
    pub(crate) fn push(&mut self, setup: ChannelSetup)
        requires { length self.old < 16 }
        ensures { self.new ≡ self.old ++ setup ∷ [] }
    {
        self.cells[self.count] = setup;
        self.count += 1;
    }
}
