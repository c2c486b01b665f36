//! A receiver that gets edges with gaps.
ghost use Rattle.std.specs.Prelude.{◌≡◌, ◌%◌, ◌&&◌, nat_le, nat_lt};

use crate::listener::hear;
use line_base::{Edge, Item};
use receiver_core::{ChannelSetup, CountedReceiver};

/// A lost run begins with each edge whose number is a multiple of this, but with the first edge.
const RUN_EVERY: u64 = 1_000;

/// How many edges a lost run has, where there are so many.
const RUN_LENGTH: u64 = 50;

/// A listener from whose edges runs are lost: up to 50 from number 1,000 on, from number 2,000 on, and so on. Contracts
/// say by `HasGotThinned` which edges it has got.
#[derive(Drop)]
pub struct GapListener {
    /// Gets the edges that aren't lost, and gaps.
    pub receiver: CountedReceiver,
    /// How many edges there were.
    pub edges: u64,
}

/// Whether the edge of this number is lost.
fn is_lost(number: u64) -> bool
    ensures { result ≡ (nat_le 1000 number && nat_lt (number % 1000) 50) }
{
    number >= RUN_EVERY && number % RUN_EVERY < RUN_LENGTH
}

impl GapListener {
    ghost use Rattle.std.specs.Prelude.{◌^◌, ◌<◌, ◌≤◌, ◌++◌, [], ◌∷◌, List, None, length};
    ghost use Rattle.line_base.specs.Thinned.{thinned};
    ghost use Rattle.line_base.specs.declared.edge.Edge.{Edge};
    ghost use Rattle.receiver_core.specs.declared.setup.ChannelSetup.{ChannelSetup};
    ghost use Rattle.receiver_core.specs.Channels.{final};
    ghost use Rattle.receiver_core.specs.Tallies.{tally_of};
    ghost use Rattle.receiver_core.specs.Setups.{setup_fault_of};
    ghost use Rattle.loop_command.specs.Listened.{HasGot, HasGotThinned};
    ghost use Rattle.loop_command.specs.LostRuns.{lost_runs};

    /// A listener on a channel of this setup, which has no fault, that has got no edge.
    pub fn new(setup: &ChannelSetup) -> GapListener
        requires { setup_fault_of setup.now ≡ None }
        ensures { HasGotThinned result setup.now [] }
    {
        GapListener {
            receiver: CountedReceiver::new(setup),
            edges: 0,
        }
    }

    /// Gets the next edge, or loses it; with the last edge of a lost run it gets the gap.
    pub fn take_edge(&mut self, edge: Edge)
        requires takeable { (setup : ChannelSetup) × (edges : List Edge) × HasGotThinned self.old setup edges × (length edges < 2 ^ 50) }
        requires in_range { edge.time ≤ 10 ^ 15 }
        ensures { (setup : ChannelSetup) (edges : List Edge) → HasGotThinned self.old setup edges → HasGotThinned self.new setup (edges ++ edge ∷ []) }
    {
        let number = self.edges;
        self.edges = number + 1;
        if !is_lost(number) {
            hear(&mut self.receiver, Item::Edge(edge));
        } else if number % RUN_EVERY == RUN_LENGTH - 1 {
            hear(
                &mut self.receiver,
                Item::Gap {
                    first: number - (RUN_LENGTH - 1),
                    count: RUN_LENGTH,
                },
            );
        }
    }

    /// Gets the gap of a lost run that is open, where there is one.
    fn close_run(&mut self)
        requires { (setup : ChannelSetup) × (edges : List Edge) × HasGotThinned self.old setup edges × (length edges < 2 ^ 50) }
        ensures edges { self.new.edges ≡ self.old.edges }
        ensures got { (setup : ChannelSetup) (edges : List Edge) → HasGotThinned self.old setup edges → HasGot self.new.receiver setup (thinned edges (lost_runs (length edges))) }
    {
        let open = self.edges % RUN_EVERY;
        if is_lost(self.edges) && open > 0 {
            hear(
                &mut self.receiver,
                Item::Gap {
                    first: self.edges - open,
                    count: open,
                },
            );
        }
    }

    /// Gets the end.
    pub fn take_end(&mut self)
        requires { (setup : ChannelSetup) × (edges : List Edge) × HasGotThinned self.old setup edges × (length edges < 2 ^ 50) }
        ensures edges { self.new.edges ≡ self.old.edges }
        ensures counted { (setup : ChannelSetup) (edges : List Edge) → HasGotThinned self.old setup edges → self.new.receiver.tally ≡ tally_of (final setup (thinned edges (lost_runs (length edges)))) }
    {
        self.close_run();
        hear(&mut self.receiver, Item::End);
    }
}
