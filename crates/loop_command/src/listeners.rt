//! Two receivers of the same edges, the second with gaps.
ghost use Rattle.std.specs.Prelude.{◌≡◌, ◌+◌, ◌^◌, ◌<◌, ◌≤◌, ◌++◌, [], ◌∷◌, List, None, length};
ghost use Rattle.line_base.specs.declared.edge.Edge.{Edge};
ghost use Rattle.receiver_core.specs.declared.setup.ChannelSetup.{ChannelSetup};
ghost use Rattle.receiver_core.specs.Setups.{setup_fault_of};

use crate::gaps::GapListener;
use crate::listener::hear;
use line_base::{Edge, Item};
use receiver_core::{ChannelSetup, CountedReceiver};

/// A receiver that gets all edges, and one that gets them with gaps. Contracts say by `HaveGot` which edges they have
/// got.
#[derive(Drop)]
pub struct Listeners {
    /// Gets all edges.
    pub all: CountedReceiver,
    /// Gets them with gaps.
    pub gaps: GapListener,
    /// The time of the last edge in ns, 0 where there is none.
    pub last: u64,
}

impl Listeners {
    ghost use Rattle.loop_command.specs.Listened.{AreInRange, HaveGot};
    ghost use Rattle.receiver_core.specs.Channels.{final};
    ghost use Rattle.receiver_core.specs.Tallies.{tally_of};
    ghost use Rattle.line_base.specs.Thinned.{thinned};
    ghost use Rattle.line_base.specs.declared.edge.Item.TheVariants as Item;
    ghost use Rattle.loop_command.specs.LostRuns.{lost_runs};
    ghost use Rattle.loop_command.specs.Loops.{last_time};
    ghost use Rattle.std.specs.Prelude.{map};

    /// Listeners on a channel of this setup, which has no fault, that have got no edge.
    pub fn new(setup: &ChannelSetup) -> Listeners
        requires { setup_fault_of setup.now ≡ None }
        ensures { HaveGot result setup.now [] }
    {
        Listeners {
            all: CountedReceiver::new(setup),
            gaps: GapListener::new(setup),
            last: 0,
        }
    }

    /// Both get the next edge.
    pub fn take_edge(&mut self, edge: Edge)
        requires takeable { (setup : ChannelSetup) × (edges : List Edge) × HaveGot self.old setup edges × (length edges < 2 ^ 50) }
        requires in_range { edge.time ≤ 10 ^ 15 }
        ensures { (setup : ChannelSetup) (edges : List Edge) → HaveGot self.old setup edges → HaveGot self.new setup (edges ++ edge ∷ []) }
    {
        hear(&mut self.all, Item::Edge(edge));
        self.gaps.take_edge(edge);
        self.last = edge.time;
    }

    /// Both get the next edges.
    pub fn take_edges(&mut self, more: &[Edge])
        requires takeable { (setup : ChannelSetup) × (edges : List Edge) × HaveGot self.old setup edges × (length edges + length more.now < 2 ^ 50) }
        requires in_range { AreInRange more.now }
        ensures { (setup : ChannelSetup) (edges : List Edge) → HaveGot self.old setup edges → HaveGot self.new setup (edges ++ more.now) }
    {
        if let Some((edge, others)) = more.split_first() {
            self.take_edge(*edge);
            self.take_edges(others);
        }
    }

    /// Both get the end.
    pub fn take_end(&mut self)
        requires { (setup : ChannelSetup) × (edges : List Edge) × HaveGot self.old setup edges × (length edges < 2 ^ 50) }
        ensures all { (setup : ChannelSetup) (edges : List Edge) → HaveGot self.old setup edges → self.new.all.tally ≡ tally_of (final setup (map Item.Edge edges)) }
        ensures thinned { (setup : ChannelSetup) (edges : List Edge) → HaveGot self.old setup edges → self.new.gaps.receiver.tally ≡ tally_of (final setup (thinned edges (lost_runs (length edges)))) }
        ensures edges { (setup : ChannelSetup) (edges : List Edge) → HaveGot self.old setup edges → self.new.gaps.edges ≡ length edges }
        ensures last { (setup : ChannelSetup) (edges : List Edge) → HaveGot self.old setup edges → self.new.last ≡ last_time edges }
    {
        hear(&mut self.all, Item::End);
        self.gaps.take_end();
    }
}
