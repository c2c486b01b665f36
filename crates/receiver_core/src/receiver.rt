//! One channel's receiver.
ghost use Rattle.std.specs.Prelude.{◌≡◌, ◌^◌, ◌<◌, ◌≤◌, ◌++◌, [], ◌∷◌, List, ℕ, Option, None, map};
ghost use Rattle.line_base.specs.Edges.{NumberedEdge};
ghost use Rattle.line_base.specs.declared.edge.Item.{Item};
ghost use Rattle.receiver_core.specs.declared.setup.ChannelSetup.{ChannelSetup};
ghost use Rattle.receiver_core.specs.Setups.{setup_fault_of};
ghost use Rattle.line_base.specs.Items.{edges_counted};
ghost use Rattle.receiver_core.specs.Channels.{so_far};
ghost use Rattle.receiver_core.specs.OpenStretches.{open_with, resumed};
ghost use Rattle.receiver_core.specs.declared.message.Message.{Message};
ghost use Rattle.receiver_core.specs.Traces.{IsHonest, from_first};
ghost use Rattle.line_base.specs.Streams.{IsFrontOf};
ghost use Rattle.line_base.specs.declared.edge.Edge.{Edge};

use crate::psi5_channel::Psi5Channel;
use crate::report::{Report, What};
use crate::sent_channel::SentChannel;
use crate::setup::ChannelSetup;
use crate::spc_channel::SpcChannel;
use crate::tooth_channel::ToothChannel;
use arrayvec::ArrayVec;
use line_base::{Edge, Item};

/// What reads a channel's edges.
#[derive(Debug, Drop)]
enum Link {
    /// SENT frames.
    Sent(SentChannel),
    /// PSI5 bursts.
    Psi5(Psi5Channel),
    /// SPC transactions.
    Spc(SpcChannel),
    /// The tooth-gap downlink.
    Tooth(ToothChannel),
    /// An end came: nothing more is read.
    Ended,
}

/// Reads one channel, an item at a time, with memory of fixed size. Contracts say by `StandsFor` which list
/// of items it stands for. A gap drops what is open, and nothing is told after an end.
#[derive(Debug, Drop)]
pub struct Receiver {
    /// The number of the next edge, lost ones counted.
    number: u64,
    /// Reads the edges since the last gap.
    link: Link,
}

impl Link {
    ghost use Rattle.receiver_core.specs.Readers.{LinkStandsFor, open_count};

    /// What reads the edges of a setup that has no fault.
    fn new(setup: ChannelSetup) -> Link
        requires { setup_fault_of setup ≡ None }
        ensures { LinkStandsFor setup result (Some []) }
    {
        match setup {
            ChannelSetup::Sent {
                setup,
                layout,
                serial,
                ..
            } => Link::Sent(SentChannel::new(setup, layout, serial)),
            ChannelSetup::Psi5 {
                setup,
                slots,
                init,
                ..
            } => Link::Psi5(Psi5Channel::new(setup, slots, init)),
            ChannelSetup::Spc { setup, .. } => Link::Spc(SpcChannel::new(setup)),
            ChannelSetup::Tooth { setup, .. } => Link::Tooth(ToothChannel::new(setup)),
        }
    }

    /// Takes the next edge, with its number in the channel, and adds its reports to none.
    #[inline(always)]
    fn edge(&mut self, number: u64, edge: Edge, reports: &mut ArrayVec<Report, 8>)
        requires in_range { edge.time ≤ 10 ^ 15 }
        requires empty { reports.old.items ≡ [] }
        requires stands { (setup : ChannelSetup) × (stretch : Option (List NumberedEdge)) × LinkStandsFor setup self.old stretch × (open_count stretch < 2 ^ 60) }
        ensures stands { (setup : ChannelSetup) (stretch : Option (List NumberedEdge)) → LinkStandsFor setup self.old stretch
            → LinkStandsFor setup self.new (open_with number stretch (Item.Edge edge)) }
        ensures grows { (setup : ChannelSetup) (stretch : Option (List NumberedEdge)) → LinkStandsFor setup self.old stretch
            → resumed setup number stretch (Item.Edge edge ∷ []) ≡ resumed setup number stretch [] ++ reports.new.items }
    {
        match self {
            Link::Sent(channel) => channel.push(number, edge, reports),
            Link::Psi5(channel) => channel.push(number, edge, reports),
            Link::Spc(channel) => channel.push(number, edge, reports),
            Link::Tooth(channel) => channel.push(number, edge, reports),
            Link::Ended => {}
        }
    }

    /// Takes a gap: what is open is dropped. Adds its report to none.
    fn gap(&mut self, first: u64, count: u64, reports: &mut ArrayVec<Report, 8>)
        requires { reports.old.items ≡ [] }
        ensures stands { (setup : ChannelSetup) (number : ℕ) (stretch : Option (List NumberedEdge)) → LinkStandsFor setup self.old stretch
            → LinkStandsFor setup self.new (open_with number stretch (Item.Gap first count)) }
        ensures grows { (setup : ChannelSetup) (number : ℕ) (stretch : Option (List NumberedEdge)) → LinkStandsFor setup self.old stretch
            → resumed setup number stretch (Item.Gap first count ∷ []) ≡ resumed setup number stretch [] ++ reports.new.items }
    {
        match self {
            Link::Sent(channel) => channel.reset(),
            Link::Psi5(channel) => channel.reset(),
            Link::Spc(channel) => channel.reset(),
            Link::Tooth(channel) => channel.reset(),
            Link::Ended => return,
        }
        reports.push(Report {
            place: first,
            what: What::Gap { count },
        });
    }

    /// Takes the end of a whole list, and adds the reports that it gives to none: those of the last burst of a
    /// PSI5 channel, and that of an SPC trigger without an answer. SENT and the tooth gap give none.
    fn end(&mut self, reports: &mut ArrayVec<Report, 8>)
        requires empty { reports.old.items ≡ [] }
        requires stands { (setup : ChannelSetup) × (stretch : Option (List NumberedEdge)) × LinkStandsFor setup self.old stretch × (open_count stretch ≤ 2 ^ 60) }
        ensures stands { (setup : ChannelSetup) (number : ℕ) (stretch : Option (List NumberedEdge)) → LinkStandsFor setup self.old stretch
            → LinkStandsFor setup self.new (open_with number stretch Item.End) }
        ensures grows { (setup : ChannelSetup) (number : ℕ) (stretch : Option (List NumberedEdge)) → LinkStandsFor setup self.old stretch
            → resumed setup number stretch (Item.End ∷ []) ≡ resumed setup number stretch [] ++ reports.new.items }
    {
        match self {
            // A frame that is open at the end isn't whole.
            Link::Sent(_) => {}
            Link::Psi5(channel) => channel.end(reports),
            Link::Spc(channel) => channel.end(reports),
            // A frame that is open at the end isn't whole.
            Link::Tooth(_) => {}
            Link::Ended => {}
        }
        *self = Link::Ended;
    }

    /// Takes the end of a list that was cut off: what is open is dropped.
    fn cut(&mut self)
        ensures stands { (setup : ChannelSetup) (number : ℕ) (stretch : Option (List NumberedEdge)) → LinkStandsFor setup self.old stretch
            → LinkStandsFor setup self.new (open_with number stretch Item.Cut) }
        ensures grows { (setup : ChannelSetup) (number : ℕ) (stretch : Option (List NumberedEdge)) → LinkStandsFor setup self.old stretch
            → resumed setup number stretch (Item.Cut ∷ []) ≡ resumed setup number stretch [] }
    {
        *self = Link::Ended;
    }
}

impl Receiver {
    ghost use Rattle.receiver_core.specs.Readers.{StandsFor, IsTakeable};

    /// A receiver for this setup, which has no fault, that has taken no item.
    pub fn new(setup: ChannelSetup) -> Receiver
        requires { setup_fault_of setup ≡ None }
        ensures { StandsFor setup result [] }
    {
        Receiver {
            number: 0,
            link: Link::new(setup),
        }
    }

    /// Takes the next item of the channel, and gives the reports that come with it. An edge is on one of
    /// the channel's lines, at a time of at most 10^15 ns; edges, lost ones counted, are at most 2^60. Where the
    /// edges are an honest trace of some messages, the reports are exactly those of the messages, from the first
    /// whole frame on, once the end is taken, and before it the first of these.
    pub fn push(&mut self, item: Item) -> ArrayVec<Report, 8>
        requires { (setup : ChannelSetup) × (seen : List Item) × StandsFor setup self.old seen × IsTakeable (edges_counted seen) item }
        ensures stands { (setup : ChannelSetup) (seen : List Item) → StandsFor setup self.old seen → StandsFor setup self.new (seen ++ item ∷ []) }
        ensures grows { (setup : ChannelSetup) (seen : List Item) → StandsFor setup self.old seen
            → so_far setup (seen ++ item ∷ []) ≡ so_far setup seen ++ result.items }
        ensures tolerance { (setup : ChannelSetup) (messages : List Message) (edges : List Edge) → StandsFor setup self.old (map Item.Edge edges) → item ≡ Item.End
            → IsHonest setup messages edges → so_far setup (map Item.Edge edges) ++ result.items ≡ from_first setup messages edges }
        ensures tolerance_so_far { (setup : ChannelSetup) (messages : List Message) (edges more : List Edge) (edge : Edge) → StandsFor setup self.old (map Item.Edge edges) → item ≡ Item.Edge edge
            → IsHonest setup messages (edges ++ edge ∷ more) → IsFrontOf (so_far setup (map Item.Edge edges) ++ result.items) (from_first setup messages (edges ++ edge ∷ more)) }
    {
        let mut reports = ArrayVec::new();
        self.push_into(item, &mut reports);
        reports
    }

    /// Takes the next edge of the channel, and adds the reports that come with it to an empty list. It is on one of
    /// the channel's lines, at a time of at most 10^15 ns; edges, lost ones counted, are at most 2^60.
    #[inline(always)]
    pub fn push_edge(&mut self, edge: Edge, reports: &mut ArrayVec<Report, 8>)
        requires empty { reports.old.items ≡ [] }
        requires takeable { (setup : ChannelSetup) × (seen : List Item) × StandsFor setup self.old seen × IsTakeable (edges_counted seen) (Item.Edge edge) }
        ensures stands { (setup : ChannelSetup) (seen : List Item) → StandsFor setup self.old seen → StandsFor setup self.new (seen ++ Item.Edge edge ∷ []) }
        ensures grows { (setup : ChannelSetup) (seen : List Item) → StandsFor setup self.old seen
            → so_far setup (seen ++ Item.Edge edge ∷ []) ≡ so_far setup seen ++ reports.new.items }
    {
        let number = self.number;
        self.number = number + 1;
        self.link.edge(number, edge, reports);
    }

    /// Takes the next item of the channel, and adds the reports that come with it to an empty list.
    #[inline(always)]
    pub fn push_into(&mut self, item: Item, reports: &mut ArrayVec<Report, 8>)
        requires empty { reports.old.items ≡ [] }
        requires takeable { (setup : ChannelSetup) × (seen : List Item) × StandsFor setup self.old seen × IsTakeable (edges_counted seen) item }
        ensures stands { (setup : ChannelSetup) (seen : List Item) → StandsFor setup self.old seen → StandsFor setup self.new (seen ++ item ∷ []) }
        ensures grows { (setup : ChannelSetup) (seen : List Item) → StandsFor setup self.old seen
            → so_far setup (seen ++ item ∷ []) ≡ so_far setup seen ++ reports.new.items }
    {
        let number = self.number;
        match item {
            Item::Edge(edge) => self.push_edge(edge, reports),
            Item::Gap { first, count } => {
                self.number = number + count;
                self.link.gap(first, count, reports);
            }
            Item::End => self.link.end(reports),
            Item::Cut => self.link.cut(),
        }
    }
}
