//! A receiver, and what is counted of its reports.
ghost use Rattle.std.specs.Prelude.{◌≡◌, ◌+◌, ◌^◌, ◌<◌, ◌≤◌, ◌++◌, [], ◌∷◌, List, None, length};
ghost use Rattle.line_base.specs.declared.edge.Item.{Item};
ghost use Rattle.line_base.specs.Items.{edges_counted};
ghost use Rattle.receiver_core.specs.declared.report.Report.{Report};
ghost use Rattle.receiver_core.specs.Channels.{so_far};
ghost use Rattle.receiver_core.specs.Readers.{IsTakeable};
ghost use Rattle.receiver_core.specs.Setups.{setup_fault_of};
ghost use Rattle.receiver_core.specs.Tallies.{counted_in, lost_told, tally_of};

use crate::receiver::Receiver;
use crate::report::Report;
use crate::setup::ChannelSetup;
use crate::tally::Tally;
use arrayvec::ArrayVec;
use line_base::{Edge, Item};

/// A receiver with the tally of its reports. Contracts say by `HasTaken` which items it has taken.
#[derive(Drop)]
pub struct CountedReceiver {
    /// What is read, on which line.
    pub setup: ChannelSetup,
    /// Reads the items.
    pub receiver: Receiver,
    /// What is counted of its reports, gaps too.
    pub tally: Tally,
}

/// Counts reports.
fn count_each(reports: &[Report], tally: &mut Tally)
    requires room { counted_in tally.old + length reports.now < 2 ^ 64 }
    requires lost { tally.old.lost + lost_told reports.now < 2 ^ 64 }
    ensures few { counted_in tally.new ≤ counted_in tally.old + length reports.now }
    ensures counted { (before : List Report) → tally.old ≡ tally_of before → tally.new ≡ tally_of (before ++ reports.now) }
{
    if let Some((report, others)) = reports.split_first() {
        tally.add(report);
        count_each(others, tally);
    }
}

impl CountedReceiver {
    ghost use Rattle.receiver_core.specs.CountedReceivers.{HasTaken};

    /// A receiver of a channel of this setup, which has no fault, that has taken no item.
    pub fn new(setup: &ChannelSetup) -> CountedReceiver
        requires { setup_fault_of setup.now ≡ None }
        ensures setup { result.setup ≡ setup.now }
        ensures taken { HasTaken result [] }
    {
        CountedReceiver {
            setup: *setup,
            receiver: Receiver::new(*setup),
            tally: Tally::new(),
        }
    }

    /// Takes the next item of the channel, and adds the reports that come with it to none. There are fewer than 2^60
    /// items before it.
    pub fn take(&mut self, item: Item, reports: &mut ArrayVec<Report, 8>)
        requires empty { reports.old.items ≡ [] }
        requires takes { (items : List Item) × HasTaken self.old items × IsTakeable (edges_counted items) item × (length items < 2 ^ 60) }
        ensures setup { self.new.setup ≡ self.old.setup }
        ensures taken { (items : List Item) → HasTaken self.old items → HasTaken self.new (items ++ item ∷ []) }
        ensures grows { (items : List Item) → HasTaken self.old items → so_far self.old.setup (items ++ item ∷ []) ≡ so_far self.old.setup items ++ reports.new.items }
    {
        self.receiver.push_into(item, reports);
        count_each(reports.as_slice(), &mut self.tally);
    }

    /// Takes the next edge of the channel, and adds the reports that come with it to none, as `take` does: most edges
    /// give none, and are taken without a call.
    #[inline(always)]
    pub fn take_edge(&mut self, edge: Edge, reports: &mut ArrayVec<Report, 8>)
        requires empty { reports.old.items ≡ [] }
        requires takes { (items : List Item) × HasTaken self.old items × IsTakeable (edges_counted items) (Item.Edge edge) × (length items < 2 ^ 60) }
        ensures setup { self.new.setup ≡ self.old.setup }
        ensures taken { (items : List Item) → HasTaken self.old items → HasTaken self.new (items ++ Item.Edge edge ∷ []) }
        ensures grows { (items : List Item) → HasTaken self.old items → so_far self.old.setup (items ++ Item.Edge edge ∷ []) ≡ so_far self.old.setup items ++ reports.new.items }
    {
        self.receiver.push_edge(edge, reports);
        if !reports.is_empty() {
            count_each(reports.as_slice(), &mut self.tally);
        }
    }
}
