//! A receiver of whose reports the tally alone is kept.
ghost use Rattle.std.specs.Prelude.{◌≡◌, ◌^◌, ◌<◌, ◌++◌, [], ◌∷◌, List, length};
ghost use Rattle.line_base.specs.declared.edge.Item.{Item};
ghost use Rattle.line_base.specs.Items.{edges_counted};
ghost use Rattle.receiver_core.specs.declared.setup.ChannelSetup.{ChannelSetup};
ghost use Rattle.receiver_core.specs.Readers.{IsTakeable};
ghost use Rattle.loop_command.specs.Listened.{HasGot};

use arrayvec::ArrayVec;
use line_base::Item;
use receiver_core::CountedReceiver;

/// Hands the next item to a receiver, and drops what it reports.
pub fn hear(receiver: &mut CountedReceiver, item: Item)
    requires { (setup : ChannelSetup) × (items : List Item) × HasGot receiver.old setup items × IsTakeable (edges_counted items) item × (length items < 2 ^ 60) }
    ensures { (setup : ChannelSetup) (items : List Item) → HasGot receiver.old setup items → HasGot receiver.new setup (items ++ item ∷ []) }
{
    let mut reports = ArrayVec::new();
    receiver.take(item, &mut reports);
}
