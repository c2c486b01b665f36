//! What the reports of a channel stand for in its items, and how they grow.
ghost use Rattle.std.specs.Prelude.{◌++◌, All, List};
ghost use Rattle.line_base.specs.declared.edge.Item.{Item};
ghost use Rattle.line_base.specs.Streams.{IsFrontOf};
ghost use Rattle.receiver_core.specs.declared.setup.ChannelSetup.{ChannelSetup};
ghost use Rattle.receiver_core.specs.Channels.{final, so_far};
ghost use Rattle.receiver_core.specs.Meanings.{ReportMeans};

/// Does nothing; its contract is a law. Each report of a channel's items stands for something in them: a
/// gap for the item that tells of it, and anything else for what is so, at its place, in the edges between
/// two gaps. There a frame stands for pulses that carry it, its value and its counter for what its nibbles
/// say, a serial message for the statuses of frames that carry it, and a violated rule for what breaks it.
pub fn reports_have_meaning()
    ensures { (setup : ChannelSetup) (items : List Item) → All (ReportMeans setup items) (final setup items) }
{}

/// Does nothing; its contract is a law. The reports of a channel's items so far are the first of those of
/// these and more items, and the first of the final ones: what was told once stays.
pub fn reports_grow()
    ensures with_more { (setup : ChannelSetup) (items more : List Item) → IsFrontOf (so_far setup items) (so_far setup (items ++ more)) }
    ensures at_the_end { (setup : ChannelSetup) (items : List Item) → IsFrontOf (so_far setup items) (final setup items) }
{}
