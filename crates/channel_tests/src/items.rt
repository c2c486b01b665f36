//! Lists of items, and what a receiver reports of them.
ghost use Rattle.std.specs.Prelude.{◌≡◌, ◌+◌, ◌∷◌, [], None, IfSome};
ghost use Rattle.receiver_core.specs.Setups.{setup_fault_of};
ghost use Rattle.line_base.specs.Items.{edges_counted};
ghost use Rattle.receiver_core.specs.Readers.{IsTakeable};

use line_base::{Edge, Item};
use receiver_core::{ChannelSetup, Receiver, Report, What};
use std::alloc::{AllocError, Global};
use std::process::Abort;

/// How many edges a receiver takes, lost ones counted.
const MOST_EDGES: u64 = 1 << 60;

/// How many edges there are with the item, where a receiver may be handed it after so many.
fn counted(number: u64, item: Item) -> Option<u64>
    ensures { IfSome result (λ next. IsTakeable number item × (next ≡ number + edges_counted (item ∷ []))) }
{
    match item {
        Item::Edge(edge) if edge.time <= 1_000_000_000_000_000 => {
            if number < MOST_EDGES {
                Some(number + 1)
            } else {
                None
            }
        }
        Item::Edge(_) => None,
        Item::Gap { count, .. } => number.checked_add(count).filter(|next| *next <= MOST_EDGES),
        Item::End | Item::Cut => Some(number),
    }
}

/// The reports of these items, up to the first that a receiver may not be handed.
pub(crate) fn reports(
    alloc: Global,
    setup: ChannelSetup,
    items: &[Item],
) -> Result<Vec<Report>, AllocError>
    requires { setup_fault_of setup ≡ None }
{
    let mut receiver = Receiver::new(setup);
    let mut number = 0;
    let mut reports = Vec::new(alloc);
    for item in items {
        let Some(next) = counted(number, *item) else {
            break;
        };
        let answers = receiver.push(*item);
        number = next;
        reports.extend_from_slice(answers.as_slice())?;
    }
    Ok(reports)
}

/// The setup, where it has no fault. Else the test stops.
pub(crate) fn sound(rt: &impl Abort, setup: ChannelSetup) -> ChannelSetup
    ensures { setup_fault_of result ≡ None }
{
    match setup.fault() {
        None => setup,
        Some(_) => rt.abort(),
    }
}

/// Adds edges of this line that lie so many times a unit behind a start, both in ns. The first has this level, and
/// each later one the other.
pub(crate) fn add_edges(
    items: &mut Vec<Item>,
    line: u8,
    start: u32,
    unit: u32,
    places: &[u32],
    first: bool,
) -> Result<(), AllocError> {
    let mut level = first;
    for place in places {
        let time = u64::from(start) + u64::from(unit) * u64::from(*place);
        items.push(Item::Edge(Edge { line, time, level }))?;
        level = !level;
    }
    Ok(())
}

/// The report of a gap.
pub(crate) fn gap(place: u64, count: u64) -> Report {
    Report {
        place,
        what: What::Gap { count },
    }
}
