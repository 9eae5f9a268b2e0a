//! The departure of an item from a bridge.

ghost use Rattle.std.specs.Prelude.{◌≡◌, true, false};
ghost use Rattle.pb_history.specs.StepLists.{with_step};
ghost use Rattle.pb_lan.specs.declared.step.Step.TheVariants.{Transmit};
ghost use Rattle.pb_relay.specs.Departures.{copy_of};

use crate::bridge::append;
use pb_history::Steps;
use pb_lan::{Item, Step};

/// An item that leaves a port.
#[derive(Drop)]
pub struct Departure {
    /// The item that leaves.
    pub item: Item,
    /// Its copy for the Transmit step, if steps are kept.
    pub copy: Option<Item>,
}

/// Appends the Transmit step of an item, and returns the item. Allocates nothing.
#[inline(always)]
pub fn depart(steps: &mut Steps, port: u8, departure: Departure) -> Item
    requires reserved { steps.old.is_reserved ≡ true }
    requires copy { departure.copy ≡ copy_of steps.old.is_kept departure.item }
    ensures item { result ≡ departure.item }
    ensures steps { steps.new ≡ with_step steps.old (Transmit port departure.item) }
{
    let Departure { item, copy } = departure;
    let Some(copy) = copy else {
        return depart_counted(steps, port, item);
    };
    append(steps, Step::Transmit { port, item: copy });
    item
}

/// Counts the Transmit step of an item, and takes the item out of the step again.
#[inline(always)]
fn depart_counted(steps: &mut Steps, port: u8, item: Item) -> Item
    requires reserved { steps.old.is_reserved ≡ true }
    requires counted { steps.old.is_kept ≡ false }
    ensures item { result ≡ item }
    ensures steps { steps.new ≡ with_step steps.old (Transmit port item) }
{
    let Some(Step::Transmit { item, .. }) = steps.append(Step::Transmit { port, item }) else {
        unreachable!();
    };
    item
}
