//! Steps of a customer port, with the queues between it and its bridge.

ghost use Rattle.std.specs.Prelude.{◌≡◌, ◌<◌, ◌++◌, ◌∷◌, [], length, true, false, OnOk, OnErr};
ghost use Rattle.pb_lan.specs.Events.{is_hand_empty};
ghost use Rattle.pb_lan.specs.declared.step.Step.TheVariants.{Poll};
ghost use Rattle.pb_link.specs.Hands.{arrival};
ghost use Rattle.pb_lan.specs.PortLists.{IsLawfulPort};
ghost use Rattle.pb_net.specs.Moves.{HasFedInto, HasDelivered};

use bytes::Bytes;
use pb_frame::Memory;
use pb_lan::Item;
use pb_link::CustomerPlace;
use std::collections::VecDeque;

/// Polls a frame from outside.
///
/// # Errors
///
/// `Memory` if an allocation failed. The steps are unchanged then.
pub(crate) fn poll_at(place: &mut CustomerPlace, frame: Bytes) -> Result<(), Memory>
    requires { is_hand_empty place.old.steps ≡ true }
    ensures number { place.new.number ≡ place.old.number }
    ensures kept { place.new.is_kept ≡ place.old.is_kept }
    ensures lawful { OnOk result (IsLawfulPort place.new.number place.new.steps) }
    ensures ok { OnOk result (place.new.steps ≡ place.old.steps ++ Poll (arrival place.old frame) ∷ []) }
    ensures err { OnErr result (place.new.steps ≡ place.old.steps) }
{
    place.reserve_step()?;
    place.poll(frame);
    Ok(())
}

/// Feeds the frame in hand into the bridge's inbox.
///
/// # Errors
///
/// `Memory` if an allocation failed. The steps and the inbox are unchanged then.
pub(crate) fn feed_at(place: &mut CustomerPlace, inbox: &mut VecDeque<Item>) -> Result<(), Memory>
    requires { is_hand_empty place.old.steps ≡ false }
    ensures number { place.new.number ≡ place.old.number }
    ensures kept { place.new.is_kept ≡ place.old.is_kept }
    ensures lawful { OnOk result (IsLawfulPort place.new.number place.new.steps) }
    ensures ok { OnOk result (HasFedInto place.old inbox.old.items place.new inbox.new.items) }
    ensures err { OnErr result (place.new.steps ≡ place.old.steps) }
    ensures err_inbox { OnErr result (inbox.new.items ≡ inbox.old.items) }
{
    inbox.reserve(1)?;
    place.reserve_step()?;
    let item = place.feed()?;
    let _ = inbox.push_back(item);
    Ok(())
}

/// Delivers the oldest item of the bridge's outbox.
///
/// # Errors
///
/// `Memory` if an allocation failed. The steps and the outbox are unchanged then.
pub(crate) fn deliver_at(
    place: &mut CustomerPlace,
    outbox: &mut VecDeque<Item>,
) -> Result<(), Memory>
    requires { 0 < length outbox.old.items }
    ensures number { place.new.number ≡ place.old.number }
    ensures kept { place.new.is_kept ≡ place.old.is_kept }
    ensures lawful { OnOk result (IsLawfulPort place.new.number place.new.steps) }
    ensures ok { OnOk result (HasDelivered place.old outbox.old.items place.new outbox.new.items) }
    ensures err { OnErr result (place.new.steps ≡ place.old.steps) }
    ensures err_outbox { OnErr result (outbox.new.items ≡ outbox.old.items) }
{
    place.reserve_step()?;
    let Some(item) = outbox.pop_front() else {
        unreachable!();
    };
    place.deliver(item, false);
    Ok(())
}
