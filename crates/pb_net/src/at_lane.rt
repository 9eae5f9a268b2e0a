//! Steps of a lane, with the queues at its ends.

ghost use Rattle.std.specs.Prelude.{◌≡◌, ◌<◌, length, true, false, OnOk, OnErr};
ghost use Rattle.pb_lan.specs.LaneLists.{IsLawfulLane};
ghost use Rattle.pb_link.specs.Lanes.{is_hand_empty};
ghost use Rattle.pb_net.specs.Moves.{HasTakenFrom, HasPutInto};

use pb_frame::Memory;
use pb_lan::Item;
use pb_link::Lane;
use std::collections::VecDeque;

/// Takes the oldest item of the outbox at the lane's beginning.
///
/// # Errors
///
/// `Memory` if an allocation failed. The steps and the outbox are unchanged then.
pub(crate) fn take_at(lane: &mut Lane, outbox: &mut VecDeque<Item>) -> Result<(), Memory>
    requires empty { is_hand_empty lane.old.steps ≡ true }
    requires some { 0 < length outbox.old.items }
    ensures losses { lane.new.losses ≡ lane.old.losses }
    ensures kept { lane.new.is_kept ≡ lane.old.is_kept }
    ensures lawful { OnOk result (IsLawfulLane lane.new.losses lane.new.steps) }
    ensures ok { OnOk result (HasTakenFrom lane.old outbox.old.items lane.new outbox.new.items) }
    ensures err { OnErr result (lane.new.steps ≡ lane.old.steps) }
    ensures err_outbox { OnErr result (outbox.new.items ≡ outbox.old.items) }
{
    lane.reserve()?;
    let Some(item) = outbox.pop_front() else {
        unreachable!();
    };
    lane.accept(item);
    Ok(())
}

/// Puts the item in the lane's hand into the inbox of the bridge at its end.
///
/// # Errors
///
/// `Memory` if an allocation failed. The steps and the inbox are unchanged then.
pub(crate) fn put_at(lane: &mut Lane, inbox: &mut VecDeque<Item>) -> Result<(), Memory>
    requires { is_hand_empty lane.old.steps ≡ false }
    ensures losses { lane.new.losses ≡ lane.old.losses }
    ensures kept { lane.new.is_kept ≡ lane.old.is_kept }
    ensures lawful { OnOk result (IsLawfulLane lane.new.losses lane.new.steps) }
    ensures ok { OnOk result (HasPutInto lane.old inbox.old.items lane.new inbox.new.items) }
    ensures err { OnErr result (lane.new.steps ≡ lane.old.steps) }
    ensures err_inbox { OnErr result (inbox.new.items ≡ inbox.old.items) }
{
    inbox.reserve(1)?;
    let item = lane.release()?;
    let _ = inbox.push_back(item);
    Ok(())
}
