//! Checks whether an event is due, and finds its place.

ghost use Rattle.std.specs.Prelude.{◌≡◌, [], IfOk, IfSome};
ghost use Rattle.pb_net.specs.Dues.{IsSifted, IsDueOr};
ghost use Rattle.pb_net.specs.Slots.{IsBridgeSpot, IsCustomerSpot, IsLaneStart, IsLaneEnd};

use crate::fault::NetFault;
use crate::net::Net;
use crate::slots::Spot;
use pb_lan::Event;

/// Returns the place if there is something to do and its list may take one more step.
///
/// # Errors
///
/// `StepLimit` if there is something to do and the list holds the plan's number of steps.
pub(crate) fn sift<P: Copy>(
    is_idle: bool,
    is_at_limit: bool,
    place: P,
) -> Result<Option<P>, NetFault>
    ensures { IsSifted is_idle is_at_limit place result }
{
    if is_idle {
        return Ok(None);
    }
    if is_at_limit {
        return Err(NetFault::StepLimit);
    }
    Ok(Some(place))
}

impl Net {
    /// Returns the customer port of a Poll that is due: its hand is empty.
    ///
    /// # Errors
    ///
    /// `NoSuch` if there is no such port, `StepLimit` as for [`sift`].
    pub(crate) fn due_poll(&self, port: u8) -> Result<Option<Spot>, NetFault>
        ensures due { IsDueOr self.now (Event.Poll port []) result }
        ensures spot { IfOk result (λ o. IfSome o (IsCustomerSpot self.now.plan port)) }
    {
        let Some(spot) = self.customer_spot(port) else {
            return Err(NetFault::NoSuch);
        };
        let customer = &self.customers[spot.place];
        let is_idle = !customer.is_hand_empty();
        sift(is_idle, customer.step_count() == self.limit, spot)
    }

    /// Returns the customer port of a Feed that is due: a frame is in hand, and the bridge's inbox is not full.
    ///
    /// # Errors
    ///
    /// `NoSuch` if there is no such port, `StepLimit` as for [`sift`].
    pub(crate) fn due_feed(&self, port: u8) -> Result<Option<Spot>, NetFault>
        ensures due { IsDueOr self.now (Event.Feed port) result }
        ensures spot { IfOk result (λ o. IfSome o (IsCustomerSpot self.now.plan port)) }
    {
        let Some(spot) = self.customer_spot(port) else {
            return Err(NetFault::NoSuch);
        };
        let customer = &self.customers[spot.place];
        let inbox = &self.inboxes[spot.slot];
        let is_idle = customer.is_hand_empty() | (self.ring <= inbox.len());
        sift(is_idle, customer.step_count() == self.limit, spot)
    }

    /// Returns the customer port of a Deliver that is due: the bridge's outbox is not empty.
    ///
    /// # Errors
    ///
    /// `NoSuch` if there is no such port, `StepLimit` as for [`sift`].
    pub(crate) fn due_deliver(&self, port: u8) -> Result<Option<Spot>, NetFault>
        ensures due { IsDueOr self.now (Event.Deliver port) result }
        ensures spot { IfOk result (λ o. IfSome o (IsCustomerSpot self.now.plan port)) }
    {
        let Some(spot) = self.customer_spot(port) else {
            return Err(NetFault::NoSuch);
        };
        let customer = &self.customers[spot.place];
        let outbox = &self.outboxes[spot.slot];
        sift(outbox.is_empty(), customer.step_count() == self.limit, spot)
    }

    /// Returns the bridge and port of a Receive that is due: the port's inbox is not empty.
    ///
    /// # Errors
    ///
    /// `NoSuch` if the plan uses no such port, `StepLimit` as for [`sift`].
    pub(crate) fn due_receive(&self, bridge: u8, port: u8) -> Result<Option<Spot>, NetFault>
        ensures due { IsDueOr self.now (Event.Receive bridge port) result }
        ensures spot { IfOk result (λ o. IfSome o (IsBridgeSpot self.now.plan bridge port)) }
    {
        let Some(spot) = self.used_spot(bridge, port) else {
            return Err(NetFault::NoSuch);
        };
        let at = &self.bridges[spot.place];
        let inbox = &self.inboxes[spot.slot];
        sift(inbox.is_empty(), at.step_count() == self.limit, spot)
    }

    /// Returns the bridge and port of a Transmit that is due: an item waits at the port, and its outbox is not full.
    ///
    /// # Errors
    ///
    /// `NoSuch` if the plan uses no such port, `StepLimit` as for [`sift`].
    pub(crate) fn due_transmit(&self, bridge: u8, port: u8) -> Result<Option<Spot>, NetFault>
        ensures due { IsDueOr self.now (Event.Transmit bridge port) result }
        ensures spot { IfOk result (λ o. IfSome o (IsBridgeSpot self.now.plan bridge port)) }
    {
        let Some(spot) = self.used_spot(bridge, port) else {
            return Err(NetFault::NoSuch);
        };
        let at = &self.bridges[spot.place];
        let outbox = &self.outboxes[spot.slot];
        let is_idle = (at.waiting(port) == 0) | (self.ring <= outbox.len());
        sift(is_idle, at.step_count() == self.limit, spot)
    }

    /// Returns the lane of a Take that is due: its hand is empty, and the outbox at its beginning is not.
    ///
    /// # Errors
    ///
    /// `NoSuch` if there is no such lane, `StepLimit` as for [`sift`].
    pub(crate) fn due_take(&self, lane: u8) -> Result<Option<Spot>, NetFault>
        ensures due { IsDueOr self.now (Event.Take lane) result }
        ensures spot { IfOk result (λ o. IfSome o (IsLaneStart self.now.plan lane)) }
    {
        let Some(spot) = self.lane_start(lane) else {
            return Err(NetFault::NoSuch);
        };
        let at = &self.lanes[spot.place];
        let outbox = &self.outboxes[spot.slot];
        let is_idle = !at.is_hand_empty() | outbox.is_empty();
        sift(is_idle, at.step_count() == self.limit, spot)
    }

    /// Returns the lane of a Put that is due: an item is in hand, and the inbox at its end is not full.
    ///
    /// # Errors
    ///
    /// `NoSuch` if there is no such lane, `StepLimit` as for [`sift`].
    pub(crate) fn due_put(&self, lane: u8) -> Result<Option<Spot>, NetFault>
        ensures due { IsDueOr self.now (Event.Put lane) result }
        ensures spot { IfOk result (λ o. IfSome o (IsLaneEnd self.now.plan lane)) }
    {
        let Some(spot) = self.lane_end(lane) else {
            return Err(NetFault::NoSuch);
        };
        let at = &self.lanes[spot.place];
        let inbox = &self.inboxes[spot.slot];
        let is_idle = at.is_hand_empty() | (self.ring <= inbox.len());
        sift(is_idle, at.step_count() == self.limit, spot)
    }
}
