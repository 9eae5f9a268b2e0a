//! Finds the place and the slot that a number names.

ghost use Rattle.std.specs.Prelude.{◌≡◌, ◌<◌, ◌+◌, ◌⊎◌, true, false, nat_le, ◌&&◌, IfSome, IfNone};
ghost use Rattle.pb_lan.specs.Events.{has_place};
ghost use Rattle.pb_lan.specs.Ports.{is_used, is_provider, port_at};
ghost use Rattle.pb_lan.specs.Ports.Port.{Unused};
ghost use Rattle.pb_lan.specs.declared.step.Place.TheVariants.{Customer as CustomerPort, Lane};
ghost use Rattle.pb_net.specs.Slots.{IsBridgeSpot, IsCustomerSpot, IsLaneStart, IsLaneEnd};

use crate::net::Net;
use crate::slots::{PortUse, Spot};

/// Returns the index of the item with this number among `count` items, numbered from 1. `None` if there is none.
pub(crate) fn index_among(number: u8, count: usize) -> Option<usize>
    ensures some { IfSome result (λ r. (r + 1 ≡ number) × (r < count)) }
    ensures none { IfNone result ((number ≡ 0) ⊎ (count < number)) }
{
    if number == 0 || usize::from(number) > count {
        return None;
    }
    Some(usize::from(number) - 1)
}

/// Checks whether `number` is one of `count` numbers from 1.
pub(crate) fn is_number(number: u8, count: usize) -> bool
    ensures { result ≡ (nat_le 1 number && nat_le number count) }
{
    1 <= number && usize::from(number) <= count
}

impl Net {
    /// Returns the index and the slot of a customer port.
    pub(crate) fn customer_spot(&self, port: u8) -> Option<Spot>
        ensures some { IfSome result (IsCustomerSpot self.now.plan port) }
        ensures none { IfNone result (has_place self.now.plan (CustomerPort port) ≡ false) }
    {
        let place = index_among(port, self.customers.len())?;
        let slot = self.slots.customers[place];
        Some(Spot { place, slot })
    }

    /// Returns the index of a lane, and the slot at which it begins.
    pub(crate) fn lane_start(&self, lane: u8) -> Option<Spot>
        ensures some { IfSome result (IsLaneStart self.now.plan lane) }
        ensures none { IfNone result (has_place self.now.plan (Lane lane) ≡ false) }
    {
        let place = index_among(lane, self.lanes.len())?;
        let at = self.slots.lanes[place];
        Some(Spot {
            place,
            slot: at.from,
        })
    }

    /// Returns the index of a lane, and the slot at which it ends.
    pub(crate) fn lane_end(&self, lane: u8) -> Option<Spot>
        ensures some { IfSome result (IsLaneEnd self.now.plan lane) }
        ensures none { IfNone result (has_place self.now.plan (Lane lane) ≡ false) }
    {
        let place = index_among(lane, self.lanes.len())?;
        let at = self.slots.lanes[place];
        Some(Spot { place, slot: at.to })
    }

    /// Returns the index of a bridge, and the slot of its port, used or not.
    fn bridge_spot(&self, bridge: u8, port: u8) -> Option<Spot>
        ensures some { IfSome result (IsBridgeSpot self.now.plan bridge port) }
        ensures none { IfNone result (port_at self.now.plan bridge port ≡ Unused) }
    {
        let place = index_among(bridge, self.bridges.len())?;
        let column = index_among(port, 16)?;
        Some(Spot {
            place,
            slot: 16 * place + column,
        })
    }

    /// Returns the index of a bridge, and the slot of its port, if the plan uses the port.
    pub(crate) fn used_spot(&self, bridge: u8, port: u8) -> Option<Spot>
        ensures some { IfSome result (IsBridgeSpot self.now.plan bridge port) }
        ensures used { IfSome result (λ _. is_used (port_at self.now.plan bridge port) ≡ true) }
        ensures none { IfNone result (is_used (port_at self.now.plan bridge port) ≡ false) }
    {
        let spot = self.bridge_spot(bridge, port)?;
        match self.slots.uses[spot.slot] {
            PortUse::ToCustomer | PortUse::ToBridge => Some(spot),
            PortUse::ToNobody => None,
        }
    }

    /// Returns the index of a bridge, and the slot of its port, if the port leads to another bridge.
    pub(crate) fn provider_spot(&self, bridge: u8, port: u8) -> Option<Spot>
        ensures some { IfSome result (IsBridgeSpot self.now.plan bridge port) }
        ensures used { IfSome result (λ _. is_provider (port_at self.now.plan bridge port) ≡ true) }
        ensures none { IfNone result (is_provider (port_at self.now.plan bridge port) ≡ false) }
    {
        let spot = self.bridge_spot(bridge, port)?;
        match self.slots.uses[spot.slot] {
            PortUse::ToBridge => Some(spot),
            PortUse::ToCustomer | PortUse::ToNobody => None,
        }
    }
}
