//! The slots of the bridges' ports, and the neighbour at each.

ghost use Rattle.std.specs.Prelude.{◌≡◌};

use std::alloc::AllocError;

/// The neighbour at a local port of a bridge.
#[derive(Clone, Copy, Debug)]
pub(crate) enum PortUse {
    /// A customer port.
    ToCustomer,
    /// A lane to another bridge and a lane from it.
    ToBridge,
    /// None: the plan does not use the port.
    ToNobody,
}

/// The slots of the ports at which a lane begins and ends.
#[derive(Clone, Copy, Debug)]
pub(crate) struct LaneSlots {
    /// The slot at the lane's beginning.
    pub from: usize,
    /// The slot at the lane's end.
    pub to: usize,
}

/// The neighbour at each slot, and the slots at which lanes and customer ports meet bridges. A bridge has sixteen
/// slots, one for each local port.
#[derive(Drop)]
pub(crate) struct Slots {
    /// The neighbour, by slot.
    pub uses: Vec<PortUse>,
    /// The two slots, by lane.
    pub lanes: Vec<LaneSlots>,
    /// The slot, by customer port.
    pub customers: Vec<usize>,
}

/// The index of a place among those of its kind, and a slot at which it meets another.
#[derive(Clone, Copy, Debug)]
pub(crate) struct Spot {
    /// The index of the place.
    pub place: usize,
    /// The slot.
    pub slot: usize,
}

/// The tables of the copy are equal.
impl Clone for Slots {
    ghost is_clone = { λ slots copy. (copy.uses.items ≡ slots.uses.items) × (copy.lanes.items ≡ slots.lanes.items)
        × (copy.customers.items ≡ slots.customers.items) };

    fn clone(&self) -> Result<Slots, AllocError> {
        let uses = self.uses.clone()?;
        let lanes = self.lanes.clone()?;
        Ok(Slots {
            uses,
            lanes,
            customers: self.customers.clone()?,
        })
    }
}
