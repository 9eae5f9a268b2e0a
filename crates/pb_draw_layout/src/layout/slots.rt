//! The order of the ends of links at the edges of boxes.

use crate::table::{Table, number_at};
use pb_lan::{LinkPlan, Plan};

/// A place right of all bridges, in half steps, toward which links go that pass levels.
const RIGHT: u32 = 200;

/// An end of a link.
#[derive(Clone, Copy, PartialEq, Eq)]
pub(crate) enum Side {
    A,
    B,
}

/// The end of a link at a bridge's box.
#[derive(Clone, Copy)]
struct Landing {
    bridge: u32,
    /// Whether it is at the upper edge.
    is_top: bool,
    /// The key of the order at one edge, from left to right.
    key: u32,
}

/// The index of an end at its edge, from 0, and the number of ends there.
#[derive(Clone, Copy)]
pub(crate) struct Slot {
    pub index: u32,
    pub count: u32,
}

/// Checks whether a link passes levels between those of its bridges.
pub(crate) fn is_long(levels: &Table, link: &LinkPlan) -> bool {
    let a = levels.at(link.a.bridge as u32);
    let b = levels.at(link.b.bridge as u32);
    a.abs_diff(b) > 1
}

/// Returns the rank of a link among the parallel links of two bridges. Their order avoids crossings.
fn rank(levels: &Table, centres: &Table, here: u32, there: u32, number: u32) -> u32 {
    let is_nested = levels.at(here) == levels.at(there) && centres.at(there) < centres.at(here);
    if is_nested {
        255u32.saturating_sub(number)
    } else {
        number
    }
}

/// Returns the landing of an end of a link.
fn landing_of(
    levels: &Table,
    centres: &Table,
    link: &LinkPlan,
    number: u32,
    side: Side,
) -> Landing {
    let (here, there, last) = match side {
        Side::A => (link.a.bridge as u32, link.b.bridge as u32, 0u32),
        Side::B => (link.b.bridge as u32, link.a.bridge as u32, 1u32),
    };
    let toward = if is_long(levels, link) {
        RIGHT
    } else {
        centres.at(there)
    };
    let key = toward
        .saturating_mul(1024)
        .saturating_add(rank(levels, centres, here, there, number).saturating_mul(2))
        .saturating_add(last);
    Landing {
        bridge: here,
        is_top: levels.at(there) < levels.at(here),
        key,
    }
}

/// Counts another landing: at the same edge it is one more, and maybe one further left.
fn count_landing(slot: &mut Slot, own: Landing, other: Landing) {
    if own.bridge == other.bridge && own.is_top == other.is_top {
        slot.count = slot.count.saturating_add(1);
        if other.key < own.key {
            slot.index = slot.index.saturating_add(1);
        }
    }
}

/// Returns the slot of an end of a link among those at the same edge.
pub(crate) fn slot_of(
    plan: &Plan,
    levels: &Table,
    centres: &Table,
    link: &LinkPlan,
    number: u32,
    side: Side,
) -> Slot {
    let own = landing_of(levels, centres, link, number, side);
    let mut slot = Slot { index: 0, count: 0 };
    for (place, other) in plan.links.as_slice().iter().enumerate() {
        let number = number_at(place);
        let a = landing_of(levels, centres, other, number, Side::A);
        count_landing(&mut slot, own, a);
        let b = landing_of(levels, centres, other, number, Side::B);
        count_landing(&mut slot, own, b);
    }
    slot
}

/// Checks whether an end of a link is at the upper edge of its bridge's box.
pub(crate) fn lands_on_top(levels: &Table, link: &LinkPlan, side: Side) -> bool {
    let a = levels.at(link.a.bridge as u32);
    let b = levels.at(link.b.bridge as u32);
    match side {
        Side::A => b < a,
        Side::B => a < b,
    }
}

/// Returns the level of a link's upper bridge.
pub(crate) fn upper_level(levels: &Table, link: &LinkPlan) -> u32 {
    let a = levels.at(link.a.bridge as u32);
    a.min(levels.at(link.b.bridge as u32))
}

/// Returns the level of a link's lower bridge.
pub(crate) fn lower_level(levels: &Table, link: &LinkPlan) -> u32 {
    let a = levels.at(link.a.bridge as u32);
    a.max(levels.at(link.b.bridge as u32))
}
