//! The place of each bridge in its level.

use super::levels::NOWHERE;
use crate::table::Table;
use pb_lan::{LinkPlan, Plan};

/// The middle of each level, in half steps: more than half of the bridges need on either side.
const MIDDLE: u32 = 64;

/// The number of passes over all levels, up and down again.
const SWEEPS: u32 = 6;

/// The neighbours that pull a bridge: those on levels above or below.
#[derive(Clone, Copy)]
enum Side {
    Above,
    Below,
}

/// Returns the bridge at a link's other end, if the link is at this bridge.
fn other_end(link: &LinkPlan, bridge: u32) -> Option<u32> {
    if link.a.bridge as u32 == bridge {
        Some(link.b.bridge as u32)
    } else if link.b.bridge as u32 == bridge {
        Some(link.a.bridge as u32)
    } else {
        None
    }
}

/// Checks whether a neighbour at this level pulls a bridge at that one.
fn pulls(side: Side, neighbour: u32, bridge: u32) -> bool {
    match side {
        Side::Above => neighbour < bridge,
        Side::Below => neighbour > bridge,
    }
}

/// Returns the mean place of a bridge's neighbours on one side, in sixteenths, or its own place if it has none.
fn barycentre(plan: &Plan, levels: &Table, centres: &Table, bridge: u32, side: Side) -> u32 {
    let mut sum = 0u32;
    let mut count = 0u32;
    for link in plan.links.as_slice() {
        if let Some(other) = other_end(link, bridge) {
            if pulls(side, levels.at(other), levels.at(bridge)) {
                sum = sum.saturating_add(centres.at(other));
                count = count.saturating_add(1);
            }
        }
    }
    if count == 0 {
        centres.at(bridge).saturating_mul(16)
    } else {
        sum.saturating_mul(16) / count
    }
}

/// Returns a key for each bridge of a level, by which they are ordered. No two keys are equal. Other bridges have
/// `NOWHERE`.
fn keys(plan: &Plan, levels: &Table, centres: &Table, level: u32, side: Side) -> Table {
    let mut keys = Table::filled(NOWHERE);
    for bridge in 1..33u32 {
        if levels.at(bridge) == level {
            let mean = barycentre(plan, levels, centres, bridge, side);
            let key = mean
                .saturating_mul(256)
                .saturating_add(centres.at(bridge))
                .saturating_mul(64)
                .saturating_add(bridge);
            keys.set(bridge, key);
        }
    }
    keys
}

/// Returns how many bridges have a key below this one.
fn count_below(keys: &Table, key: u32) -> u32 {
    let mut count = 0u32;
    for bridge in 1..33u32 {
        if keys.at(bridge) < key {
            count = count.saturating_add(1);
        }
    }
    count
}

/// Orders the bridges of a level by their neighbours on one side.
fn reorder(plan: &Plan, levels: &Table, centres: &mut Table, level: u32, side: Side) {
    let keys = keys(plan, levels, centres, level, side);
    let count = count_below(&keys, NOWHERE);
    for bridge in 1..33u32 {
        if levels.at(bridge) == level {
            let before = count_below(&keys, keys.at(bridge)).saturating_mul(2);
            let centre = (MIDDLE + 1).saturating_add(before).saturating_sub(count);
            centres.set(bridge, centre);
        }
    }
}

/// Returns the upper and the lower bridge of a link.
fn upper_and_lower(levels: &Table, link: &LinkPlan) -> (u32, u32) {
    let (a, b) = (link.a.bridge as u32, link.b.bridge as u32);
    if levels.at(a) <= levels.at(b) {
        (a, b)
    } else {
        (b, a)
    }
}

/// Checks whether two links between the same two levels cross.
fn cross(levels: &Table, centres: &Table, one: &LinkPlan, other: &LinkPlan) -> bool {
    let (upper, lower) = upper_and_lower(levels, one);
    let (other_upper, other_lower) = upper_and_lower(levels, other);
    let is_same_gap = levels.at(upper) == levels.at(other_upper)
        && levels.at(lower) == levels.at(other_lower)
        && levels.at(upper) < levels.at(lower);
    let (a, b) = (centres.at(upper), centres.at(other_upper));
    let (c, d) = (centres.at(lower), centres.at(other_lower));
    is_same_gap && ((a < b && d < c) || (b < a && c < d))
}

/// Returns how many pairs of links between the same two levels cross.
fn crossings(plan: &Plan, levels: &Table, centres: &Table) -> u32 {
    let mut count = 0u32;
    for (place, one) in plan.links.as_slice().iter().enumerate() {
        for (other_place, other) in plan.links.as_slice().iter().enumerate() {
            if other_place < place && cross(levels, centres, one, other) {
                count = count.saturating_add(1);
            }
        }
    }
    count
}

/// Returns the middle of each bridge's box, in half steps of a box. Each level is centred.
///
/// Bridges move to the mean place of their neighbours, level by level, down, up and down again. Of the orders after
/// each pass down, the one with the fewest crossings is kept.
pub(crate) fn centres(plan: &Plan, levels: &Table) -> Table {
    let mut centres = Table::filled(MIDDLE);
    for level in 0..32u32 {
        reorder(plan, levels, &mut centres, level, Side::Above);
    }
    let mut best = centres;
    let mut fewest = crossings(plan, levels, &best);
    for _ in 0..SWEEPS {
        for level in 0..32u32 {
            reorder(plan, levels, &mut centres, 31 - level, Side::Below);
        }
        for level in 0..32u32 {
            reorder(plan, levels, &mut centres, level, Side::Above);
        }
        let count = crossings(plan, levels, &centres);
        if count < fewest {
            best = centres;
            fewest = count;
        }
    }
    best
}
