//! The level of each bridge: how many links lead up to the root of its tree.

use crate::table::{Table, number_at};
use pb_forest::are_ends_forwarding;
use pb_lan::{BridgePlan, Plan, Shape, Spanning};
use pb_names::bridge_id;

/// The level of a bridge that has none yet.
pub(crate) const NOWHERE: u32 = u32::MAX;

/// Returns the rank of a bridge: the bridge with the lowest rank in a tree is its root. The rank is the bridge
/// identifier (IEEE 802.1D-2004 clause 9.2.5) if the bridges run the protocol, else the bridge's place in the plan.
fn rank(plan: &Plan, place: usize, bridge: &BridgePlan) -> u64 {
    match plan.spanning {
        Spanning::Fixed => place as u64,
        Spanning::Rstp => bridge_id(bridge.priority, bridge.address),
    }
}

/// Returns the number of the next tree's root: the bridge with the lowest rank among those without a level.
fn next_root(plan: &Plan, levels: &Table) -> Option<u32> {
    let mut best: Option<(u64, u32)> = None;
    for (place, bridge) in plan.bridges.as_slice().iter().enumerate() {
        let number = number_at(place);
        let rank = rank(plan, place, bridge);
        let is_better = match best {
            None => true,
            Some((least, _)) => rank < least,
        };
        if levels.at(number) == NOWHERE && is_better {
            best = Some((rank, number));
        }
    }
    match best {
        None => None,
        Some((_, number)) => Some(number),
    }
}

/// Puts a bridge one level below another, unless it is that high already.
fn go_down(levels: &mut Table, from: u32, to: u32) {
    let below = levels.at(from).saturating_add(1);
    if below < levels.at(to) {
        levels.set(to, below);
    }
}

/// Puts bridges below those to which links join them that are Forwarding at both ends.
fn spread(plan: &Plan, shape: &Shape, levels: &mut Table) {
    for link in plan.links.as_slice() {
        if are_ends_forwarding(shape, link) {
            go_down(levels, link.a.bridge as u32, link.b.bridge as u32);
            go_down(levels, link.b.bridge as u32, link.a.bridge as u32);
        }
    }
}

/// Returns the level of each bridge: how many links lead up to the root of its tree.
///
/// Trees consist of the links that are Forwarding at both ends. The root is the bridge with the lowest identifier if
/// the bridges run the protocol, and the one with the lowest number if the plan gives the states.
pub(crate) fn levels_of(plan: &Plan, shape: &Shape) -> Table {
    let mut levels = Table::filled(NOWHERE);
    for _ in plan.bridges.as_slice() {
        let Some(root) = next_root(plan, &levels) else {
            return levels;
        };
        levels.set(root, 0);
        for _ in plan.bridges.as_slice() {
            spread(plan, shape, &mut levels);
        }
    }
    levels
}
