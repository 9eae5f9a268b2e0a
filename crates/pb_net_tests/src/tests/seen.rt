//! The checks of rows on a network.

use super::draft::Draft;
use super::expected::{is_deed, is_fate};
use super::rows::{Deed, Fate};
use pb_lan::{Item, Learnt, NoRoom, Outcome, Place, Reason, Step};
use pb_net::Net;
use pb_rstp::Role;

/// Returns the steps of a place, if the plan has it and the network keeps them.
fn steps(net: &Net, place: Place) -> Option<&[Step]> {
    if net.has_place(place) && net.keeps_steps() {
        Some(net.steps(place))
    } else {
        None
    }
}

/// Returns the number of steps of a place.
pub(super) fn taken_at(net: &Net, place: Place) -> Option<usize> {
    let steps = steps(net, place)?;
    Some(steps.len())
}

/// Checks whether a place did this, by the number of its step from 0.
pub(super) fn took(net: &Net, place: Place, number: usize, deed: Deed) -> bool {
    match step_at(net, place, number) {
        Some(step) => is_deed(step, deed),
        None => false,
    }
}

fn step_at(net: &Net, place: Place, number: usize) -> Option<&Step> {
    steps(net, place)?.get(number)
}

/// Returns the last step of a place.
fn last(net: &Net, place: Place) -> Option<&Step> {
    steps(net, place)?.last()
}

/// Returns the item that the last step of a place moved.
fn moved(net: &Net, place: Place) -> Option<&Item> {
    match last(net, place)? {
        Step::Take { item, .. }
        | Step::Put { item }
        | Step::Receive { item, .. }
        | Step::Deliver { item, .. } => Some(item),
        _ => None,
    }
}

/// Checks whether the last step of a place moved a frame of these octets.
pub(super) fn has_moved(net: &Net, place: Place, wire: &[u8]) -> bool {
    match moved(net, place) {
        Some(item) => item.wire.as_slice() == wire,
        None => false,
    }
}

/// Checks whether the last step of a place moved a frame of this many octets.
pub(super) fn has_moved_octets(net: &Net, place: Place, octets: usize) -> bool {
    match moved(net, place) {
        Some(item) => item.wire.len() == octets,
        None => false,
    }
}

/// Checks whether the last step of a place moved a frame that passed this many bridges.
pub(super) fn has_moved_hops(net: &Net, place: Place, hops: u32) -> bool {
    match moved(net, place) {
        Some(item) => item.hops == hops,
        None => false,
    }
}

/// Checks whether the last step of a lane takes the item of a number, and loses it or not.
pub(super) fn has_taken(net: &Net, lane: u8, wanted: u64, is_lost: bool) -> bool {
    match last(net, Place::Lane(lane)) {
        Some(Step::Take { number, lost, .. }) => *number == wanted && *lost == is_lost,
        _ => false,
    }
}

/// Checks whether the last step of a bridge received a frame of this fate.
pub(super) fn has_ruled(net: &Net, bridge: u8, fate: Fate) -> bool {
    match last(net, Place::Bridge(bridge)) {
        Some(Step::Receive { outcome, .. }) => is_fate(outcome, fate),
        _ => false,
    }
}

/// Checks whether the last step of a bridge is a Receive with this result of learning.
pub(super) fn has_learnt(net: &Net, bridge: u8, wanted: Option<Learnt>) -> bool {
    match last(net, Place::Bridge(bridge)) {
        Some(Step::Receive { learnt, .. }) => *learnt == wanted,
        _ => false,
    }
}

/// Returns how many of the steps deliver a frame that is taken.
fn delivered(steps: &[Step]) -> usize {
    let mut count = 0usize;
    for step in steps {
        if let Step::Deliver { gone: false, .. } = step {
            count = count.saturating_add(1);
        }
    }
    count
}

/// Returns how many frames a customer port has delivered, if the plan has it.
fn delivered_at(net: &Net, customer: u8) -> Option<usize> {
    Some(delivered(steps(net, Place::Customer(customer))?))
}

/// Checks whether each customer port has delivered this many frames.
pub(super) fn left(net: &Net, draft: &Draft, counts: &[usize]) -> bool {
    for number in 1..=128u8 {
        let wanted = counts.get(usize::from(number) - 1).copied();
        if delivered_at(net, number) != wanted {
            return false;
        }
    }
    counts.len() == draft.customers.len()
}

/// Checks whether these are the roles of a bridge's ports.
pub(super) fn has_roles(net: &Net, bridge: u8, wanted: Option<&[(u8, Role)]>) -> bool {
    if !net.has_place(Place::Bridge(bridge)) {
        return false;
    }
    match (net.rstp(bridge), wanted) {
        (Some(tree), Some(roles)) => tree.roles() == roles,
        (None, None) => true,
        _ => false,
    }
}

/// Checks whether an allocation failed for one of these.
fn wants_memory(refused: &[(u8, NoRoom)]) -> bool {
    for (_port, cause) in refused {
        if *cause == NoRoom::Memory {
            return true;
        }
    }
    false
}

/// Checks whether an outcome reports that a frame, or a copy of it, was dropped because an allocation failed.
fn is_short(outcome: &Outcome) -> bool {
    match outcome {
        Outcome::Filtered(reason) => *reason == Reason::Memory,
        Outcome::Relayed { refused, .. } => wants_memory(refused.list().as_slice()),
        Outcome::Heard => false,
    }
}

/// Checks whether the last step of a bridge reports a failed allocation.
pub(super) fn tells_short(net: &Net, bridge: u8) -> bool {
    match last(net, Place::Bridge(bridge)) {
        Some(Step::Receive { outcome, .. }) => is_short(outcome),
        _ => false,
    }
}
