//! Copies of places.

use super::{KINDS, Kind, is_fed, item, lane, poll, port};
use pb_frame::Memory;
use pb_lan::{Item, Seq};
use pb_link::Lane;
use std::alloc::Global;
use std::test::Fail;

/// Checks whether a copy of a port with a frame in hand feeds the frame, and leaves the port its own.
fn port_copies(alloc: Global, kind: Kind) -> Result<bool, Memory> {
    let mut place = port(alloc, kind);
    poll(alloc, &mut place)?;
    let mut copy = place.clone()?;
    let is_same = copy.steps() == place.steps() && copy.step_count() == 1;
    let is_alone = is_fed(alloc, &mut copy, 0)? && place.step_count() == 1;
    Ok(is_same && is_alone && is_fed(alloc, &mut place, 0)?)
}

#[test]
fn a_copy_of_a_port_goes_on_alone(rt: HostRuntime) -> Result<(), Fail> {
    for kind in KINDS {
        assert!(rt; port_copies(rt.alloc(), kind)?);
    }
    Ok(())
}

/// Returns a lane that loses its second item, with its first in hand.
fn full_lane(alloc: Global, kind: Kind) -> Result<Lane, Memory> {
    let item = item(alloc, 0)?;
    let mut lane = lane(alloc, kind, Seq::from_vec(vec![in alloc; 1u64]?));
    lane.reserve()?;
    if lane.is_hand_empty() {
        lane.accept(item);
    }
    Ok(lane)
}

/// Returns the item that the lane puts, if there is one.
fn put(lane: &mut Lane) -> Result<Option<Item>, Memory> {
    lane.reserve()?;
    if lane.is_hand_empty() {
        return Ok(None);
    }
    Ok(Some(lane.release()?))
}

/// Checks whether a copy of a lane with an item in hand puts the item, and leaves the lane its own.
fn lane_copies(alloc: Global, kind: Kind) -> Result<bool, Memory> {
    let wanted = item(alloc, 0)?;
    let mut lane = full_lane(alloc, kind)?;
    let mut copy = lane.clone()?;
    let is_same = copy.steps() == lane.steps() && copy.step_count() == 1;
    let is_put = put(&mut copy)?.as_ref() == Some(&wanted) && copy.is_hand_empty();
    let is_alone = lane.hand() == Some(&wanted) && lane.step_count() == 1;
    Ok(is_same && is_put && is_alone && put(&mut lane)?.as_ref() == Some(&wanted))
}

#[test]
fn a_copy_of_a_lane_goes_on_alone(rt: HostRuntime) -> Result<(), Fail> {
    for kind in KINDS {
        assert!(rt; lane_copies(rt.alloc(), kind)?);
    }
    Ok(())
}
