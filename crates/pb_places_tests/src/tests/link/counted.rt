//! The calls that a place which only counts its steps makes without an allocation.

use super::{Kind, fed, item, lane, poll, port};
use pb_frame::Memory;
use pb_lan::{Item, Seq};
use pb_link::{CustomerPlace, Lane};
use std::alloc::Global;
use std::test::Fail;

/// Returns a port that holds a frame, with one more step reserved.
fn full_port(alloc: Global) -> Result<CustomerPlace, Memory> {
    let mut place = port(alloc, Kind::Counted);
    poll(alloc, &mut place)?;
    place.reserve_step()?;
    Ok(place)
}

/// Returns a lane that holds an item, with one more step reserved.
fn full_lane(alloc: Global) -> Result<Lane, Memory> {
    let item = item(alloc, 0)?;
    let mut lane = lane(alloc, Kind::Counted, Seq::from_vec(Vec::new(alloc)));
    lane.reserve()?;
    if lane.is_hand_empty() {
        lane.accept(item);
    }
    lane.reserve()?;
    Ok(lane)
}

/// Returns the item that the lane puts, if there is one.
fn put(lane: &mut Lane) -> Result<Option<Item>, Memory> {
    if lane.is_hand_empty() {
        return Ok(None);
    }
    Ok(Some(lane.release()?))
}

/// Checks that a place which only counts its steps hands items on without an allocation. `check-memory` lets each
/// allocation fail in turn, and all from each one on. The asserted calls make none.
#[test]
fn what_is_counted_is_handed_on_without_memory(rt: HostRuntime) -> Result<(), Fail> {
    let wanted = item(rt.alloc(), 0)?;
    let mut place = full_port(rt.alloc())?;
    let mut lane = full_lane(rt.alloc())?;
    assert!(rt; fed(&mut place).is_ok_and(|item| item.as_ref() == Some(&wanted)));
    assert!(rt; put(&mut lane).is_ok_and(|item| item.as_ref() == Some(&wanted)));
    Ok(())
}
