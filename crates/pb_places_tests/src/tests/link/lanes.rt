//! Lanes that lose some of their items.

use super::{KINDS, Kind, item, lane};
use pb_frame::Memory;
use pb_lan::{Item, Seq, Step};
use pb_link::Lane;
use std::alloc::{AllocError, Global};
use std::process::Abort;
use std::test::Fail;

/// Returns a lane that loses its second item and its fourth.
fn lossy(alloc: Global, kind: Kind) -> Result<Lane, AllocError> {
    let losses = vec![in alloc; 1u64, 3]?;
    Ok(lane(alloc, kind, Seq::from_vec(losses)))
}

/// Takes the item of this number, if none is in hand. Returns whether it did.
fn take(alloc: Global, lane: &mut Lane, number: u64) -> Result<bool, Memory> {
    let item = item(alloc, number)?;
    lane.reserve()?;
    if !lane.is_hand_empty() {
        return Ok(false);
    }
    lane.accept(item);
    Ok(true)
}

/// Returns the item that is put, if one is in hand.
fn put(lane: &mut Lane) -> Result<Option<Item>, Memory> {
    if lane.is_hand_empty() {
        return Ok(None);
    }
    Ok(Some(lane.release()?))
}

/// A call of a lane, or a check of it. Items are those of customer port 7, by number.
#[derive(Clone, Copy)]
enum Row {
    /// Whether an item is taken.
    Takes(u64, bool),
    /// The item that is in hand, if one is.
    Holds(Option<u64>),
    /// The item that is put, if one is.
    Puts(Option<u64>),
    /// This many steps were taken.
    Steps(u64),
}

/// Checks whether this item, or none, is in hand.
fn has_in_hand(alloc: Global, lane: &Lane, number: Option<u64>) -> Result<bool, Memory> {
    match number {
        None => Ok(lane.hand().is_none() && lane.is_hand_empty()),
        Some(number) => {
            let wanted = item(alloc, number)?;
            Ok(lane.hand() == Some(&wanted) && !lane.is_hand_empty())
        }
    }
}

/// Checks whether this item, or none, is put.
fn puts(alloc: Global, lane: &mut Lane, number: Option<u64>) -> Result<bool, Memory> {
    match number {
        None => Ok(put(lane)?.is_none()),
        Some(number) => {
            let wanted = item(alloc, number)?;
            Ok(put(lane)? == Some(wanted))
        }
    }
}

/// Checks whether a row holds.
fn holds(alloc: Global, lane: &mut Lane, row: Row) -> Result<bool, Memory> {
    match row {
        Row::Takes(number, wanted) => Ok(take(alloc, lane, number)? == wanted),
        Row::Holds(number) => has_in_hand(alloc, lane, number),
        Row::Puts(number) => puts(alloc, lane, number),
        Row::Steps(steps) => Ok(lane.step_count() == steps),
    }
}

/// Checks that the rows hold one after the other, of a lane of each kind. A failure names the row by its number from 0.
fn walk(rt: &impl Abort, alloc: Global, rows: &[Row]) -> Result<(), Fail> {
    for kind in KINDS {
        let mut lane = lossy(alloc, kind)?;
        for (place, row) in rows.iter().enumerate() {
            assert!(rt; holds(alloc, &mut lane, *row)?, "row {place}");
        }
    }
    Ok(())
}

#[test]
fn a_lane_loses_what_the_plan_says(rt: HostRuntime) -> Result<(), Fail> {
    const ROWS: &[Row] = &[
        Row::Takes(0, true),
        Row::Holds(Some(0)),
        Row::Puts(Some(0)),
        Row::Takes(1, true),
        Row::Holds(None),
        Row::Puts(None),
        Row::Takes(2, true),
        Row::Holds(Some(2)),
        Row::Puts(Some(2)),
        Row::Takes(3, true),
        Row::Holds(None),
        Row::Puts(None),
        Row::Takes(4, true),
        Row::Holds(Some(4)),
        Row::Puts(Some(4)),
        Row::Steps(8),
    ];
    walk(&rt, rt.alloc(), ROWS)
}

#[test]
fn a_lane_holds_one_item(rt: HostRuntime) -> Result<(), Fail> {
    const ROWS: &[Row] = &[
        Row::Holds(None),
        Row::Puts(None),
        Row::Takes(0, true),
        Row::Takes(1, false),
        Row::Holds(Some(0)),
        Row::Steps(1),
    ];
    walk(&rt, rt.alloc(), ROWS)
}

/// Returns the steps of a lane that took three items and put those that it did not lose.
fn steps_of_three(alloc: Global, kind: Kind) -> Result<Vec<Step>, Memory> {
    let mut lane = lossy(alloc, kind)?;
    for number in 0..3u64 {
        take(alloc, &mut lane, number)?;
        put(&mut lane)?;
    }
    Ok(lane.into_steps().into_vec())
}

/// Checks whether the step at an index takes the item of a number, and loses it or not.
fn takes_at(
    alloc: Global,
    steps: &[Step],
    place: usize,
    (number, lost): (u64, bool),
) -> Result<bool, AllocError> {
    let item = item(alloc, number)?;
    Ok(steps.get(place) == Some(&Step::Take { number, item, lost }))
}

/// Checks whether the step at an index puts the item of a number.
fn puts_at(alloc: Global, steps: &[Step], place: usize, number: u64) -> Result<bool, AllocError> {
    let item = item(alloc, number)?;
    Ok(steps.get(place) == Some(&Step::Put { item }))
}

/// The items that are taken, and whether they are lost, by index.
const TAKEN: &[(usize, (u64, bool))] = &[(0, (0, false)), (2, (1, true)), (3, (2, false))];

#[test]
fn a_lane_tells_what_it_took(rt: HostRuntime) -> Result<(), Fail> {
    let steps = steps_of_three(rt.alloc(), Kind::Kept)?;
    for (place, took) in TAKEN {
        assert!(rt; takes_at(rt.alloc(), &steps, *place, *took)?);
    }
    Ok(())
}

/// The items that are put, by index.
const PUT: &[(usize, u64)] = &[(1, 0), (4, 2)];

#[test]
fn a_lane_tells_what_it_put(rt: HostRuntime) -> Result<(), Fail> {
    let steps = steps_of_three(rt.alloc(), Kind::Kept)?;
    assert_eq!(rt; steps.len(), 5);
    for (place, number) in PUT {
        assert!(rt; puts_at(rt.alloc(), &steps, *place, *number)?);
    }
    Ok(())
}

#[test]
fn a_lane_that_counts_has_no_steps_to_give(rt: HostRuntime) -> Result<(), Fail> {
    let steps = steps_of_three(rt.alloc(), Kind::Counted)?;
    assert!(rt; steps.is_empty());
    Ok(())
}
