//! A lane between two rings.

use super::{KINDS, Kind, item, lane};
use pb_frame::Memory;
use pb_lan::{Item, Seq};
use pb_link::Lane;
use rtrb::{Consumer, Producer, RingBuffer};
use std::alloc::Global;
use std::process::Abort;
use std::test::Fail;

/// A lane that loses its second item, and the ends of its two rings.
#[derive(Drop)]
struct Joined {
    near: Producer<Item>,
    from: Consumer<Item>,
    lane: Lane,
    to: Producer<Item>,
    far: Consumer<Item>,
}

/// A call of the lane, or a check of it. Items are those of customer port 7, by number.
#[derive(Clone, Copy)]
enum Row {
    /// An item is sent to the lane.
    Sent(u64),
    /// An item of another sender is pushed onto the ring after the lane.
    Between(u64),
    /// Whether the lane takes an item.
    Takes(bool),
    /// Whether it puts one.
    Puts(bool),
    /// Whether nothing is in its hand.
    HandIsEmpty(bool),
    /// This item has come.
    Came(u64),
    /// No item has come.
    NoneCame,
    /// This many steps were taken.
    Steps(u64),
}

/// Returns a lane between a ring of four items and one of `room` items.
fn between(alloc: Global, kind: Kind, room: usize) -> Result<Joined, Memory> {
    let (near, from) = RingBuffer::new(alloc, 4)?;
    let (to, far) = RingBuffer::new(alloc, room)?;
    let lane = lane(alloc, kind, Seq::from_vec(vec![in alloc; 1u64]?));
    Ok(Joined {
        near,
        from,
        lane,
        to,
        far,
    })
}

/// Pushes an item onto a ring. Returns whether the ring was not full.
fn push(alloc: Global, to: &mut Producer<Item>, number: u64) -> Result<bool, Memory> {
    let item = item(alloc, number)?;
    Ok(to.push(item).is_ok())
}

/// Checks whether the next item of a ring is that of this number.
fn is_next(alloc: Global, from: &mut Consumer<Item>, number: u64) -> Result<bool, Memory> {
    let wanted = item(alloc, number)?;
    Ok(from.pop().is_ok_and(|item| item == wanted))
}

/// Checks whether a row holds.
fn holds(alloc: Global, joined: &mut Joined, row: Row) -> Result<bool, Memory> {
    match row {
        Row::Sent(number) => push(alloc, &mut joined.near, number),
        Row::Between(number) => push(alloc, &mut joined.to, number),
        Row::Takes(wanted) => Ok(joined.lane.take(&mut joined.from)? == wanted),
        Row::Puts(wanted) => Ok(joined.lane.put(&mut joined.to)? == wanted),
        Row::HandIsEmpty(wanted) => Ok(joined.lane.is_hand_empty() == wanted),
        Row::Came(number) => is_next(alloc, &mut joined.far, number),
        Row::NoneCame => Ok(joined.far.is_empty()),
        Row::Steps(steps) => Ok(joined.lane.step_count() == steps),
    }
}

/// Checks that the rows hold one after the other, of a lane of each kind. A failure names the row by its number from 0.
fn walk(rt: &impl Abort, alloc: Global, room: usize, rows: &[Row]) -> Result<(), Fail> {
    assert!(rt; 0 < room && room <= 4);
    for kind in KINDS {
        let mut joined = between(alloc, kind, room)?;
        for (place, row) in rows.iter().enumerate() {
            assert!(rt; holds(alloc, &mut joined, *row)?, "row {place}");
        }
    }
    Ok(())
}

#[test]
fn a_lane_carries_from_ring_to_ring(rt: HostRuntime) -> Result<(), Fail> {
    const ROWS: &[Row] = &[
        Row::Sent(0),
        Row::Sent(1),
        Row::Sent(2),
        Row::Takes(true),
        Row::Takes(false),
        Row::Puts(true),
        Row::Puts(false),
        Row::Takes(true),
        Row::HandIsEmpty(true),
        Row::Takes(true),
        Row::Takes(false),
        Row::Puts(true),
        Row::Puts(false),
        Row::Takes(false),
        Row::Takes(false),
        Row::Puts(false),
        Row::Puts(false),
        Row::Came(0),
        Row::Came(2),
        Row::Steps(5),
        Row::NoneCame,
    ];
    walk(&rt, rt.alloc(), 4, ROWS)
}

#[test]
fn a_lane_waits_for_room(rt: HostRuntime) -> Result<(), Fail> {
    const ROWS: &[Row] = &[
        Row::Sent(0),
        Row::Between(9),
        Row::Takes(true),
        Row::Takes(false),
        Row::Puts(false),
        Row::Puts(false),
        Row::Steps(1),
        Row::HandIsEmpty(false),
        Row::Came(9),
        Row::Puts(true),
        Row::Came(0),
        Row::HandIsEmpty(true),
    ];
    walk(&rt, rt.alloc(), 1, ROWS)
}
