//! Ends of rings, and their meeting.

ghost use Rattle.std.specs.Prelude.{◌≡◌, Some, [], vec_len, slice_get};
ghost use Rattle.rtrb.specs.Ring.{sent, received};
ghost use Rattle.pb_ring.specs.Rings.{writer_name, reader_name};

use bytes::Bytes;
use pb_frame::Memory;
use pb_lan::{FrameNumber, Item, Mark};
use pb_ring::{Inlet, Inlets, Outlet, Outlets, Wiring, meet};
use rtrb::{Consumer, Producer, RingBuffer};
use std::alloc::{AllocError, Global};
use std::marker::Brand;
use std::test::Fail;

type Ring = (Producer<Item>, Consumer<Item>);

/// Returns the frame of this number of customer port 1.
fn item(alloc: Global, number: u64) -> Result<Item, AllocError> {
    Ok(Item {
        mark: Some(Mark {
            port: 1,
            number: FrameNumber::new(number),
        }),
        hops: 0,
        wire: Bytes::copy_from_slice(alloc, &[7; 14])?,
    })
}

/// Sends the item of a number, if the ring is not full.
fn send<W: Wiring>(alloc: Global, outlet: &mut Outlet<W>, number: u64) -> Result<bool, Memory>
    ensures { outlet.new.number ≡ outlet.old.number }
{
    let item = item(alloc, number)?;
    if !outlet.has_room() {
        return Ok(false);
    }
    outlet.push(item);
    Ok(true)
}

/// Sends the items 0 and 1 over a ring of two items, and receives them.
fn send_two<W: Wiring>(alloc: Global, ring: Ring) -> Result<bool, Memory>
    requires writer { slice_get W.rings 5 ≡ Some (writer_name ring.0) }
    requires reader { slice_get W.rings 5 ≡ Some (reader_name ring.1) }
{
    let mut outlet = Outlet::<W>::new(ring.0, 5);
    let mut inlet = Inlet::<W>::new(ring.1, 5);
    let mut is_good = !inlet.has_item() && inlet.pop().is_none();
    is_good = is_good && send(alloc, &mut outlet, 0)? && send(alloc, &mut outlet, 1)?;
    is_good = is_good && !outlet.has_room();
    meet(&mut inlet, &mut outlet);
    is_good = is_good && inlet.has_item();
    for number in 0..2u64 {
        is_good = is_good && inlet.pop() == Some(item(alloc, number)?);
    }
    Ok(is_good && inlet.pop().is_none() && outlet.has_room())
}

#[test]
fn items_go_over_a_ring_in_order(rt: HostRuntime) -> Result<(), Fail> {
    let alloc = rt.alloc();
    let ring = RingBuffer::<Item>::new(alloc, 2)?;
    assert!(rt; send_two::<Brand>(alloc, ring)?);
    Ok(())
}

/// Sends the item of a number over the ring at an index.
fn send_at<W: Wiring>(
    alloc: Global,
    outlets: &mut Outlets<W>,
    place: usize,
    number: u64,
) -> Result<bool, Memory> {
    if place >= outlets.ends.len() || !outlets.has_room(place) {
        return Ok(false);
    }
    outlets.push(place, item(alloc, number)?);
    Ok(true)
}

/// Checks whether the item of a number, or none, is the next at an index.
fn is_next<W: Wiring>(
    alloc: Global,
    inlets: &mut Inlets<W>,
    place: usize,
    number: Option<u64>,
) -> Result<bool, Memory> {
    if place >= inlets.ends.len() {
        return Ok(false);
    }
    if inlets.has_item(place) != number.is_some() {
        return Ok(false);
    }
    let came = inlets.pop(place);
    match number {
        None => Ok(came.is_none()),
        Some(number) => Ok(came == Some(item(alloc, number)?)),
    }
}

/// Sends over the second of two rings alone, and receives from it alone.
fn use_second<W: Wiring>(
    alloc: Global,
    inlets: &mut Inlets<W>,
    outlets: &mut Outlets<W>,
) -> Result<bool, Memory> {
    let mut is_good = send_at(alloc, outlets, 1, 4)?;
    is_good = is_good && !send_at(alloc, outlets, 1, 5)?;
    is_good = is_good && is_next(alloc, inlets, 0, None)?;
    is_good = is_good && is_next(alloc, inlets, 1, Some(4))?;
    is_good = is_good && is_next(alloc, inlets, 1, None)?;
    Ok(is_good && send_at(alloc, outlets, 0, 6)? && is_next(alloc, inlets, 0, Some(6))?)
}

/// Returns the ends of two rings, by index.
fn two_sides<W: Wiring>(
    alloc: Global,
    first: Ring,
    second: Ring,
) -> Result<(Inlets<W>, Outlets<W>), Memory>
    requires first { (slice_get W.rings 0 ≡ Some (writer_name first.0))
        × (slice_get W.rings 0 ≡ Some (reader_name first.1)) }
    requires second { (slice_get W.rings 1 ≡ Some (writer_name second.0))
        × (slice_get W.rings 1 ≡ Some (reader_name second.1)) }
{
    let mut outlets = Outlets {
        ends: Vec::new(alloc),
    };
    let mut inlets = Inlets {
        ends: Vec::new(alloc),
    };
    outlets.ends.push(Outlet::new(first.0, 0))?;
    outlets.ends.push(Outlet::new(second.0, 1))?;
    inlets.ends.push(Inlet::new(first.1, 0))?;
    inlets.ends.push(Inlet::new(second.1, 1))?;
    Ok((inlets, outlets))
}

/// Uses the ends of two rings, and lets them meet. Returns whether all went as expected.
fn use_two<W: Wiring>(alloc: Global, first: Ring, second: Ring) -> Result<bool, Memory>
    requires first { (slice_get W.rings 0 ≡ Some (writer_name first.0))
        × (slice_get W.rings 0 ≡ Some (reader_name first.1)) }
    requires second { (slice_get W.rings 1 ≡ Some (writer_name second.0))
        × (slice_get W.rings 1 ≡ Some (reader_name second.1)) }
{
    let (mut inlets, mut outlets) = two_sides::<W>(alloc, first, second)?;
    let is_good = use_second(alloc, &mut inlets, &mut outlets)?;
    Ok(is_good && have_met(&mut inlets, &mut outlets))
}

/// Lets the ends of each ring meet, the one at its index and the other by itself. Returns whether both rings are empty.
fn have_met<W: Wiring>(inlets: &mut Inlets<W>, outlets: &mut Outlets<W>) -> bool {
    let Some(mut outlet) = outlets.ends.pop() else {
        return false;
    };
    if inlets.ends.len() != 2 || inlets.ends[1].number != outlet.number {
        return false;
    }
    inlets.meet(1, &mut outlet);
    let is_empty = inlets.pop(1).is_none();
    if outlets.ends.len() != 1 || outlets.ends[0].number != inlets.ends[0].number {
        return false;
    }
    outlets.meet(0, &mut inlets.ends[0]);
    is_empty && inlets.pop(0).is_none()
}

#[test]
fn each_place_has_its_ring(rt: HostRuntime) -> Result<(), Fail> {
    let alloc = rt.alloc();
    let first = RingBuffer::<Item>::new(alloc, 1)?;
    let second = RingBuffer::<Item>::new(alloc, 1)?;
    assert!(rt; use_two::<Brand>(alloc, first, second)?);
    Ok(())
}
