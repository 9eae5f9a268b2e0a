//! The frames that entered and left.

use bytes::Bytes;
use pb_frame::Memory;
use pb_lan::{FrameNumber, Item, Mark, Record, Seq, Step, entered, left};
use std::alloc::{AllocError, Global};
use std::test::Fail;

/// A customer port's action with a frame.
#[derive(Clone, Copy)]
enum Deed {
    /// It is polled.
    Poll,
    /// It is handed on.
    Feed,
    /// It leaves, and the port takes it.
    Deliver,
    /// It comes to a port that is gone.
    Miss,
}

/// A customer port's action with a frame of customer port 1: the frame's number, and its only octet.
type FrameDeed = (Deed, u64, u8);

/// The actions of each customer port.
const DONE: &[&[FrameDeed]] = &[
    &[(Deed::Poll, 0, 7), (Deed::Feed, 0, 7), (Deed::Poll, 1, 8)],
    &[(Deed::Deliver, 0, 7), (Deed::Miss, 1, 8)],
];

/// Returns a frame of customer port 1, of one octet.
fn item(alloc: Global, number: u64, octet: u8) -> Result<Item, AllocError> {
    Ok(Item {
        mark: Some(Mark {
            port: 1,
            number: FrameNumber::new(number),
        }),
        hops: 0,
        wire: Bytes::copy_from_slice(alloc, &[octet])?,
    })
}

fn step(alloc: Global, deed: Deed, number: u64, octet: u8) -> Result<Step, AllocError> {
    let item = item(alloc, number, octet)?;
    Ok(match deed {
        Deed::Poll => Step::Poll { item },
        Deed::Feed => Step::Feed { item },
        Deed::Deliver => Step::Deliver { item, gone: false },
        Deed::Miss => Step::Deliver { item, gone: true },
    })
}

/// Returns the steps of a customer port.
fn steps(alloc: Global, all: &[FrameDeed]) -> Result<Seq<Step>, AllocError> {
    let mut steps = Vec::new(alloc);
    for (deed, number, octet) in all {
        steps.push(step(alloc, *deed, *number, *octet)?)?;
    }
    Ok(Seq::from_vec(steps))
}

/// Returns the steps of all customer ports.
fn customers(alloc: Global, all: &[&[FrameDeed]]) -> Result<Seq<Seq<Step>>, AllocError> {
    let mut customers = Vec::new(alloc);
    for deeds in all {
        customers.push(steps(alloc, deeds)?)?;
    }
    Ok(Seq::from_vec(customers))
}

/// Returns the record of it.
fn record(alloc: Global, all: &[&[FrameDeed]]) -> Result<Record, AllocError> {
    let customers = customers(alloc, all)?;
    Ok(Record {
        bridges: Seq::from_vec(Vec::new(alloc)),
        lanes: Seq::from_vec(Vec::new(alloc)),
        customers,
    })
}

/// Checks whether these are the frames, each of one octet.
fn are(frames: &[Bytes], wanted: &[u8]) -> bool {
    for (frame, octet) in frames.iter().zip(wanted) {
        if frame.as_slice() != [*octet].as_slice() {
            return false;
        }
    }
    frames.len() == wanted.len()
}

/// A customer port, and the octets of the frames that entered and left at it.
const FRAMES: &[(u8, &[u8], &[u8])] = &[
    (0, &[], &[]),
    (1, &[7, 8], &[]),
    (2, &[], &[7]),
    (3, &[], &[]),
];

/// Checks whether these frames entered at a customer port.
fn came(alloc: Global, record: &Record, port: u8, wanted: &[u8]) -> Result<bool, Memory> {
    let frames = entered(alloc, record, port)?;
    Ok(are(&frames, wanted))
}

/// Checks whether these frames left at a customer port.
fn went(alloc: Global, record: &Record, port: u8, wanted: &[u8]) -> Result<bool, Memory> {
    let frames = left(alloc, record, port)?;
    Ok(are(&frames, wanted))
}

#[test]
fn frames_enter_and_leave(rt: HostRuntime) -> Result<(), Fail> {
    let record = record(rt.alloc(), DONE)?;
    for (port, entered, left) in FRAMES {
        assert!(rt; came(rt.alloc(), &record, *port, entered)?, "in {port}");
        assert!(rt; went(rt.alloc(), &record, *port, left)?, "out {port}");
    }
    Ok(())
}

/// Checks whether the copy of an item is equal to it.
fn copies(alloc: Global) -> Result<bool, AllocError> {
    let first = item(alloc, 3, 9)?;
    let copy = first.clone()?;
    Ok(copy == first)
}

#[test]
fn copies_of_items_are_equal(rt: HostRuntime) -> Result<(), Fail> {
    assert!(rt; copies(rt.alloc())?);
    Ok(())
}
