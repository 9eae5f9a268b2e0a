//! Customer ports and lanes.

mod copies;
mod counted;
mod lanes;
mod rings;

ghost use Rattle.pb_frame.specs.Lists.{Rises};

use bytes::Bytes;
use pb_frame::Memory;
use pb_lan::{FrameNumber, Item, Mark, Seq, Step};
use pb_link::{CustomerPlace, Lane};
use std::alloc::{AllocError, Global};
use std::test::Fail;

/// A broadcast.
const BROADCAST: [u8; 14] = [255, 255, 255, 255, 255, 255, 2, 0, 0, 0, 1, 1, 8, 0];

/// Returns the broadcast, as the frame of this number of customer port 7.
fn item(alloc: Global, number: u64) -> Result<Item, AllocError> {
    Ok(Item {
        mark: Some(Mark {
            port: 7,
            number: FrameNumber::new(number),
        }),
        hops: 0,
        wire: Bytes::copy_from_slice(alloc, &BROADCAST)?,
    })
}

/// Whether a place keeps its steps, or only counts them.
#[derive(Clone, Copy)]
enum Kind {
    Kept,
    Counted,
}

/// Both kinds. A place does the same for each.
const KINDS: [Kind; 2] = [Kind::Kept, Kind::Counted];

/// Returns customer port 7, at its start.
fn port(alloc: Global, kind: Kind) -> CustomerPlace {
    match kind {
        Kind::Kept => CustomerPlace::new(alloc, 7),
        Kind::Counted => CustomerPlace::counting(alloc, 7),
    }
}

/// Returns a lane that loses the items of these numbers, which rise, at its start.
fn lane(alloc: Global, kind: Kind, losses: Seq<u64>) -> Lane
    requires { Rises losses }
{
    match kind {
        Kind::Kept => Lane::new(alloc, losses),
        Kind::Counted => Lane::counting(alloc, losses),
    }
}

/// An action of a customer port with a frame.
#[derive(Clone, Copy)]
enum Deed {
    Poll,
    Feed,
    /// The device took it.
    Deliver,
    /// The device was gone.
    Miss,
}

/// An action, with the frame of a number.
type NumberedDeed = (Deed, u64);

/// Returns the step of an action.
fn step_of(alloc: Global, (deed, number): NumberedDeed) -> Result<Step, AllocError> {
    let item = item(alloc, number)?;
    Ok(match deed {
        Deed::Poll => Step::Poll { item },
        Deed::Feed => Step::Feed { item },
        Deed::Deliver => Step::Deliver { item, gone: false },
        Deed::Miss => Step::Deliver { item, gone: true },
    })
}

/// Checks whether the step at an index is this one.
fn is_step(
    alloc: Global,
    steps: &[Step],
    place: usize,
    deed: NumberedDeed,
) -> Result<bool, AllocError> {
    let step = step_of(alloc, deed)?;
    Ok(steps.get(place) == Some(&step))
}

/// Checks whether these are the steps.
fn are_steps(alloc: Global, steps: &[Step], all: &[NumberedDeed]) -> Result<bool, AllocError> {
    for (place, deed) in all.iter().enumerate() {
        if !is_step(alloc, steps, place, *deed)? {
            return Ok(false);
        }
    }
    Ok(steps.len() == all.len())
}

/// Checks whether the steps are shown: these if they are kept, and none if they are counted.
fn are_shown(
    alloc: Global,
    kind: Kind,
    steps: &[Step],
    all: &[NumberedDeed],
) -> Result<bool, AllocError> {
    match kind {
        Kind::Kept => are_steps(alloc, steps, all),
        Kind::Counted => Ok(steps.is_empty()),
    }
}

/// Polls a broadcast.
fn poll(alloc: Global, place: &mut CustomerPlace) -> Result<(), Memory> {
    let frame = Bytes::copy_from_slice(alloc, &BROADCAST)?;
    place.reserve_step()?;
    if place.is_hand_empty() {
        place.poll(frame);
    }
    Ok(())
}

/// Returns the item that the port feeds to its bridge, if there is one.
fn fed(place: &mut CustomerPlace) -> Result<Option<Item>, Memory> {
    place.reserve_step()?;
    if place.is_hand_empty() {
        return Ok(None);
    }
    Ok(Some(place.feed()?))
}

/// Checks whether the port feeds the frame of a number.
fn is_fed(alloc: Global, place: &mut CustomerPlace, number: u64) -> Result<bool, Memory> {
    let wanted = item(alloc, number)?;
    Ok(fed(place)? == Some(wanted))
}

/// Checks whether a port with an empty hand takes a broadcast, and feeds it as the frame of a number.
fn passes(alloc: Global, place: &mut CustomerPlace, number: u64) -> Result<bool, Memory> {
    let was_empty = place.is_hand_empty();
    poll(alloc, place)?;
    let is_full = !place.is_hand_empty();
    Ok(was_empty && is_full && is_fed(alloc, place, number)?)
}

/// Two frames are polled and fed, one after the other.
const FED: &[NumberedDeed] = &[
    (Deed::Poll, 0),
    (Deed::Feed, 0),
    (Deed::Poll, 1),
    (Deed::Feed, 1),
];

/// Checks whether a port feeds two frames one after the other, and its steps say so.
fn feeds_two(alloc: Global, kind: Kind) -> Result<bool, Memory> {
    let mut place = port(alloc, kind);
    let is_new = place.steps().is_empty() && place.step_count() == 0;
    let is_fed = passes(alloc, &mut place, 0)? && passes(alloc, &mut place, 1)?;
    let is_told = are_shown(alloc, kind, place.steps(), FED)? && place.step_count() == 4;
    let steps = place.into_steps().into_vec();
    Ok(is_new && is_fed && is_told && are_shown(alloc, kind, &steps, FED)?)
}

#[test]
fn frames_are_fed_one_after_the_other(rt: HostRuntime) -> Result<(), Fail> {
    for kind in KINDS {
        assert!(rt; feeds_two(rt.alloc(), kind)?);
    }
    Ok(())
}

/// Returns a port that holds a frame, once two items were delivered, the second of which is gone.
fn with_two_delivered(alloc: Global, kind: Kind) -> Result<CustomerPlace, Memory> {
    let mut place = port(alloc, kind);
    poll(alloc, &mut place)?;
    for gone in [false, true] {
        let item = item(alloc, 9)?;
        place.reserve_step()?;
        place.deliver(item, gone);
    }
    Ok(place)
}

/// Checks whether a port delivers two items while it holds a frame, its steps say so, and it feeds the frame.
fn delivers_two(alloc: Global, kind: Kind) -> Result<bool, Memory> {
    const STEPS: &[NumberedDeed] = &[(Deed::Poll, 0), (Deed::Deliver, 9), (Deed::Miss, 9)];
    let mut place = with_two_delivered(alloc, kind)?;
    let is_told = are_shown(alloc, kind, place.steps(), STEPS)? && place.step_count() == 3;
    Ok(is_told && !place.is_hand_empty() && is_fed(alloc, &mut place, 0)?)
}

#[test]
fn items_are_delivered_beside_a_full_hand(rt: HostRuntime) -> Result<(), Fail> {
    for kind in KINDS {
        assert!(rt; delivers_two(rt.alloc(), kind)?);
    }
    Ok(())
}
