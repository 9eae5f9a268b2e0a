//! The taps of a run, before it.

ghost use Rattle.std.specs.Prelude.{◌≡◌, [], IfOk};
ghost use Rattle.pb_tap.specs.Taps.{own_of};
ghost use Rattle.pb_workers.specs.Recording.{AreRecorded};

use crate::outside::Held;
use pb_frame::Memory;
use pb_tap::{Feeder, Recorder, Tap, Tape};
use rtrb::RingBuffer;
use std::alloc::Global;
use std::collections::VecDeque;

/// The number of frames that wait on the ring from a lane to the tape of the lane back.
const RING: usize = 1_024;

/// The directions of a link that a tap records.
#[derive(Clone, Copy, PartialEq, Eq, Debug)]
pub enum TapDirection {
    /// From end `a` to end `b`.
    Ab,
    /// From end `b` to end `a`.
    Ba,
    /// Both.
    Both,
}

/// A port that records the frames that cross a link.
#[derive(Drop)]
pub struct TapPort<T = Held> {
    /// The link, by its number in the plan from 1.
    pub link: u8,
    /// The directions that are recorded.
    pub direction: TapDirection,
    /// The port that writes the frames.
    pub port: T,
}

/// The taps of a lane, which have recorded nothing.
#[derive(Drop)]
pub(crate) struct LaneTaps<P> {
    pub list: Vec<Tap<P>>,
    pub ghost fresh: { AreRecorded list.items [] },
}

impl<P> LaneTaps<P> {
    /// Returns no taps. Allocates nothing.
    fn none(alloc: Global) -> LaneTaps<P> {
        LaneTaps {
            list: Vec::new(alloc),
        }
    }

    /// Appends a tap that has recorded nothing.
    ///
    /// # Errors
    ///
    /// `Memory` if the allocation failed.
    fn push(&mut self, tap: Tap<P>) -> Result<(), Memory>
    where
        P: Drop,
        requires { own_of tap.recorder ≡ [] }
    {
        self.list.push(tap)?;
        Ok(())
    }
}

/// Appends a tap to the taps of the lane at a place.
fn put_tap<P: Drop>(
    lanes: &mut VecDeque<LaneTaps<P>>,
    place: usize,
    tap: Tap<P>,
) -> Result<(), Memory>
    requires { own_of tap.recorder ≡ [] }
{
    match lanes.get_mut(place) {
        Some(taps) => taps.push(tap),
        None => Ok(()),
    }
}

/// Returns the tap of a tape over a port, for one direction.
fn tape_over<T>(port: T) -> Tap<T>
    ensures { own_of result.recorder ≡ [] }
{
    Tap::new(Recorder::Tape(Tape::new(port, None)))
}

/// Appends a tap to the taps of the lanes of its link.
fn add_tap<T: Drop>(
    alloc: Global,
    lanes: &mut VecDeque<LaneTaps<T>>,
    tap: TapPort<T>,
) -> Result<(), Memory> {
    let TapPort {
        link,
        direction,
        port,
    } = tap;
    let place = 2 * usize::from(link.saturating_sub(1));
    match direction {
        TapDirection::Ab => put_tap(lanes, place, tape_over(port)),
        TapDirection::Ba => put_tap(lanes, place + 1, tape_over(port)),
        TapDirection::Both => {
            let (to, from) = RingBuffer::new(alloc, RING)?;
            let tape = Tape::new(port, Some(from));
            put_tap(lanes, place, Tap::new(Recorder::Tape(tape)))?;
            put_tap(lanes, place + 1, Tap::new(Recorder::Feeder(Feeder { to })))
        }
    }
}

/// Returns the taps of each of so many lanes.
///
/// # Errors
///
/// `Memory` if an allocation failed.
pub(crate) fn taps_of<T: Drop>(
    alloc: Global,
    count: usize,
    taps: Vec<TapPort<T>>,
) -> Result<VecDeque<LaneTaps<T>>, Memory> {
    let mut lanes = VecDeque::new(alloc);
    if taps.is_empty() {
        return Ok(lanes);
    }
    for _ in 0..count {
        lanes.push_back(LaneTaps::none(alloc))?;
    }
    for tap in taps {
        add_tap(alloc, &mut lanes, tap)?;
    }
    Ok(lanes)
}

/// Takes the taps of the next two lanes. Lanes that are not listed have none.
pub(crate) fn next_taps<P>(
    alloc: Global,
    lanes: &mut VecDeque<LaneTaps<P>>,
) -> (LaneTaps<P>, LaneTaps<P>) {
    let ab = next_lane(alloc, lanes);
    (ab, next_lane(alloc, lanes))
}

/// Takes the taps of the next lane.
fn next_lane<P>(alloc: Global, lanes: &mut VecDeque<LaneTaps<P>>) -> LaneTaps<P> {
    match lanes.pop_front() {
        Some(taps) => taps,
        None => LaneTaps::none(alloc),
    }
}
