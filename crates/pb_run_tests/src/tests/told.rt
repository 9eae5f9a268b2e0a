//! The results of a run.

use super::frames::{Frames, are_frames, count_of};
use bytes::Bytes;
use pb_forest::is_drained;
use pb_frame::{Memory, Seq};
use pb_history::Tallies;
use pb_lan::{Learnt, NoRoom, Outcome, Place, Reason, Record, Step, entered, left};
use pb_port::{Polled, Port, Shelf};
use pb_run::{Ended, Held, KeptRun, Last, Ran, RunCause, RunFault};
use std::alloc::Global;
use std::collections::VecDeque;

/// The result of a run at a customer port.
#[derive(Clone, Copy)]
pub(super) struct Outside {
    /// The result of the newest poll.
    pub(super) last: Option<Last>,
    /// The number of frames that entered or remain, if they are the script's from its beginning on.
    pub(super) script: Option<usize>,
    /// The number of frames that left, and of those that could not, because the port was gone.
    pub(super) left: usize,
    pub(super) gone: usize,
    /// Whether the port was gone at its first step, and at its last one, if these are Deliver steps.
    pub(super) first: Option<bool>,
    pub(super) newest: Option<bool>,
    /// The number of frames that the port keeps, sent or not.
    pub(super) kept: usize,
}

/// The result of a run.
#[derive(Clone, Copy)]
pub(super) struct Told {
    /// How it ended, if it ran.
    pub(super) ended: Option<Ended>,
    /// Whether its record is drained.
    pub(super) is_drained: bool,
    /// The reason why it did not run.
    pub(super) cause: Option<RunCause>,
    /// The number of ports that came back.
    pub(super) ports: usize,
    /// The number of polls of ports of the tests' own.
    pub(super) polls: u64,
    /// The number of frames that they took, and of ports that found another one at a meeting.
    pub(super) taken: u64,
    pub(super) met: u64,
    /// The number of reads and of writes of their devices.
    pub(super) reads: u64,
    pub(super) writes: u64,
    /// Whether the bridges are settled.
    pub(super) settled: Option<bool>,
    /// Whether exactly the expected frames left, octet for octet and in order.
    pub(super) is_left: bool,
    /// The result at each of the first customer ports.
    pub(super) outside: [Outside; 4],
    /// By lane of the first link, the number of items that it took, and of those that it lost.
    pub(super) link: [(usize, usize); 2],
    /// The number of steps of each place, at its slot.
    pub(super) steps: [usize; 14],
    /// The number of steps of bridges that report a failed allocation.
    pub(super) short: usize,
    /// The number of frames that entered and left at each of the first customer ports, as counted.
    pub(super) passed: [(u64, u64); 4],
}

/// The result at a customer port without frames.
pub(super) const NOWHERE: Outside = Outside {
    last: None,
    script: None,
    left: 0,
    gone: 0,
    first: None,
    newest: None,
    kept: 0,
};

/// The result of a run in which nothing happened.
pub(super) const NOTHING: Told = Told {
    ended: None,
    is_drained: false,
    cause: None,
    ports: 0,
    polls: 0,
    taken: 0,
    met: 0,
    reads: 0,
    writes: 0,
    settled: None,
    is_left: false,
    outside: [NOWHERE; 4],
    link: [(0, 0); 2],
    steps: [0; 14],
    short: 0,
    passed: [(0, 0); 4],
};

impl Told {
    /// Checks whether each port keeps what left.
    pub(super) fn is_kept(&self) -> bool {
        self.outside
            .iter()
            .all(|outside| outside.kept == outside.left)
    }
}

/// Returns the index of a place among those of four bridges in a line: customer ports, then lanes, then bridges.
pub(super) fn slot_of(place: Place) -> usize {
    match place {
        Place::Customer(number) => usize::from(number).saturating_sub(1),
        Place::Lane(number) => usize::from(number).saturating_add(3),
        Place::Bridge(number) => usize::from(number).saturating_add(9),
    }
}

/// Notes the number of steps of each place of a kind, from the slot of the first one on.
fn put_counts(slots: &mut [usize], first: Place, lists: &[Seq<Step>]) {
    let from = slot_of(first);
    for (place, list) in lists.iter().enumerate() {
        if let Some(slot) = slots.get_mut(from.saturating_add(place)) {
            *slot = list.len();
        }
    }
}

/// Returns how many items the steps of a lane took, and how many of them they lost.
fn taken_and_lost(steps: &[Step]) -> (usize, usize) {
    let (mut taken, mut lost) = (0usize, 0usize);
    for step in steps {
        if let Step::Take { lost: is_lost, .. } = step {
            taken = taken.saturating_add(1);
            lost = lost.saturating_add(usize::from(*is_lost));
        }
    }
    (taken, lost)
}

/// Checks whether a step of a bridge reports a failed allocation.
fn is_short(step: &Step) -> bool {
    match step {
        Step::Receive {
            learnt: Some(Learnt::Memory),
            ..
        } => true,
        Step::Receive { outcome, .. } => match outcome {
            Outcome::Filtered(reason) => *reason == Reason::Memory,
            Outcome::Relayed { refused, .. } => {
                refused
                    .list()
                    .as_slice()
                    .iter()
                    .any(|copy| copy.1 == NoRoom::Memory)
            }
            Outcome::Heard => false,
        },
        _ => false,
    }
}

/// Returns how many steps of bridges report a failed allocation.
fn short(bridges: &[Seq<Step>]) -> usize {
    let mut short = 0usize;
    for steps in bridges {
        for step in steps.as_slice() {
            short = short.saturating_add(usize::from(is_short(step)));
        }
    }
    short
}

/// Returns how many frames could not leave by the steps of a customer port, because the port was gone.
fn gone(steps: &[Step]) -> usize {
    let mut gone = 0usize;
    for step in steps {
        if matches!(step, Step::Deliver { gone: true, .. }) {
            gone = gone.saturating_add(1);
        }
    }
    gone
}

/// Returns whether the port was gone at a Deliver step.
fn gone_at(step: &Step) -> Option<bool> {
    match step {
        Step::Deliver { gone, .. } => Some(*gone),
        _ => None,
    }
}

/// Notes the steps of a customer port.
fn tell_deliveries(steps: &[Step], outside: &mut Outside) {
    outside.gone = gone(steps);
    outside.first = match steps.first() {
        Some(step) => gone_at(step),
        None => None,
    };
    outside.newest = match steps.last() {
        Some(step) => gone_at(step),
        None => None,
    };
}

/// Returns the number of frames in a list and of those that a port still gives after them, if they are a script's from
/// its beginning on. A port that waits is polled on.
fn script_of(frames: Vec<Bytes>, port: &mut Held) -> Result<Option<usize>, Memory> {
    let mut frames = frames;
    for _ in 0..8_000u32 {
        match port.poll() {
            Polled::Frame(frame) => frames.push(frame)?,
            Polled::Nothing => {}
            _ => break,
        }
    }
    Ok(count_of(frames.as_slice()))
}

/// Returns how many frames a port keeps. It is taken out of use.
fn kept(alloc: Global, port: &mut Held) -> usize {
    let mut shelf = Shelf {
        unsent: VecDeque::new(alloc),
        sent: Vec::new(alloc),
    };
    port.shelve(&mut shelf);
    shelf.sent.len().saturating_add(shelf.unsent.len())
}

/// Returns the result of a run at the customer port of a number.
fn seen_at(
    alloc: Global,
    rec: &Record,
    number: u8,
    last: Option<Last>,
    port: &mut Held,
) -> Result<Outside, Memory> {
    let mut outside = NOWHERE;
    let place = usize::from(number).saturating_sub(1);
    if let Some(steps) = rec.customers.as_slice().get(place) {
        tell_deliveries(steps.as_slice(), &mut outside);
    }
    outside.last = last;
    outside.script = script_of(entered(alloc, rec, number)?, port)?;
    outside.left = left(alloc, rec, number)?.len();
    outside.kept = kept(alloc, port);
    Ok(outside)
}

/// Checks whether exactly the expected frames left each customer port.
fn is_left(alloc: Global, rec: &Record, wanted: &[Frames]) -> Result<bool, Memory> {
    let mut number = 0u8;
    for frames in wanted {
        number = number.saturating_add(1);
        if !are_frames(left(alloc, rec, number)?.as_slice(), *frames) {
            return Ok(false);
        }
    }
    Ok(true)
}

/// Notes the results at the first customer ports.
fn tell_outside(
    alloc: Global,
    ran: &mut Ran,
    rec: &Record,
    outside: &mut [Outside; 4],
) -> Result<(), Memory> {
    for place in 0..4u8 {
        let last = ran.last.get(usize::from(place)).copied();
        if let Some(port) = ran.ports.get_mut(usize::from(place)) {
            outside[usize::from(place)] = seen_at(alloc, rec, place + 1, last, port)?;
        }
    }
    Ok(())
}

/// Notes the items that the lanes of the first link took and lost, and the number of steps of each place.
fn tell_steps(rec: &Record, told: &mut Told) {
    let lanes = rec.lanes.as_slice();
    for (lane, count) in told.link.iter_mut().enumerate() {
        if let Some(steps) = lanes.get(lane) {
            *count = taken_and_lost(steps.as_slice());
        }
    }
    let (customers, bridges) = (rec.customers.as_slice(), rec.bridges.as_slice());
    put_counts(&mut told.steps, Place::Customer(1), customers);
    put_counts(&mut told.steps, Place::Lane(1), lanes);
    put_counts(&mut told.steps, Place::Bridge(1), bridges);
    told.short = short(bridges);
}

/// Returns how many frames entered and left at each of the first customer ports.
fn passed(counts: &Tallies) -> [(u64, u64); 4] {
    let mut passed = [(0, 0); 4];
    for (port, tally) in passed.iter_mut().zip(counts.customers()) {
        *port = (tally.entered(), tally.left());
    }
    passed
}

/// Returns the result of a run that only counted its steps.
pub(super) fn tell_counted(ran: &Ran) -> Result<Told, Memory> {
    let mut told = NOTHING;
    told.ended = Some(ran.ended);
    told.is_drained = is_drained(&ran.counts);
    told.ports = ran.ports.len();
    told.settled = ran.settled?;
    told.passed = passed(&ran.counts);
    Ok(told)
}

/// Checks whether a record is drained.
fn is_drained_by(alloc: Global, rec: &Record) -> Result<bool, Memory> {
    Ok(is_drained(&Tallies::of(alloc, rec)?))
}

/// Returns the result of a run that kept its steps. The expected frames are given by customer port.
pub(super) fn tell(alloc: Global, kept: &mut KeptRun, wanted: &[Frames]) -> Result<Told, Memory> {
    let mut told = tell_counted(&kept.ran)?;
    told.is_drained = is_drained_by(alloc, &kept.rec)?;
    told.is_left = is_left(alloc, &kept.rec, wanted)?;
    tell_steps(&kept.rec, &mut told);
    tell_outside(alloc, &mut kept.ran, &kept.rec, &mut told.outside)?;
    Ok(told)
}

/// Returns the result of a run that did not start.
pub(super) fn tell_fault(alloc: Global, fault: &mut RunFault) -> Result<Told, Memory> {
    let mut told = NOTHING;
    told.cause = Some(fault.cause);
    told.ports = fault.ports.len();
    for place in 0..4usize {
        if let Some(port) = fault.ports.get_mut(place) {
            told.outside[place].script = script_of(Vec::new(alloc), port)?;
            told.outside[place].kept = kept(alloc, port);
        }
    }
    Ok(told)
}
