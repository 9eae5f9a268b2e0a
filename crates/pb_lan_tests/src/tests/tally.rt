//! The counts of steps, kept and only counted.

use bytes::Bytes;
use pb_history::{CauseCounts, Steps, Tally};
use pb_lan::{
    Item, Learnt, Moved, NoRoom, Outcome, PortSet, PortState, Reason, Refusals, Seq, Step,
};
use std::alloc::{AllocError, Global};
use std::process::Abort;
use std::test::Fail;

/// A step, of which the tests name the counted parts.
#[derive(Clone, Copy)]
pub(super) enum CountedStep {
    Poll,
    Feed,
    Deliver { gone: bool },
    Take { lost: bool },
    /// Relayed to the ports 2 and 4. The queue of the last was full.
    Relay,
    /// Filtered at a port, and its source not learnt.
    Filter(u8),
    /// The clock ticked: a port changed its state, and a BPDU was lost because the queue of port 1 was full.
    Tick(u8, PortState),
}

/// Returns a frame of a bridge's own.
fn item() -> Item {
    Item {
        mark: None,
        hops: 0,
        wire: Bytes::from_static(b"sixteen octets.."),
    }
}

/// Returns the change at a port.
fn moved(alloc: Global, port: u8, state: PortState) -> Result<Moved, AllocError> {
    let states = Seq::from_vec(Vec::from_slice(alloc, &[(port, state)])?);
    let dropped = Seq::from_vec(Vec::from_slice(alloc, &[(1, NoRoom::Memory)])?);
    Ok(Moved {
        states,
        flushed: Seq::from_vec(Vec::new(alloc)),
        queued: Seq::from_vec(Vec::new(alloc)),
        replaced: Seq::from_vec(Vec::new(alloc)),
        dropped,
    })
}

/// Returns the outcome of a relayed frame.
fn relayed() -> Outcome {
    let chosen = PortSet::from_slice(&[2, 4]).unwrap_or(PortSet::new());
    let refused = Refusals::from_slice(&[(4, NoRoom::Full)]).unwrap_or(Refusals::new());
    Outcome::Relayed { chosen, refused }
}

/// Returns a received frame.
fn received(port: u8, learnt: Option<Learnt>, outcome: Outcome) -> Step {
    Step::Receive {
        port,
        item: item(),
        learnt,
        outcome,
        moved: None,
    }
}

/// Returns a step.
pub(super) fn step(alloc: Global, counted: CountedStep) -> Result<Step, AllocError> {
    Ok(match counted {
        CountedStep::Poll => Step::Poll { item: item() },
        CountedStep::Feed => Step::Feed { item: item() },
        CountedStep::Deliver { gone } => Step::Deliver { item: item(), gone },
        CountedStep::Take { lost } => Step::Take {
            number: 0,
            item: item(),
            lost,
        },
        CountedStep::Relay => received(3, None, relayed()),
        CountedStep::Filter(port) => received(
            port,
            Some(Learnt::Full),
            Outcome::Filtered(Reason::NotMember),
        ),
        CountedStep::Tick(port, state) => Step::Tick {
            now: 1,
            moved: moved(alloc, port, state)?,
        },
    })
}

/// Steps of all kinds. No place takes all of these; a tally counts whatever it is given.
pub(super) const DONE: &[CountedStep] = &[
    CountedStep::Poll,
    CountedStep::Feed,
    CountedStep::Poll,
    CountedStep::Deliver { gone: false },
    CountedStep::Deliver { gone: true },
    CountedStep::Take { lost: false },
    CountedStep::Take { lost: true },
    CountedStep::Take { lost: false },
    CountedStep::Relay,
    CountedStep::Filter(16),
    CountedStep::Filter(5),
    CountedStep::Filter(16),
    CountedStep::Tick(2, PortState::Learning),
    CountedStep::Tick(2, PortState::Forwarding),
];

/// Takes these steps.
pub(super) fn take(alloc: Global, steps: &mut Steps) -> Result<usize, Fail> {
    let mut given = 0usize;
    for counted in DONE {
        steps.reserve()?;
        if steps.has_room() {
            let back = steps.append(step(alloc, *counted)?);
            given = given.saturating_add(usize::from(back.is_some()));
        }
    }
    Ok(given)
}

/// No counts, and counts by cause.
const NONE: CauseCounts = CauseCounts { full: 0, memory: 0 };

const fn causes(full: u128, memory: u128) -> CauseCounts {
    CauseCounts { full, memory }
}

/// Checks that the steps are counted.
fn are_counted(rt: &impl Abort, tally: &Tally) {
    assert_eq!(rt; tally.len(), 14);
    assert_eq!(rt; (tally.entered(), tally.left(), tally.gone()), (2, 1, 1));
    assert_eq!(rt; (tally.taken(), tally.lost()), (3, 1));
    assert_eq!(rt;
        (tally.filtered(16), tally.filtered(5), tally.filtered(3)),
        (2, 1, 0)
    );
    assert_eq!(rt; tally.newest_state(2), Some(PortState::Forwarding));
    assert_eq!(rt; tally.newest_state(1), None);
    assert_eq!(rt; (tally.gained(), tally.parted()), (0, 0));
    assert_eq!(rt; tally.copies_not_queued(4), causes(1, 0));
    assert_eq!(rt; tally.copies_not_queued(2), NONE);
    assert_eq!(rt; tally.bpdus_not_queued(1), causes(0, 2));
    assert_eq!(rt; tally.sources_not_learnt(), causes(3, 0));
}

#[test]
fn steps_that_are_kept_are_counted(rt: HostRuntime) -> Result<(), Fail> {
    let mut steps = Steps::kept(rt.alloc());
    assert_eq!(rt; take(rt.alloc(), &mut steps)?, 0);
    are_counted(&rt, steps.tally());
    are_counted(&rt, &Tally::of(steps.as_slice()));
    assert_eq!(rt; (steps.len(), steps.are_kept()), (14, true));
    assert_eq!(rt; steps.into_vec().len(), 14);
    Ok(())
}

#[test]
fn steps_that_are_only_counted_are_given_back(rt: HostRuntime) -> Result<(), Fail> {
    let mut steps = Steps::counted(rt.alloc());
    assert_eq!(rt; take(rt.alloc(), &mut steps)?, DONE.len());
    assert_eq!(rt; steps.as_slice().len(), 0);
    let (tally, kept) = steps.into_parts();
    are_counted(&rt, &tally);
    assert_eq!(rt; kept.len(), 0);
    Ok(())
}
