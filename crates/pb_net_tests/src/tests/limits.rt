//! The limits of a plan.

use super::draft::Draft;
use super::networks::{SHORT, THREE_CUSTOMERS};
use super::rows::{Act, Deed, Fate, Row, Sent};
use super::walk::{ends_drained, walks};
use pb_lan::{Learnt, NoRoom, Place};
use pb_net::NetFault;
use std::test::Fail;

/// Each place takes two steps.
const FEW_STEPS: Draft = Draft {
    steps: 2,
    ..THREE_CUSTOMERS
};

#[test]
fn each_place_has_its_own_steps(rt: HostRuntime) -> Result<(), Fail> {
    const ROWS: &[Row] = &[
        Row::Does(Act::Poll(1, SHORT)),
        Row::Does(Act::Feed(1)),
        Row::Refused(Act::Poll(1, SHORT), NetFault::StepLimit),
        Row::Does(Act::Receive(1, 1)),
        Row::Does(Act::Transmit(1, 2)),
        Row::Refused(Act::Transmit(1, 3), NetFault::StepLimit),
        Row::Idle(Act::Transmit(1, 1)),
        Row::Refused(Act::Tick(1), NetFault::StepLimit),
        Row::Does(Act::Deliver(2)),
        Row::Steps {
            place: Place::Bridge(1),
            count: 2,
        },
    ];
    walks(&rt, rt.alloc(), &FEW_STEPS, ROWS)
}

/// Shows that a network whose lists of steps are full has not drained.
#[test]
fn a_frame_at_a_place_that_takes_no_more_steps_is_on_its_way(rt: HostRuntime) -> Result<(), Fail> {
    // The bridge received the frame and sent one of its two copies.
    const FULL: &[Row] = &[
        Row::Enters(1, SHORT),
        Row::Does(Act::Transmit(1, 2)),
        Row::Does(Act::Deliver(2)),
        Row::Refused(Act::Transmit(1, 3), NetFault::StepLimit),
    ];
    ends_drained(&rt, rt.alloc(), &FEW_STEPS, FULL, false)?;
    const SENT: &[Row] = &[Row::Enters(1, SHORT), Row::Empties];
    ends_drained(&rt, rt.alloc(), &THREE_CUSTOMERS, SENT, true)
}

/// The first broadcast, as the bridge receives it.
const FIRST: Sent = Sent {
    number: 0,
    hops: 0,
    frame: SHORT,
};

/// The next one.
const SECOND: Sent = Sent {
    number: 1,
    hops: 0,
    frame: SHORT,
};

/// One item waits at each port.
const SHORT_QUEUES: Draft = Draft {
    queue: 1,
    ..THREE_CUSTOMERS
};

#[test]
fn a_full_queue_gets_no_copy(rt: HostRuntime) -> Result<(), Fail> {
    const ROWS: &[Row] = &[
        Row::Enters(1, SHORT),
        Row::Does(Act::Transmit(1, 3)),
        Row::Enters(1, SHORT),
        Row::Took(
            Place::Bridge(1),
            0,
            Deed::Receive {
                port: 1,
                item: FIRST,
                learnt: Learnt::New,
                fate: Fate::Relayed(&[2, 3]),
            },
        ),
        Row::Took(
            Place::Bridge(1),
            2,
            Deed::Receive {
                port: 1,
                item: SECOND,
                learnt: Learnt::Kept,
                fate: Fate::RelayedBut(&[2, 3], &[(2, NoRoom::Full)]),
            },
        ),
    ];
    walks(&rt, rt.alloc(), &SHORT_QUEUES, ROWS)?;
    // A copy of the first frame waits; the copy that was refused does not.
    ends_drained(&rt, rt.alloc(), &SHORT_QUEUES, ROWS, false)
}
