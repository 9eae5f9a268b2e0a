//! Frames that are sent, and those that the system does not take.

use super::cases::{Case, NO_DROPS, NOTHING, Row, check_all};
use super::device::{NO_BUFFERS, TOO_LONG};
use pb_datagram::{Drops, Sent};
use pb_port::{Offered, Pumped};
use std::test::Fail;

const FIRST: &[u8] = &[1, 2, 3];

const SECOND: &[u8] = &[4];

/// The frames after a header of the network 0x123456.
const FIRST_CARRIED: &[u8] = &[0x08, 0, 0, 0, 0x12, 0x34, 0x56, 0, 1, 2, 3];

const SECOND_CARRIED: &[u8] = &[0x08, 0, 0, 0, 0x12, 0x34, 0x56, 0, 4];

const VXLAN: Case = Case {
    network: Some(0x12_3456),
    ..NOTHING
};

/// Two frames are offered, and leave with one pump.
const TWO: &[Row] = &[
    Row::Offers(FIRST, Offered::Taken),
    Row::Offers(SECOND, Offered::Taken),
    Row::Pumps(Pumped::Wrote(2)),
    Row::Unsent(0),
    Row::Pumps(Pumped::Nothing),
    Row::Waits,
];

/// Two frames are offered, and leave one after the other.
const IN_TURN: &[Row] = &[
    Row::Offers(FIRST, Offered::Taken),
    Row::Offers(SECOND, Offered::Taken),
    Row::Pumps(Pumped::Nothing),
    Row::Unsent(2),
    Row::Pumps(Pumped::Wrote(1)),
    Row::Unsent(1),
    Row::Pumps(Pumped::Wrote(1)),
    Row::Unsent(0),
];

const SENT: &[Case] = &[
    Case {
        sends: &[Sent::Moved, Sent::Moved],
        rows: TWO,
        sent: &[FIRST, SECOND],
        ..NOTHING
    },
    Case {
        sends: &[Sent::Moved, Sent::Moved],
        rows: TWO,
        sent: &[FIRST_CARRIED, SECOND_CARRIED],
        ..VXLAN
    },
    Case {
        sends: &[Sent::Wait, Sent::Moved, Sent::Wait, Sent::Moved],
        rows: IN_TURN,
        sent: &[FIRST_CARRIED, SECOND_CARRIED],
        ..VXLAN
    },
];

#[test]
fn sends_each_frame_whole(rt: HostRuntime) -> Result<(), Fail> {
    check_all(&rt, rt.alloc(), SENT)?;
    Ok(())
}

const FAILS: &[Case] = &[
    Case {
        sends: &[Sent::Failed(TOO_LONG), Sent::Moved],
        rows: TWO,
        sent: &[SECOND_CARRIED],
        drops: Drops {
            failed_sends: 1,
            send_error: Some(TOO_LONG),
            ..NO_DROPS
        },
        ..VXLAN
    },
    Case {
        sends: &[Sent::Moved, Sent::Failed(TOO_LONG)],
        rows: TWO,
        sent: &[FIRST],
        drops: Drops {
            failed_sends: 1,
            send_error: Some(TOO_LONG),
            ..NO_DROPS
        },
        ..NOTHING
    },
    Case {
        sends: &[Sent::Failed(TOO_LONG), Sent::Failed(NO_BUFFERS)],
        rows: TWO,
        drops: Drops {
            failed_sends: 2,
            send_error: Some(NO_BUFFERS),
            ..NO_DROPS
        },
        ..VXLAN
    },
    Case {
        sends: &[
            Sent::Wait,
            Sent::Failed(TOO_LONG),
            Sent::Wait,
            Sent::Failed(NO_BUFFERS),
        ],
        rows: IN_TURN,
        drops: Drops {
            failed_sends: 2,
            send_error: Some(NO_BUFFERS),
            ..NO_DROPS
        },
        ..NOTHING
    },
];

#[test]
fn drops_a_frame_whose_send_fails(rt: HostRuntime) -> Result<(), Fail> {
    check_all(&rt, rt.alloc(), FAILS)?;
    Ok(())
}

const FULL: &[Case] = &[
    Case {
        capacity: 2,
        rows: &[
            Row::Offers(FIRST, Offered::Taken),
            Row::Offers(SECOND, Offered::Taken),
            Row::Offers(FIRST, Offered::Full),
            Row::Pumps(Pumped::Nothing),
            Row::Unsent(2),
            Row::Shelves(2),
            Row::Unsent(0),
            Row::Offers(FIRST, Offered::Gone),
            Row::Pumps(Pumped::Nothing),
        ],
        ..NOTHING
    },
    Case {
        sends: &[Sent::Failed(TOO_LONG)],
        rows: &[
            Row::TakesLong(65_535),
            Row::Pumps(Pumped::Wrote(1)),
            Row::Unsent(0),
        ],
        drops: Drops {
            failed_sends: 1,
            send_error: Some(TOO_LONG),
            ..NO_DROPS
        },
        ..VXLAN
    },
];

#[test]
fn keeps_frames_for_a_device_that_takes_none(rt: HostRuntime) -> Result<(), Fail> {
    check_all(&rt, rt.alloc(), FULL)?;
    Ok(())
}

const MANY: &[Case] = &[Case {
    capacity: 100,
    sends: &[Sent::Moved; 65],
    rows: &[
        Row::Takes(65, SECOND),
        Row::Pumps(Pumped::Wrote(64)),
        Row::Unsent(1),
        Row::Pumps(Pumped::Wrote(1)),
        Row::Unsent(0),
    ],
    sent: &[SECOND; 65],
    ..NOTHING
}];

#[test]
fn sends_64_times_at_most(rt: HostRuntime) -> Result<(), Fail> {
    check_all(&rt, rt.alloc(), MANY)?;
    Ok(())
}
