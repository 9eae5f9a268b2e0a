//! Datagrams that are received, and those that are refused.

use super::cases::{Case, NO_DROPS, NO_REFUSALS, NOTHING, Row, check_all};
use super::device::{Arrival, NO_BUFFERS, TOO_LONG};
use pb_datagram::{Drops, Refusals};
use std::test::Fail;

/// An Ethernet header.
const FRAME: &[u8] = &[1, 2, 3, 4, 5, 6, 7, 8, 9, 10, 11, 12, 0x88, 0xb5];

/// The frame after a header of the network 7.
const CARRIED: &[u8] = &[
    0x08, 0, 0, 0, 0, 0, 7, 0, 1, 2, 3, 4, 5, 6, 7, 8, 9, 10, 11, 12, 0x88, 0xb5,
];

/// The same with all reserved bits set.
const RESERVED: &[u8] = &[
    0xff, 0xff, 0xff, 0xff, 0, 0, 7, 0xff, 1, 2, 3, 4, 5, 6, 7, 8, 9, 10, 11, 12, 0x88, 0xb5,
];

/// The same of the network 8, and without the I flag.
const OTHER: &[u8] = &[
    0x08, 0, 0, 0, 0, 0, 8, 0, 1, 2, 3, 4, 5, 6, 7, 8, 9, 10, 11, 12, 0x88, 0xb5,
];

const UNSET: &[u8] = &[
    0xf7, 0, 0, 0, 0, 0, 7, 0, 1, 2, 3, 4, 5, 6, 7, 8, 9, 10, 11, 12, 0x88, 0xb5,
];

const VXLAN: Case = Case {
    network: Some(7),
    ..NOTHING
};

const REFUSED: &[Case] = &[
    Case {
        arrivals: &[Arrival::FromPeer(CARRIED), Arrival::FromPeer(RESERVED)],
        rows: &[Row::Gives(FRAME), Row::Gives(FRAME), Row::Waits],
        ..VXLAN
    },
    Case {
        arrivals: &[Arrival::FromOtherPort(CARRIED), Arrival::FromPeer(CARRIED)],
        rows: &[Row::Gives(FRAME), Row::Gives(FRAME), Row::Waits],
        ..VXLAN
    },
    Case {
        arrivals: &[Arrival::FromOtherHost(CARRIED), Arrival::FromOtherHost(&[])],
        rows: &[Row::Waits, Row::Waits],
        drops: Drops {
            refusals: Refusals {
                other_sender: 2,
                ..NO_REFUSALS
            },
            ..NO_DROPS
        },
        ..VXLAN
    },
    Case {
        arrivals: &[
            Arrival::FromPeer(OTHER),
            Arrival::FromPeer(UNSET),
            Arrival::FromPeer(&[]),
            Arrival::FromPeer(&[0x08, 0, 0, 0, 0, 0, 7]),
            Arrival::FromPeer(&[0x08, 0, 0, 0, 0, 0, 7, 0]),
            Arrival::FromPeer(CARRIED),
        ],
        rows: &[Row::Gives(&[]), Row::Gives(FRAME), Row::Waits],
        drops: Drops {
            refusals: Refusals {
                short_header: 2,
                unset_flag: 1,
                other_network: 1,
                ..NO_REFUSALS
            },
            ..NO_DROPS
        },
        ..VXLAN
    },
    Case {
        arrivals: &[
            Arrival::FromPeer(FRAME),
            Arrival::FromPeer(&[1, 2, 3, 4, 5, 6, 7, 8, 9, 10, 11, 12, 0x88]),
            Arrival::FromOtherPort(FRAME),
            Arrival::FromPeer(CARRIED),
        ],
        rows: &[Row::Gives(FRAME), Row::Gives(CARRIED), Row::Waits],
        drops: Drops {
            refusals: Refusals {
                other_sender: 1,
                short_frame: 1,
                ..NO_REFUSALS
            },
            ..NO_DROPS
        },
        ..NOTHING
    },
];

#[test]
fn refuses_by_the_first_reason_that_applies(rt: HostRuntime) -> Result<(), Fail> {
    check_all(&rt, rt.alloc(), REFUSED)?;
    Ok(())
}

const FAILS: &[Case] = &[
    Case {
        arrivals: &[
            Arrival::Fails(TOO_LONG),
            Arrival::FromPeer(FRAME),
            Arrival::Waits,
            Arrival::Fails(NO_BUFFERS),
            Arrival::FromPeer(FRAME),
        ],
        rows: &[
            Row::Gives(FRAME),
            Row::Receives(2),
            Row::Waits,
            Row::Receives(3),
            Row::Gives(FRAME),
            Row::Receives(5),
            Row::Waits,
        ],
        drops: Drops {
            failed_receives: 2,
            receive_error: Some(NO_BUFFERS),
            ..NO_DROPS
        },
        ..NOTHING
    },
    Case {
        arrivals: &[Arrival::Fails(TOO_LONG)],
        rows: &[Row::Waits, Row::Receives(2), Row::Waits, Row::Receives(3)],
        drops: Drops {
            failed_receives: 1,
            receive_error: Some(TOO_LONG),
            ..NO_DROPS
        },
        ..NOTHING
    },
];

#[test]
fn goes_on_after_a_receive_that_fails(rt: HostRuntime) -> Result<(), Fail> {
    check_all(&rt, rt.alloc(), FAILS)?;
    Ok(())
}

const MANY: &[Case] = &[Case {
    arrivals: &[Arrival::FromOtherHost(FRAME); 70],
    rows: &[Row::Waits, Row::Receives(64), Row::Waits, Row::Receives(71)],
    drops: Drops {
        refusals: Refusals {
            other_sender: 70,
            ..NO_REFUSALS
        },
        ..NO_DROPS
    },
    ..NOTHING
}];

#[test]
fn receives_64_times_at_most(rt: HostRuntime) -> Result<(), Fail> {
    check_all(&rt, rt.alloc(), MANY)?;
    Ok(())
}
