//! Ports whose devices fail, or take no more, in the middle of a frame.

use super::cases::{Case, Devices, NOTHING, check, check_all};
use super::device::{Manner, Parts, SINK};
use super::rows::Row;
use pb_port::{Offered, PortFault, Pumped};
use std::alloc::Global;
use std::process::Abort;

/// Two frames as a socket carries them, 0708 and 0910.
const TWO: &[u8] = &[0, 2, 7, 8, 0, 2, 9, 0x10];

/// The call of a socket that fails, the rows after it, and the octets that are written.
type Failing = (u64, &'static [Row], Parts<'static>);

/// Checks that sockets with these octets, which move `step` of them per call, have these rows.
fn check_sockets(
    rt: &impl Abort,
    alloc: Global,
    gives: &'static [u8],
    step: usize,
    table: &[Failing],
) {
    for (call, rows, wrote) in table {
        let stream = Manner {
            gives,
            step,
            waits: false,
            fails_at: *call,
        };
        let case = Case {
            devices: Devices::Socket(stream),
            rows,
            wrote,
            failures: 1,
            ..NOTHING
        };
        check(rt, alloc, *call as usize, &case);
    }
}

/// The rows of the two frames if the read of this number fails, of reads that move an octet each.
const READS: &[Failing] = &[
    (1, NO_FRAME, &[]),
    (2, NO_FRAME, &[]),
    (3, NO_FRAME, &[]),
    (4, NO_FRAME, &[]),
    (5, ONE_FRAME, &[]),
    (6, ONE_FRAME, &[]),
    (7, ONE_FRAME, &[]),
    (8, ONE_FRAME, &[]),
    (9, BOTH_FRAMES, &[]),
];

const NO_FRAME: &[Row] = &[
    Row::Tells(&[262]),
    Row::Faults(PortFault::Read),
    Row::Faults(PortFault::Read),
];

const ONE_FRAME: &[Row] = &[
    Row::Tells(&[7, 8, 300, 262]),
    Row::Faults(PortFault::Read),
    Row::Faults(PortFault::Read),
];

const BOTH_FRAMES: &[Row] = &[
    Row::Tells(&[7, 8, 300, 9, 16, 300, 262]),
    Row::Faults(PortFault::Read),
    Row::Faults(PortFault::Read),
];

#[test]
fn a_socket_fails_at_each_read(rt: HostRuntime) {
    check_sockets(&rt, rt.alloc(), TWO, 1, READS);
}

/// The rows of the two frames, and the octets that were written, if the write of this number fails, of writes that move
/// an octet each.
const WRITES: &[Failing] = &[
    (1, TWO_LEFT, &[]),
    (2, TWO_LEFT, &[(1, &[0])]),
    (3, TWO_LEFT, &[(1, &[0, 2])]),
    (4, TWO_LEFT, &[(1, &[0, 2, 7])]),
    (5, ONE_LEFT, &[(1, &[0, 2, 7, 8])]),
    (6, ONE_LEFT, &[(1, &[0, 2, 7, 8, 0])]),
    (7, ONE_LEFT, &[(1, &[0, 2, 7, 8, 0, 2])]),
    (8, ONE_LEFT, &[(1, &[0, 2, 7, 8, 0, 2, 9])]),
];

const TWO_LEFT: &[Row] = &[
    Row::Offers(&[7, 8], Offered::Taken),
    Row::Offers(&[9, 0x10], Offered::Taken),
    Row::Pumps(0, Pumped::Fault(PortFault::Write)),
    Row::Unsent(2),
    Row::Offers(&[0x11], Offered::Gone),
    Row::Pumps(0, Pumped::Fault(PortFault::Write)),
    Row::Unsent(2),
    Row::Ends,
];

const ONE_LEFT: &[Row] = &[
    Row::Offers(&[7, 8], Offered::Taken),
    Row::Offers(&[9, 0x10], Offered::Taken),
    Row::Pumps(0, Pumped::Fault(PortFault::Write)),
    Row::Unsent(1),
    Row::Offers(&[0x11], Offered::Gone),
    Row::Pumps(0, Pumped::Fault(PortFault::Write)),
    Row::Unsent(1),
    Row::Ends,
];

#[test]
fn a_socket_fails_at_each_write(rt: HostRuntime) {
    check_sockets(&rt, rt.alloc(), &[], 1, WRITES);
}

/// The rows of a port that gives a frame and takes one, and the octets that it writes, if the call of this number
/// fails: the first two are reads and the third is a write. Neither direction stops the other.
const EACH_WAY: &[Failing] = &[
    (
        1,
        &[
            Row::Faults(PortFault::Read),
            Row::Offers(&[9], Offered::Taken),
            Row::Pumps(0, Pumped::Wrote(1)),
            Row::Unsent(0),
            Row::Faults(PortFault::Read),
        ],
        &[(1, &[0, 1, 9])],
    ),
    (
        2,
        &[
            Row::Gives(&[7, 8]),
            Row::Faults(PortFault::Read),
            Row::Offers(&[9], Offered::Taken),
            Row::Pumps(0, Pumped::Wrote(1)),
            Row::Unsent(0),
            Row::Faults(PortFault::Read),
        ],
        &[(1, &[0, 1, 9])],
    ),
    (
        3,
        &[
            Row::Gives(&[7, 8]),
            Row::Ends,
            Row::Offers(&[9], Offered::Taken),
            Row::Pumps(0, Pumped::Fault(PortFault::Write)),
            Row::Unsent(1),
            Row::Offers(&[9], Offered::Gone),
            Row::Ends,
        ],
        &[],
    ),
    (
        4,
        &[
            Row::Gives(&[7, 8]),
            Row::Ends,
            Row::Offers(&[9], Offered::Taken),
            Row::Pumps(0, Pumped::Wrote(1)),
            Row::Unsent(0),
            Row::Offers(&[9], Offered::Taken),
            Row::Pumps(0, Pumped::Fault(PortFault::Write)),
            Row::Unsent(1),
            Row::Ends,
        ],
        &[(1, &[0, 1, 9])],
    ),
];

#[test]
fn one_way_of_a_socket_does_not_stop_the_other(rt: HostRuntime) {
    check_sockets(&rt, rt.alloc(), &[0, 2, 7, 8], 1000, EACH_WAY);
}

/// The first of three frames has left when a write fails: it is not among those that wait, and no later pump
/// writes anything.
const FAILS_LATER: &[Row] = &[
    Row::Takes(3, &[7, 8]),
    Row::Pumps(0, Pumped::Fault(PortFault::Write)),
    Row::Unsent(2),
    Row::Pumps(0, Pumped::Fault(PortFault::Write)),
    Row::Unsent(2),
    Row::Shelves {
        sent: &[],
        unsent: &[&[7, 8], &[7, 8]],
    },
];

/// The first of two frames has left when a write takes nothing: the next pump goes on with the second.
const BLOCKS_LATER: &[Row] = &[
    Row::Takes(2, &[7, 8]),
    Row::Pumps(0, Pumped::Wrote(1)),
    Row::Unsent(1),
    Row::Pumps(0, Pumped::Wrote(1)),
    Row::Unsent(0),
    Row::Pumps(0, Pumped::Nothing),
];

/// Devices that take the octets of the first frame, and fail at their second call.
const FAILS: Manner = Manner {
    step: 4,
    fails_at: 2,
    ..SINK
};

const FAILS_CAPTURE: Manner = Manner { step: 42, ..FAILS };

/// Devices that take the octets of the first frame, and take nothing in each second call after it.
const BLOCKS: Manner = Manner {
    step: 4,
    waits: true,
    ..SINK
};

const BLOCKS_CAPTURE: Manner = Manner { step: 42, ..BLOCKS };

/// The frame as a socket carries it, and as a record of a capture at second 0, with the capture's header.
const LENGTH: &[u8] = &[0, 2, 7, 8];

const HEADER: &[u8] = &[
    0xd4, 0xc3, 0xb2, 0xa1, 2, 0, 4, 0, 0, 0, 0, 0, 0, 0, 0, 0, 0xff, 0xff, 0, 0, 1, 0, 0, 0,
];

const RECORD: &[u8] = &[0, 0, 0, 0, 0, 0, 0, 0, 2, 0, 0, 0, 2, 0, 0, 0, 7, 8];

const LATER: &[Case] = &[
    Case {
        devices: Devices::Socket(FAILS),
        rows: FAILS_LATER,
        wrote: &[(1, LENGTH)],
        failures: 1,
        ..NOTHING
    },
    Case {
        devices: Devices::Writer(FAILS_CAPTURE),
        rows: FAILS_LATER,
        wrote: &[(1, HEADER), (1, RECORD)],
        failures: 1,
        ..NOTHING
    },
    Case {
        devices: Devices::Socket(BLOCKS),
        rows: BLOCKS_LATER,
        wrote: &[(2, LENGTH)],
        ..NOTHING
    },
    Case {
        devices: Devices::Writer(BLOCKS_CAPTURE),
        rows: BLOCKS_LATER,
        wrote: &[(1, HEADER), (2, RECORD)],
        ..NOTHING
    },
];

#[test]
fn frames_that_left_are_gone_though_a_later_write_does_not_pass(rt: HostRuntime) {
    check_all(&rt, rt.alloc(), LATER);
}

/// A port that failed is put on its shelf, and each later pump still reports that a write failed.
const SHELVED: &[Row] = &[
    Row::Offers(&[7, 8], Offered::Taken),
    Row::Pumps(0, Pumped::Fault(PortFault::Write)),
    Row::Shelves {
        sent: &[],
        unsent: &[&[7, 8]],
    },
    Row::Unsent(0),
    Row::Pumps(0, Pumped::Fault(PortFault::Write)),
    Row::Offers(&[7, 8], Offered::Gone),
    Row::Pumps(0, Pumped::Fault(PortFault::Write)),
    Row::Unsent(0),
];

/// A device that fails at once.
const BROKEN: Manner = Manner {
    step: 1,
    fails_at: 1,
    ..SINK
};

const BOTH_SHELVED: &[Case] = &[
    Case {
        devices: Devices::Socket(BROKEN),
        rows: SHELVED,
        failures: 1,
        ..NOTHING
    },
    Case {
        devices: Devices::Writer(BROKEN),
        rows: SHELVED,
        failures: 1,
        ..NOTHING
    },
];

#[test]
fn a_shelved_port_still_says_that_a_write_failed(rt: HostRuntime) {
    check_all(&rt, rt.alloc(), BOTH_SHELVED);
}
