//! Ports whose peers come and go.

use super::device::{Parts, Seen};
use super::line::{Partings, Peer, Then, Turns};
use super::rows::{Row, walk};
use pb_port::{LengthField, Offered, Parting, Pumped, StayingPort};
use std::alloc::Global;
use std::process::Abort;

/// The peers of a port, its rows, the octets that it writes, and the counts of its partings.
type Case = (
    &'static [Peer],
    &'static [Row],
    Parts<'static>,
    &'static [Parting],
);

/// The next peer: it gives the frame 05, and takes all.
const NEXT: Peer = Peer {
    gives: &[0, 1, 5],
    takes: 1000,
    then: Then::Waits,
};

/// The first peer leaves within a frame in both directions, between two polls.
const LEAVES: Case = (
    &[
        Peer {
            gives: &[0, 2, 7, 8, 0, 3, 9],
            takes: 5,
            then: Then::Ends,
        },
        NEXT,
    ],
    &[
        Row::Gives(&[7, 8]),
        Row::Takes(2, &[1, 2]),
        Row::Pumps(0, Pumped::Wrote(1)),
        Row::Unsent(1),
        Row::Waits,
        Row::Waits,
        Row::Offers(&[3], Offered::Taken),
        Row::Pumps(0, Pumped::Wrote(2)),
        Row::Unsent(0),
        Row::Pumps(0, Pumped::Nothing),
        Row::Gives(&[5]),
        Row::Waits,
        Row::Offers(&[6], Offered::Taken),
        Row::Pumps(0, Pumped::Wrote(1)),
    ],
    &[(1, &[0, 2, 1, 2, 0, 0, 1, 6])],
    &[Parting {
        entered: 1,
        left: 1,
        dropped: 3,
    }],
);

/// A read of the first peer fails.
const FAILS_READ: Case = (
    &[
        Peer {
            gives: &[],
            takes: 1000,
            then: Then::Fails,
        },
        NEXT,
    ],
    &[
        Row::Waits,
        Row::Offers(&[1], Offered::Taken),
        Row::Pumps(0, Pumped::Wrote(1)),
        Row::Unsent(0),
        Row::Gives(&[5]),
    ],
    &[],
    &[Parting {
        entered: 0,
        left: 0,
        dropped: 1,
    }],
);

/// A write of the first peer fails after a frame, while a whole frame and a part of one are held. The second peer
/// leaves with nothing to drop.
const FAILS_WRITE: Case = (
    &[
        Peer {
            gives: &[0, 1, 1, 0, 1, 2, 0, 9],
            takes: 4,
            then: Then::Fails,
        },
        Peer {
            gives: &[0, 1, 4],
            takes: 4,
            then: Then::Ends,
        },
        NEXT,
    ],
    &[
        Row::Gives(&[1]),
        Row::Takes(3, &[7, 8]),
        Row::Pumps(0, Pumped::Wrote(3)),
        Row::Unsent(0),
        Row::Offers(&[9, 9], Offered::Taken),
        Row::Pumps(0, Pumped::Wrote(1)),
        Row::Gives(&[4]),
        Row::Waits,
        Row::Pumps(0, Pumped::Nothing),
        Row::Gives(&[5]),
    ],
    &[(1, &[0, 2, 7, 8, 0, 2, 9, 9])],
    &[
        Parting {
            entered: 1,
            left: 1,
            dropped: 4,
        },
        Parting {
            entered: 1,
            left: 1,
            dropped: 0,
        },
    ],
);

/// A port is put on its shelf, and its peer leaves afterwards.
const SHELVED: Case = (
    &[
        Peer {
            gives: &[],
            takes: 3,
            then: Then::Ends,
        },
        NEXT,
    ],
    &[
        Row::Takes(2, &[7, 8]),
        Row::Pumps(0, Pumped::Nothing),
        Row::Shelves {
            sent: &[],
            unsent: &[&[7, 8], &[7, 8]],
        },
        Row::Offers(&[7, 8], Offered::Gone),
        Row::Waits,
        Row::Pumps(0, Pumped::Nothing),
        Row::Offers(&[7, 8], Offered::Gone),
        Row::Gives(&[5]),
    ],
    &[(1, &[0, 2, 7])],
    &[Parting {
        entered: 0,
        left: 0,
        dropped: 0,
    }],
);

/// Three peers leave: within a frame in both directions, within a length, and after a length that is too great.
const LEAVE_WITHIN_LENGTHS: Case = (
    &[
        Peer {
            gives: &[0, 0, 0, 2, 7, 8, 0, 0, 0, 3, 9],
            takes: 9,
            then: Then::Ends,
        },
        Peer {
            gives: &[0, 0, 0, 1, 4, 0, 0, 0],
            takes: 1000,
            then: Then::Ends,
        },
        Peer {
            gives: &[0, 1, 0, 0],
            takes: 1000,
            then: Then::Waits,
        },
        Peer {
            gives: &[0, 0, 0, 1, 5],
            takes: 1000,
            then: Then::Waits,
        },
    ],
    &[
        Row::Gives(&[7, 8]),
        Row::Takes(2, &[1, 2]),
        Row::Pumps(0, Pumped::Wrote(1)),
        Row::Waits,
        Row::Pumps(0, Pumped::Wrote(1)),
        Row::Gives(&[4]),
        Row::Waits,
        Row::Pumps(0, Pumped::Nothing),
        Row::Waits,
        Row::Pumps(0, Pumped::Nothing),
        Row::Gives(&[5]),
        Row::Offers(&[6], Offered::Taken),
        Row::Pumps(0, Pumped::Wrote(1)),
    ],
    &[(1, &[0, 0, 0, 2, 1, 2, 0, 0, 0, 0, 0, 0, 1, 6])],
    &[
        Parting {
            entered: 1,
            left: 1,
            dropped: 2,
        },
        Parting {
            entered: 1,
            left: 0,
            dropped: 1,
        },
        Parting {
            entered: 0,
            left: 0,
            dropped: 1,
        },
    ],
);

/// Checks that a port with lengths of this field has its results.
fn check(rt: &impl Abort, alloc: Global, field: LengthField, number: usize, case: Case) {
    let (peers, rows, wrote, wanted) = case;
    let (seen, partings) = (Seen::new(wrote), Partings::new(wanted));
    let line = Turns::new(peers, &seen, &partings);
    let mut port = StayingPort::new(alloc, 4, field, line);
    let held = walk(alloc, &mut port, &seen, rows);
    let came = (held, seen.has_all(), partings.has_all());
    assert_eq!(rt; came, (rows.len(), true, true), "case {number}");
}

#[test]
fn goes_on_with_the_next_peer(rt: HostRuntime) {
    let cases = [LEAVES, FAILS_READ, FAILS_WRITE, SHELVED];
    for (number, case) in cases.iter().enumerate() {
        check(&rt, rt.alloc(), LengthField::Two, number, *case);
    }
}

#[test]
fn counts_frames_that_begin_with_lengths_of_four_octets(rt: HostRuntime) {
    check(&rt, rt.alloc(), LengthField::Four, 0, LEAVE_WITHIN_LENGTHS);
}
