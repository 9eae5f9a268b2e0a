//! Ports over sockets.

use super::cases::{Case, Devices, NOTHING, check_all};
use super::device::{Manner, SINK, Seen};
use super::rows::{Row, walk};
use mio::net::{UnixListener, UnixStream};
use pb_port::{LengthField, Offered, Over, PortFault, Pumped, SocketPort};
use std::alloc::Global;
use std::fs::{self, Files};
use std::io;
use std::net::Net;
use std::test::Fail;

const CUT: &[Case] = &[Case {
    devices: Devices::Socket(Manner {
        gives: &[0, 0xe, 1, 2, 3, 4, 5],
        ..SINK
    }),
    rows: &[
        Row::Faults(PortFault::Truncated),
        Row::Faults(PortFault::Truncated),
        Row::Faults(PortFault::Truncated),
    ],
    ..NOTHING
}];

#[test]
fn reads_a_stream_that_ends_within_a_frame(rt: HostRuntime) {
    check_all(&rt, rt.alloc(), CUT);
}

const EMPTY: &[Case] = &[Case {
    devices: Devices::Socket(Manner {
        gives: &[0, 0],
        ..SINK
    }),
    rows: &[Row::Gives(&[]), Row::Ends, Row::Ends],
    ..NOTHING
}];

#[test]
fn reads_a_frame_of_no_octets(rt: HostRuntime) {
    check_all(&rt, rt.alloc(), EMPTY);
}

const BOTH_WAYS: &[Case] = &[Case {
    devices: Devices::Socket(Manner {
        gives: &[0, 2, 7, 8, 0, 0, 0, 1, 9],
        step: 1,
        waits: true,
        fails_at: 0,
    }),
    rows: &[
        Row::Tells(&[7, 8, 300, 300, 9, 300, 256]),
        Row::Offers(&[7, 8], Offered::Taken),
        Row::Offers(&[], Offered::Taken),
        Row::PumpsOn(20),
        Row::Unsent(0),
    ],
    wrote: &[(1, &[0, 2, 7, 8, 0, 0])],
    ..NOTHING
}];

#[test]
fn writes_what_it_reads(rt: HostRuntime) {
    check_all(&rt, rt.alloc(), BOTH_WAYS);
}

const LONGEST: &[Case] = &[Case {
    devices: Devices::Socket(Manner {
        step: 100_000,
        ..SINK
    }),
    rows: &[
        Row::TakesLong(65_535),
        Row::TakesLong(65_535),
        Row::Pumps(0, Pumped::Wrote(2)),
        Row::Calls(9),
    ],
    wrote: &[
        (1, &[0xff, 0xff]),
        (65_535, &[7]),
        (1, &[0xff, 0xff]),
        (65_535, &[7]),
    ],
    ..NOTHING
}];

#[test]
fn writes_the_longest_frame(rt: HostRuntime) {
    check_all(&rt, rt.alloc(), LONGEST);
}

const WAITS: &[Row] = &[Row::Waits];

const GIVES: &[Row] = &[Row::Gives(&[1, 2, 3])];

const SENDS: &[Row] = &[
    Row::Offers(&[1, 2, 3], Offered::Taken),
    Row::Pumps(0, Pumped::Wrote(1)),
];

/// The actions at the far end, or at the near one.
const PASSES: &[(bool, &[Row])] = &[
    (true, WAITS),
    (false, SENDS),
    (true, GIVES),
    (true, SENDS),
    (false, GIVES),
];

/// Returns the two ends of a socket.
fn ends<R: Files + Net>(rt: &R, path: &str) -> io::Result<(UnixStream, UnixStream)> {
    let listener = UnixListener::bind(rt, path)?;
    let near = UnixStream::connect(rt, path)?;
    let (far, _) = listener.accept()?;
    Ok((near, far))
}

/// Returns how many rows hold of ports over these ends, and how many calls of the near one failed.
fn passed(alloc: Global, near: UnixStream, far: UnixStream) -> (usize, u64) {
    let (seen, mut held) = (Seen::new(&[]), 0usize);
    let mut near = SocketPort::new(alloc, 4, LengthField::Two, Over::new(near));
    let mut far = SocketPort::new(alloc, 4, LengthField::Two, Over::new(far));
    for (is_far, rows) in PASSES {
        let port = if *is_far { &mut far } else { &mut near };
        let more = walk(alloc, port, &seen, rows);
        held = held.saturating_add(more);
        if more < rows.len() {
            break;
        }
    }
    (held, near.failures())
}

#[test]
fn passes_frames_both_ways(rt: HostRuntime) -> Result<(), Fail> {
    let path = "ports.sock";
    let _ = fs::remove_file(&rt, path);
    let (near, far) = ends(&rt, path)?;
    assert_eq!(rt; passed(rt.alloc(), near, far), (7, 0));
    fs::remove_file(&rt, path)?;
    Ok(())
}
