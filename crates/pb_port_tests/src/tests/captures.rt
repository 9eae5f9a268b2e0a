//! Ports over captures.

use super::cases::{Case, Devices, NOTHING, check, check_all};
use super::device::{Fake, Hollow, Manner, Parts, SINK, Seen};
use super::rows::{Row, held, walk};
use pb_port::*;
use std::alloc::Global;
use std::fs::{self, File};
use std::process::Abort;
use std::test::Fail;

/// A capture with a record that captured 14 octets of 60, one that captured 14 of 14, and seven octets.
const CAPTURE: &[u8] = &[
    0xa1, 0xb2, 0xc3, 0xd4, 0, 2, 0, 4, 0, 0, 0, 0, 0, 0, 0, 0, 0, 0, 0xff, 0xff, 0, 0, 0, 1, 0, 0,
    0, 0, 0, 0, 0, 0, 0, 0, 0, 14, 0, 0, 0, 60, 1, 2, 3, 4, 5, 6, 7, 8, 9, 10, 11, 12, 13, 14, 0,
    0, 0, 0, 0, 0, 0, 0, 0, 0, 0, 14, 0, 0, 0, 14, 21, 22, 23, 24, 25, 26, 27, 28, 29, 30, 31, 32,
    33, 34, 0, 0, 0, 0, 0, 0, 0,
];

/// The frame of the capture.
const FRAME: &[u8] = &[21, 22, 23, 24, 25, 26, 27, 28, 29, 30, 31, 32, 33, 34];

/// Devices that return the capture, all at once or an octet per call.
const WHOLE: Manner = Manner {
    gives: CAPTURE,
    ..SINK
};

const BY_ONE: Manner = Manner { step: 1, ..WHOLE };

const READ: &[Case] = &[Case {
    devices: Devices::Reader(WHOLE),
    rows: &[
        Row::Gives(FRAME),
        Row::Faults(PortFault::Truncated),
        Row::Faults(PortFault::Truncated),
        Row::Faults(PortFault::Truncated),
    ],
    skipped: 1,
    ..NOTHING
}];

#[test]
fn reads_a_capture(rt: HostRuntime) {
    check_all(&rt, rt.alloc(), READ);
}

/// Returns the rows of the first octets of the capture: its one frame, and that it ends, or ends within a record.
fn told_of(n: usize) -> &'static [Row] {
    match n {
        24 | 54 => &[Row::Tells(&[256])],
        84 => &[Row::Tells(&[
            21, 22, 23, 24, 25, 26, 27, 28, 29, 30, 31, 32, 33, 34, 300, 256,
        ])],
        85.. => &[Row::Tells(&[
            21, 22, 23, 24, 25, 26, 27, 28, 29, 30, 31, 32, 33, 34, 300, 260,
        ])],
        _ => &[Row::Tells(&[260])],
    }
}

#[test]
fn reads_each_cut(rt: HostRuntime) {
    for n in 0..92usize {
        for step in [1usize, 7, 1000] {
            let reader = Manner {
                gives: &CAPTURE[..n],
                step,
                waits: step == 1,
                fails_at: 0,
            };
            let case = Case {
                devices: Devices::Reader(reader),
                rows: told_of(n),
                skipped: if 54 <= n { 1 } else { 0 },
                ..NOTHING
            };
            check(&rt, rt.alloc(), n, &case);
        }
    }
}

const READ_BY_ONE: &[Case] = &[Case {
    devices: Devices::Reader(BY_ONE),
    rows: &[
        Row::Waits,
        Row::Calls(64),
        Row::Gives(FRAME),
        Row::Calls(84),
    ],
    skipped: 1,
    ..NOTHING
}];

#[test]
fn reads_64_times_a_call(rt: HostRuntime) {
    check_all(&rt, rt.alloc(), READ_BY_ONE);
}

/// A frame of 14 octets, and the header of a capture that is written.
const LONG: &[u8] = &[1, 2, 3, 4, 5, 6, 7, 8, 9, 10, 11, 12, 13, 14];

const HEADER: &[u8] = &[
    0xd4, 0xc3, 0xb2, 0xa1, 2, 0, 4, 0, 0, 0, 0, 0, 0, 0, 0, 0, 0xff, 0xff, 0, 0, 1, 0, 0, 0,
];

/// A device that takes an octet per call.
const SLOW: Manner = Manner { step: 1, ..SINK };

const WRITTEN_BY_ONE: &[Case] = &[Case {
    devices: Devices::Writer(SLOW),
    rows: &[
        Row::Takes(2, LONG),
        Row::Pumps(7, Pumped::Wrote(1)),
        Row::Unsent(1),
        Row::Calls(64),
        Row::Pumps(8, Pumped::Wrote(1)),
        Row::Calls(84),
        Row::Pumps(9, Pumped::Nothing),
    ],
    wrote: &[
        (1, HEADER),
        (1, &[7, 0, 0, 0, 0, 0, 0, 0, 14, 0, 0, 0, 14, 0, 0, 0]),
        (1, LONG),
        (1, &[7, 0, 0, 0, 0, 0, 0, 0, 14, 0, 0, 0, 14, 0, 0, 0]),
        (1, LONG),
    ],
    ..NOTHING
}];

#[test]
fn writes_64_times_a_call(rt: HostRuntime) {
    check_all(&rt, rt.alloc(), WRITTEN_BY_ONE);
}

/// A device that takes all.
const WIDE: Manner = Manner {
    step: 100_000,
    ..SINK
};

const MANY: &[Case] = &[Case {
    devices: Devices::Writer(WIDE),
    capacity: 1000,
    rows: &[
        Row::Takes(1000, &[7, 8]),
        Row::Pumps(1, Pumped::Wrote(1000)),
        Row::Calls(2),
    ],
    wrote: &[
        (1, HEADER),
        (
            1000,
            &[1, 0, 0, 0, 0, 0, 0, 0, 2, 0, 0, 0, 2, 0, 0, 0, 7, 8],
        ),
    ],
    ..NOTHING
}];

#[test]
fn writes_many_frames_a_call(rt: HostRuntime) {
    check_all(&rt, rt.alloc(), MANY);
}

/// A capture that has nothing but its header and one frame or fault, and its rows.
type Told = (&'static [u8], &'static [Row]);

/// Reads each of these captures.
fn check_told(rt: &impl Abort, alloc: Global, captures: &[Told]) {
    for (number, (gives, rows)) in captures.iter().enumerate() {
        let reader = Manner { gives, ..SINK };
        let case = Case {
            devices: Devices::Reader(reader),
            rows,
            ..NOTHING
        };
        check(rt, alloc, number, &case);
    }
}

const ORDERS: &[Told] = &[
    (b"\xa1\xb2\xc3\xd4", &[Row::Tells(&[260])]),
    (
        b"\xa1\xb2\xc3\xd4\0\x02\0\x04\0\0\0\0\0\0\0\0\0\0\xff\xff\0\0\0\x01\
          \0\0\0\x01\0\0\0\x02\0\0\0\x02\0\0\0\x02\x07\x08",
        &[Row::Tells(&[7, 8, 300, 256])],
    ),
    (
        b"\xa1\xb2\x3c\x4d\0\x02\0\x04\0\0\0\0\0\0\0\0\0\0\xff\xff\0\0\0\x01\
          \0\0\0\x01\0\0\0\x02\0\0\0\x02\0\0\0\x02\x07\x08",
        &[Row::Tells(&[7, 8, 300, 256])],
    ),
    (
        b"\xd4\xc3\xb2\xa1\x02\0\x04\0\0\0\0\0\0\0\0\0\xff\xff\0\0\x01\0\0\0\
          \x01\0\0\0\x02\0\0\0\x02\0\0\0\x02\0\0\0\x07\x08",
        &[Row::Tells(&[7, 8, 300, 256])],
    ),
    (
        b"\x4d\x3c\xb2\xa1\x02\0\x04\0\0\0\0\0\0\0\0\0\xff\xff\0\0\x01\0\0\0\
          \x01\0\0\0\x02\0\0\0\x02\0\0\0\x02\0\0\0\x07\x08",
        &[Row::Tells(&[7, 8, 300, 256])],
    ),
];

#[test]
fn reads_both_orders_and_both_magic_numbers(rt: HostRuntime) {
    check_told(&rt, rt.alloc(), ORDERS);
}

const WRONG: &[Told] = &[
    (
        b"\xa1\xb2\xc3\xd5\0\x02\0\x04\0\0\0\0\0\0\0\0\0\0\xff\xff\0\0\0\x01",
        &[Row::Tells(&[257])],
    ),
    (
        b"\xa1\xb2\xc3\xd4\0\x02\0\x03\0\0\0\0\0\0\0\0\0\0\xff\xff\0\0\0\x01",
        &[Row::Tells(&[258])],
    ),
    (
        b"\xa1\xb2\xc3\xd4\0\x02\0\x04\0\0\0\0\0\0\0\0\0\0\xff\xff\0\0\0\x02",
        &[Row::Tells(&[259])],
    ),
    (
        b"\xa1\xb2\xc3\xd4\0\x02\0\x04\0\0\0\0\0\0\0\0\0\0\xff\xff\0\0\0\x01\0\0\0\0\0\0\0\0\0\x04\0\x01\0\x04\0\x01",
        &[Row::Tells(&[261])],
    ),
    (
        b"\xa1\xb2\xc3\xd4\0\x02\0\x04\0\0\0\0\0\0\0\0\0\0\xff\xff\0\0\0\x01\0\0\0\0\0\0\0\0\0\x04\0\0\0\x04\0\x01",
        &[Row::Tells(&[260])],
    ),
];

#[test]
fn tells_what_is_wrong(rt: HostRuntime) {
    check_told(&rt, rt.alloc(), WRONG);
}

/// A device that takes three octets in every other call.
const SLOWER: Manner = Manner {
    step: 3,
    waits: true,
    ..SINK
};

const WRITTEN: &[Case] = &[Case {
    devices: Devices::Writer(SLOWER),
    rows: &[Row::Offers(LONG, Offered::Taken), Row::PumpsUntil(7, 1)],
    wrote: &[
        (1, HEADER),
        (1, &[7, 0, 0, 0, 0, 0, 0, 0, 14, 0, 0, 0, 14, 0, 0, 0]),
        (1, LONG),
    ],
    ..NOTHING
}];

#[test]
fn writes_a_capture(rt: HostRuntime) {
    check_all(&rt, rt.alloc(), WRITTEN);
}

/// Two frames on a scale of milliseconds, and the octets that are written of them.
const ON_SCALE: &[Row] = &[
    Row::Offers(&[1, 2], Offered::Taken),
    Row::PumpsUntil(0, 1),
    Row::Offers(&[3], Offered::Taken),
    Row::PumpsUntil(150, 1),
];

const SCALED: Parts = &[
    (1, HEADER),
    (
        1,
        b"\x00\xf1\x53\x65\xa1\xbb\x0d\0\x02\0\0\0\x02\0\0\0\x01\x02",
    ),
    (1, b"\x01\xf1\x53\x65\x51\xc3\0\0\x01\0\0\0\x01\0\0\0\x03"),
];

#[test]
fn tells_times_on_its_scale(rt: HostRuntime) {
    let scale = Timescale {
        start: 1_700_000_000_900_001,
        tick: 1_000,
    };
    let seen = Seen::new(SCALED);
    let writer = Fake::new(Manner { step: 64, ..SINK }, &seen);
    let mut port = CapturePort::on_scale(rt.alloc(), 4, scale, Hollow, writer);
    let held = walk(rt.alloc(), &mut port, &seen, ON_SCALE);
    assert_eq!(rt; (held, seen.has_all()), (ON_SCALE.len(), true));
}

#[test]
fn fails_at_each_read(rt: HostRuntime) {
    for call in 1..85u64 {
        let reader = Manner {
            fails_at: call,
            ..BY_ONE
        };
        let case = Case {
            devices: Devices::Reader(reader),
            rows: &[Row::Tells(&[262]), Row::Faults(PortFault::Read)],
            failures: 1,
            skipped: if 54 < call { 1 } else { 0 },
            ..NOTHING
        };
        check(&rt, rt.alloc(), call as usize, &case);
    }
}

/// A capture of a frame, of which nothing is written but the octets before a write that fails.
const BROKEN: &[Row] = &[
    Row::Offers(&[1, 2, 3], Offered::Taken),
    Row::Pumps(0, Pumped::Fault(PortFault::Write)),
    Row::Offers(&[1, 2, 3], Offered::Gone),
    Row::Pumps(0, Pumped::Fault(PortFault::Write)),
    Row::Unsent(1),
];

const UNBROKEN: &[u8] = b"\xd4\xc3\xb2\xa1\x02\0\x04\0\0\0\0\0\0\0\0\0\xff\xff\0\0\x01\0\0\0\
      \0\0\0\0\0\0\0\0\x03\0\0\0\x03\0\0\0\x01\x02\x03";

#[test]
fn fails_at_each_write(rt: HostRuntime) {
    for call in 1..44usize {
        let writer = Manner {
            fails_at: call as u64,
            ..SLOW
        };
        let case = Case {
            devices: Devices::Writer(writer),
            rows: BROKEN,
            wrote: &[(1, &UNBROKEN[..call - 1])],
            failures: 1,
            ..NOTHING
        };
        check(&rt, rt.alloc(), call, &case);
    }
}

/// A capture of two frames is written to a file, and read.
const TO_FILE: &[Row] = &[
    Row::Offers(&[7, 8], Offered::Taken),
    Row::Offers(&[], Offered::Taken),
    Row::Pumps(1, Pumped::Wrote(2)),
];

const FROM_FILE: &[Row] = &[Row::Tells(&[7, 8, 300, 300, 256])];

#[test]
fn reads_back_a_file(rt: HostRuntime) -> Result<(), Fail> {
    let (alloc, path) = (rt.alloc(), "ports.pcap");
    let file = Over::new(File::create(&rt, path)?);
    let written = held(alloc, CapturePort::new(alloc, 4, Hollow, file), TO_FILE);
    let file = Over::new(File::open(&rt, path)?);
    let read = held(alloc, CapturePort::new(alloc, 4, file, Hollow), FROM_FILE);
    fs::remove_file(&rt, path)?;
    assert_eq!(rt; (written, read), (TO_FILE.len(), FROM_FILE.len()));
    Ok(())
}

#[test]
fn laws_of_streams_stand() {
    streams_have_one_reading();
    inputs_have_a_reading();
    polls_spell_the_reading();
    what_is_written_is_read();
    what_was_sent_is_read();
}
