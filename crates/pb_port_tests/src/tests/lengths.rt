//! Ports over streams whose lengths have four octets.

ghost use Rattle.std.specs.Prelude.{◌≡◌};

use super::cases::{Case, Devices, NOTHING, check};
use super::device::{Manner, Parts, Seen};
use super::rows::{Row, walk};
use bytes::Bytes;
use pb_port::{Device, Got, LengthField, Polled, Port, PortFault, SocketPort};
use std::alloc::{AllocError, Global};
use std::process::Abort;
use std::test::Fail;

/// Frames of 0, 1, 64, 1,518 and 65,535 octets 7, each after its length.
const FRAMES: Parts<'static> = &[
    (1, &[0, 0, 0, 0]),
    (1, &[0, 0, 0, 1, 7]),
    (1, &[0, 0, 0, 64]),
    (64, &[7]),
    (1, &[0, 0, 5, 0xee]),
    (1_518, &[7]),
    (1, &[0, 0, 0xff, 0xff]),
    (65_535, &[7]),
];

/// The frames are taken and written, and are read.
const BOTH_WAYS: &[Row] = &[
    Row::TakesLong(0),
    Row::TakesLong(1),
    Row::TakesLong(64),
    Row::TakesLong(1_518),
    Row::TakesLong(65_535),
    Row::PumpsOn(250),
    Row::PumpsOn(250),
    Row::PumpsOn(250),
    Row::PumpsOn(250),
    Row::PumpsOn(250),
    Row::Unsent(0),
    Row::GivesLong(0),
    Row::GivesLong(1),
    Row::GivesLong(64),
    Row::GivesLong(1_518),
    Row::GivesLong(65_535),
    Row::Ends,
];

/// A device that gives these octets, and moves at most so many per call, 1 or more.
#[derive(Drop)]
struct Mover<'a> {
    rest: &'a [u8],
    step: usize,
    seen: &'a Seen<'a>,
}

impl Device for Mover<'_> {
    ghost failed = { λ d. 0 };

    fn read(&mut self, buf: &mut [u8]) -> Got {
        let n = self.step.min(buf.len()).min(self.rest.len());
        buf[..n].copy_from_slice(&self.rest[..n]);
        self.rest = &self.rest[n..];
        Got::Moved(n)
    }

    fn write(&mut self, buf: &[u8]) -> Got {
        let n = self.step.max(1).min(buf.len());
        self.seen.note(&buf[..n]);
        Got::Moved(n)
    }

    fn failures(&self) -> u64 {
        0
    }
}

/// Returns the octets of some parts.
fn joined(alloc: Global, parts: Parts) -> Result<Vec<u8>, AllocError> {
    let mut octets = Vec::new(alloc);
    for (times, part) in parts {
        for _ in 0..*times {
            octets.extend_from_slice(part)?;
        }
    }
    Ok(octets)
}

/// Returns how many rows hold of a port over these octets, of which each call moves `step`, and whether it wrote the
/// frames.
fn moved(alloc: Global, octets: &[u8], step: usize) -> (usize, bool) {
    let seen = Seen::new(FRAMES);
    let stream = Mover {
        rest: octets,
        step,
        seen: &seen,
    };
    let mut port = SocketPort::new(alloc, 5, LengthField::Four, stream);
    let held = walk(alloc, &mut port, &seen, BOTH_WAYS);
    (held, seen.has_all())
}

#[test]
fn passes_frames_of_each_length_both_ways(rt: HostRuntime) -> Result<(), Fail> {
    let octets = joined(rt.alloc(), FRAMES)?;
    for step in [1usize, 3, 100_000] {
        assert_eq!(&rt;
            moved(rt.alloc(), &octets, step),
            (BOTH_WAYS.len(), true),
            "step {step}"
        );
    }
    Ok(())
}

/// The octets of a stream, and the rows of a port over it.
type Stream = (&'static [u8], &'static [Row]);

/// Checks that sockets that give these octets, one by one and in one piece, have these rows.
fn check_streams(rt: &impl Abort, alloc: Global, table: &[Stream]) {
    for (number, (gives, rows)) in table.iter().enumerate() {
        for (step, waits) in [(1usize, true), (1000, false)] {
            let stream = Manner {
                gives,
                step,
                waits,
                fails_at: 0,
            };
            let case = Case {
                devices: Devices::Four(stream),
                rows,
                ..NOTHING
            };
            check(rt, alloc, number, &case);
        }
    }
}

const TOO_LONG: &[Stream] = &[
    (
        &[0, 1, 0, 0],
        &[Row::Tells(&[261]), Row::Faults(PortFault::Oversize)],
    ),
    (
        &[0, 0, 0, 1, 9, 0xff, 0xff, 0xff, 0xff, 1, 2],
        &[Row::Tells(&[9, 300, 261]), Row::Faults(PortFault::Oversize)],
    ),
];

#[test]
fn refuses_a_length_of_65_536(rt: HostRuntime) {
    check_streams(&rt, rt.alloc(), TOO_LONG);
}

const CUT: &[Stream] = &[
    (&[], &[Row::Tells(&[256]), Row::Ends]),
    (
        &[0],
        &[Row::Tells(&[260]), Row::Faults(PortFault::Truncated)],
    ),
    (
        &[0, 0, 0, 1, 9, 0, 0, 0],
        &[
            Row::Tells(&[9, 300, 260]),
            Row::Faults(PortFault::Truncated),
        ],
    ),
    (
        &[0, 0, 0xff, 0xff, 9],
        &[Row::Tells(&[260]), Row::Faults(PortFault::Truncated)],
    ),
];

#[test]
fn reads_a_stream_that_ends_within_a_length_or_a_frame(rt: HostRuntime) {
    check_streams(&rt, rt.alloc(), CUT);
}

/// The number of frames of a stream that is long enough for memory to be used again.
const MANY: u32 = 3_000;

/// Returns the number of octets of a frame of that stream, 1 to 64, and their value.
fn frame_at(number: u32) -> (u8, u8) {
    (1 + (number % 64) as u8, (number % 251) as u8)
}

/// Returns the octets of that stream, with two octets of length before each frame.
fn many_frames(alloc: Global) -> Result<Vec<u8>, AllocError> {
    let mut octets = Vec::new(alloc);
    for number in 0..MANY {
        let (length, value) = frame_at(number);
        octets.push(0)?;
        octets.push(length)?;
        for _ in 0..length {
            octets.push(value)?;
        }
    }
    Ok(octets)
}

/// Checks whether octets are the frame of a number.
fn is_frame_at(octets: &[u8], number: u32) -> bool {
    let (length, value) = frame_at(number);
    octets.len() == usize::from(length) && octets.iter().all(|octet| *octet == value)
}

/// Returns how many frames in a row a port gives as they are in the stream. Each seventh of them is held, and counts
/// once more if it is still the same after all have come.
fn given(alloc: Global, octets: &[u8]) -> Result<(u32, u32), AllocError> {
    let seen = Seen::new(&[]);
    let stream = Mover {
        rest: octets,
        step: 1000,
        seen: &seen,
    };
    let mut port = SocketPort::new(alloc, 5, LengthField::Two, stream);
    let (mut held, mut right) = (Vec::new(alloc), 0u32);
    for number in 0..MANY {
        let Polled::Frame(frame) = port.poll() else {
            break;
        };
        if is_frame_at(frame.as_slice(), number) {
            right = right.saturating_add(1);
        }
        if number % 7 == 0 {
            held.push(frame)?;
        }
    }
    Ok((right, still_right(held.as_slice())))
}

/// Returns how many held frames are those of the numbers 0, 7, 14 and so on.
fn still_right(held: &[Bytes]) -> u32 {
    let (mut number, mut right) = (0u32, 0u32);
    for frame in held {
        if is_frame_at(frame.as_slice(), number) {
            right = right.saturating_add(1);
        }
        number = number.saturating_add(7);
    }
    right
}

#[test]
fn gives_frames_in_memory_of_earlier_ones(rt: HostRuntime) -> Result<(), Fail> {
    let octets = many_frames(rt.alloc())?;
    assert_eq!(&rt; given(rt.alloc(), &octets)?, (3_000, 429));
    Ok(())
}
