//! Ports over devices, and their results.

use super::device::{Fake, Hollow, Manner, Parts, SINK, Seen};
use super::rows::{Row, walk};
use pb_port::{CapturePort, LengthField, SocketPort};
use std::alloc::Global;
use std::process::Abort;

/// The devices of a port.
#[derive(Clone, Copy)]
pub(super) enum Devices {
    /// A socket whose lengths have two octets, with one device for both directions.
    Socket(Manner),
    /// The same with lengths of four octets.
    Four(Manner),
    /// A capture with this device to read. The device to write does nothing.
    Reader(Manner),
    /// A capture with this device to write. The device to read does nothing.
    Writer(Manner),
}

/// A port, its rows, and its results.
#[derive(Clone, Copy)]
pub(super) struct Case<'a> {
    pub(super) devices: Devices,
    /// The number of frames that may wait.
    pub(super) capacity: u16,
    pub(super) rows: &'a [Row],
    /// The octets that are written.
    pub(super) wrote: Parts<'a>,
    /// The number of calls of its devices that failed.
    pub(super) failures: u64,
    /// The number of records of a capture that were skipped.
    pub(super) skipped: u64,
}

/// A port over a sink, without rows and results.
pub(super) const NOTHING: Case = Case {
    devices: Devices::Socket(SINK),
    capacity: 4,
    rows: &[],
    wrote: &[],
    failures: 0,
    skipped: 0,
};

/// The results of a port.
#[derive(Clone, Copy, PartialEq, Debug)]
struct Came {
    /// The number of rows that held.
    rows: usize,
    /// Whether exactly the expected octets were written.
    wrote: bool,
    failures: u64,
    skipped: u64,
}

/// Returns the expected results of a case.
fn wanted(case: &Case) -> Came {
    Came {
        rows: case.rows.len(),
        wrote: true,
        failures: case.failures,
        skipped: case.skipped,
    }
}

fn socket(alloc: Global, case: &Case, framing: LengthField, stream: Manner) -> Came {
    let seen = Seen::new(case.wrote);
    let mut port = SocketPort::new(
        alloc,
        case.capacity.clamp(1, 4_096),
        framing,
        Fake::new(stream, &seen),
    );
    Came {
        rows: walk(alloc, &mut port, &seen, case.rows),
        wrote: seen.has_all(),
        failures: port.failures(),
        skipped: 0,
    }
}

fn reader(alloc: Global, case: &Case, reader: Manner) -> Came {
    let (seen, capacity) = (Seen::new(case.wrote), case.capacity.clamp(1, 4_096));
    let mut port = CapturePort::new(alloc, capacity, Fake::new(reader, &seen), Hollow);
    Came {
        rows: walk(alloc, &mut port, &seen, case.rows),
        wrote: seen.has_all(),
        failures: port.failures(),
        skipped: port.skipped(),
    }
}

fn writer(alloc: Global, case: &Case, writer: Manner) -> Came {
    let (seen, capacity) = (Seen::new(case.wrote), case.capacity.clamp(1, 4_096));
    let mut port = CapturePort::new(alloc, capacity, Hollow, Fake::new(writer, &seen));
    Came {
        rows: walk(alloc, &mut port, &seen, case.rows),
        wrote: seen.has_all(),
        failures: port.failures(),
        skipped: port.skipped(),
    }
}

/// Checks that a case has its results.
pub(super) fn check(rt: &impl Abort, alloc: Global, number: usize, case: &Case) {
    let came = match case.devices {
        Devices::Socket(stream) => socket(alloc, case, LengthField::Two, stream),
        Devices::Four(stream) => socket(alloc, case, LengthField::Four, stream),
        Devices::Reader(manner) => reader(alloc, case, manner),
        Devices::Writer(manner) => writer(alloc, case, manner),
    };
    assert_eq!(rt; came, wanted(case), "case {number}");
}

/// Checks that each of these cases has its results.
pub(super) fn check_all(rt: &impl Abort, alloc: Global, cases: &[Case]) {
    for (number, case) in cases.iter().enumerate() {
        check(rt, alloc, number, case);
    }
}
