//! Ports over memory.

use super::rows::{Row, held};
use bytes::Bytes;
use pb_port::{MemoryPort, Offered, Pumped};
use std::alloc::{AllocError, Global};
use std::collections::VecDeque;
use std::process::Abort;
use std::test::Fail;

/// Checks that all rows hold of a port without a script.
pub(super) fn check(rt: &impl Abort, alloc: Global, capacity: u16, rows: &[Row]) {
    let capacity = capacity.clamp(1, 4_096);
    let port = MemoryPort::new(alloc, capacity, VecDeque::new(alloc));
    assert_eq!(rt; held(alloc, port, rows), rows.len());
}

const SCRIPT: &[Row] = &[Row::Tells(&[1, 2, 300, 3, 300, 256]), Row::Ends];

/// Returns the frames 0102 and 03.
fn script(alloc: Global) -> Result<VecDeque<Bytes>, AllocError> {
    let (first, second) = (Bytes::from_static(&[1, 2]), Bytes::from_static(&[3]));
    Ok(VecDeque::from(vec![in alloc; first, second]?))
}

#[test]
fn gives_its_script(rt: HostRuntime) -> Result<(), Fail> {
    let port = MemoryPort::new(rt.alloc(), 1, script(rt.alloc())?);
    assert_eq!(rt; held(rt.alloc(), port, SCRIPT), SCRIPT.len());
    Ok(())
}

const FULL: &[Row] = &[
    Row::Offers(&[1], Offered::Taken),
    Row::Offers(&[1], Offered::Taken),
    Row::Offers(&[1], Offered::Full),
    Row::Unsent(2),
];

#[test]
fn is_full_at_its_capacity(rt: HostRuntime) {
    check(&rt, rt.alloc(), 2, FULL);
}

const MANY: &[Row] = &[
    Row::Takes(70, &[1]),
    Row::Pumps(0, Pumped::Wrote(64)),
    Row::Pumps(0, Pumped::Wrote(6)),
    Row::Pumps(0, Pumped::Nothing),
];

#[test]
fn moves_64_frames_a_pump(rt: HostRuntime) {
    check(&rt, rt.alloc(), 100, MANY);
}
