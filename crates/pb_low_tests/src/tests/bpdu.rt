//! BPDUs in frames, as two bridges on one link send them.

use pb_bpdu::{Bpdu, BpduFault, read, what_is_written_is_read, write};
use pb_frame::{Mac, Memory};
use std::alloc::{AllocError, Global};
use std::process::Abort;
use std::test::Fail;

/// The first BPDU of bridge 32768/02-00-00-00-00-01 on its port 1.
const PROPOSAL: [u8; 53] = [
    0x01, 0x80, 0xc2, 0x00, 0x00, 0x08, 0x02, 0x00, 0x00, 0x00, 0x00, 0x01, 0x00, 0x27, 0x42, 0x42,
    0x03, 0x00, 0x00, 0x02, 0x02, 0x0e, 0x80, 0x00, 0x02, 0x00, 0x00, 0x00, 0x00, 0x01, 0x00, 0x00,
    0x00, 0x00, 0x80, 0x00, 0x02, 0x00, 0x00, 0x00, 0x00, 0x01, 0x80, 0x01, 0x00, 0x00, 0x14, 0x00,
    0x02, 0x00, 0x0f, 0x00, 0x00,
];

/// The reply of bridge 32768/02-00-00-00-00-02 at the other end.
const ANSWER: [u8; 53] = [
    0x01, 0x80, 0xc2, 0x00, 0x00, 0x08, 0x02, 0x00, 0x00, 0x00, 0x00, 0x02, 0x00, 0x27, 0x42, 0x42,
    0x03, 0x00, 0x00, 0x02, 0x02, 0x79, 0x80, 0x00, 0x02, 0x00, 0x00, 0x00, 0x00, 0x01, 0x00, 0x00,
    0x4e, 0x20, 0x80, 0x00, 0x02, 0x00, 0x00, 0x00, 0x00, 0x02, 0x80, 0x01, 0x01, 0x00, 0x14, 0x00,
    0x02, 0x00, 0x0f, 0x00, 0x00,
];

fn proposal() -> Bpdu {
    Bpdu {
        change: false,
        proposal: true,
        role: 3,
        learning: false,
        forwarding: false,
        agreement: false,
        root: 0x8000_0200_0000_0001,
        cost: 0,
        bridge: 0x8000_0200_0000_0001,
        port: 0x8001,
        age: 0,
        max_age: 20 * 256,
        hello: 2 * 256,
        delay: 15 * 256,
    }
}

fn answer() -> Bpdu {
    Bpdu {
        change: true,
        proposal: false,
        role: 2,
        learning: true,
        forwarding: true,
        agreement: true,
        root: 0x8000_0200_0000_0001,
        cost: 20_000,
        bridge: 0x8000_0200_0000_0002,
        port: 0x8001,
        age: 256,
        max_age: 20 * 256,
        hello: 2 * 256,
        delay: 15 * 256,
    }
}

/// Checks whether the bridge with an address that ends in this octet writes a BPDU as these octets.
fn is_written(alloc: Global, last: u8, bpdu: &Bpdu, wanted: &[u8]) -> Result<bool, Memory> {
    let frame = write(alloc, Mac([2, 0, 0, 0, 0, last]), bpdu)?;
    Ok(frame.as_slice() == wanted)
}

#[test]
fn writes_what_is_sent(rt: HostRuntime) -> Result<(), Fail> {
    assert!(rt; is_written(rt.alloc(), 1, &proposal(), &PROPOSAL)?);
    assert!(rt; is_written(rt.alloc(), 2, &answer(), &ANSWER)?);
    Ok(())
}

/// Checks whether a frame is read as this BPDU.
fn is_read(frame: &[u8], wanted: &Bpdu) -> bool {
    match read(frame) {
        Ok(bpdu) => bpdu == *wanted,
        Err(_) => false,
    }
}

/// Checks whether a frame is refused for this fault, or read as the proposal if there is none.
fn is_told(frame: &[u8], wanted: Option<BpduFault>) -> bool {
    match read(frame) {
        Ok(bpdu) => wanted.is_none() && bpdu == proposal(),
        Err(fault) => wanted == Some(fault),
    }
}

#[test]
fn reads_what_is_sent(rt: HostRuntime) {
    assert!(rt; is_read(&PROPOSAL, &proposal()));
    assert!(rt; is_read(&ANSWER, &answer()));
}

/// Returns the proposal with another octet at an index, and with octets after it.
fn changed(alloc: Global, place: usize, octet: u8, behind: &[u8]) -> Result<Vec<u8>, AllocError> {
    let mut frame = Vec::from_slice(alloc, &PROPOSAL)?;
    if place < frame.len() {
        frame[place] = octet;
    }
    frame.extend_from_slice(behind)?;
    Ok(frame)
}

/// An index, an octet there, the octets after the frame, and the fault.
type Row = (usize, u8, &'static [u8], Option<BpduFault>);

/// Checks whether the fault is that of the proposal with another octet at an index, and with octets after it.
fn holds(alloc: Global, row: &Row) -> Result<bool, AllocError> {
    let (place, octet, behind, wanted) = *row;
    let frame = changed(alloc, place, octet, behind)?;
    Ok(is_told(&frame, wanted))
}

/// Checks that each row holds.
fn all_hold(rt: &impl Abort, alloc: Global, rows: &[Row]) -> Result<(), Fail> {
    for (number, row) in rows.iter().enumerate() {
        assert!(rt; holds(alloc, row)?, "row {number}");
    }
    Ok(())
}

#[test]
fn ignores_what_means_nothing(rt: HostRuntime) -> Result<(), Fail> {
    const ROWS: &[Row] = &[
        (19, 3, &[], None),
        (19, 255, &[], None),
        (21, 0x8e, &[], None),
        (52, 7, &[], None),
        (0, 2, &[], None),
        (5, 0, &[], None),
        (0, 1, &[7; 7], None),
    ];
    all_hold(&rt, rt.alloc(), ROWS)
}

#[test]
fn names_the_first_fault(rt: HostRuntime) -> Result<(), Fail> {
    const ROWS: &[Row] = &[
        (13, 0x26, &[], Some(BpduFault::Short)),
        (13, 0x28, &[], Some(BpduFault::Llc)),
        (14, 0x43, &[], Some(BpduFault::Llc)),
        (15, 0x43, &[], Some(BpduFault::Llc)),
        (16, 0x13, &[], Some(BpduFault::Llc)),
        (17, 1, &[], Some(BpduFault::Protocol)),
        (18, 1, &[], Some(BpduFault::Protocol)),
        (20, 0, &[], Some(BpduFault::Kind)),
        (20, 0x80, &[], Some(BpduFault::Kind)),
        (19, 1, &[], Some(BpduFault::Old)),
        (19, 0, &[], Some(BpduFault::Old)),
    ];
    all_hold(&rt, rt.alloc(), ROWS)
}

#[test]
fn a_frame_without_link_control_is_told(rt: HostRuntime) {
    assert!(rt; is_told(&[], Some(BpduFault::Llc)));
    assert!(rt; is_told(&PROPOSAL[..16], Some(BpduFault::Llc)));
}

/// Returns the fault of the proposal with this length, if all octets are there.
fn told_by(length: u8) -> Option<BpduFault> {
    match length {
        0..=2 => Some(BpduFault::Llc),
        3..=38 => Some(BpduFault::Short),
        _ => None,
    }
}

/// Checks whether the proposal has the right fault with this length, and is cut if an octet is missing.
fn is_read_by(alloc: Global, length: u8) -> Result<bool, AllocError> {
    let frame = changed(alloc, 13, length, &[0; 21])?;
    let end = 14 + length as usize;
    if frame.len() < end {
        return Ok(false);
    }
    let is_cut_told = length == 0 || is_told(&frame[..end - 1], Some(BpduFault::Llc));
    Ok(is_cut_told && is_told(&frame[..end], told_by(length)))
}

#[test]
fn reads_by_the_length(rt: HostRuntime) -> Result<(), Fail> {
    for length in 0u8..=60 {
        assert!(rt; is_read_by(rt.alloc(), length)?, "{length}");
    }
    Ok(())
}

#[test]
fn law_of_frames_stands() {
    what_is_written_is_read();
}
