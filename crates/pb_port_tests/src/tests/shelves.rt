//! The frames that ports keep when they are taken out of use.

use super::device::Hollow;
use super::memory_ports::check;
use super::rows::{Row, held};
use pb_port::{
    CapturePort, LengthField, MemoryPort, Offered, Port, Pumped, SocketPort, StayingPort,
};
use std::alloc::{AllocError, Global};
use std::collections::VecDeque;

const BOTH_WAIT: &[Row] = &[
    Row::Offers(&[0xa], Offered::Taken),
    Row::Offers(&[0xb], Offered::Taken),
    Row::Shelves {
        sent: &[],
        unsent: &[&[0xa], &[0xb]],
    },
    Row::Offers(&[0xa], Offered::Gone),
];

#[test]
fn shelves_frames_in_order(rt: HostRuntime) {
    check(&rt, rt.alloc(), 2, BOTH_WAIT);
}

const ONE_WAITS: &[Row] = &[
    Row::Offers(&[0xa], Offered::Taken),
    Row::Pumps(0, Pumped::Wrote(1)),
    Row::Offers(&[0xb], Offered::Taken),
    Row::Shelves {
        sent: &[&[0xa]],
        unsent: &[&[0xb]],
    },
];

#[test]
fn shelves_what_was_sent(rt: HostRuntime) {
    check(&rt, rt.alloc(), 2, ONE_WAITS);
}

const BOXED: &[Row] = &[
    Row::Offers(&[1, 2, 3], Offered::Taken),
    Row::Shelves {
        sent: &[],
        unsent: &[&[1, 2, 3]],
    },
    Row::Offers(&[1, 2, 3], Offered::Gone),
    Row::Pumps(0, Pumped::Nothing),
    Row::Unsent(0),
];

/// Any port.
type Any = Box<dyn Port + Send>;

// A port of each kind, in which two frames may wait.

fn memory(alloc: Global) -> Result<Any, AllocError> {
    let port: Any = Box::new(alloc, MemoryPort::new(alloc, 2, VecDeque::new(alloc)))?;
    Ok(port)
}

fn capture(alloc: Global) -> Result<Any, AllocError> {
    let port: Any = Box::new(alloc, CapturePort::new(alloc, 2, Hollow, Hollow))?;
    Ok(port)
}

fn socket(alloc: Global) -> Result<Any, AllocError> {
    let port: Any = Box::new(alloc, SocketPort::new(alloc, 2, LengthField::Two, Hollow))?;
    Ok(port)
}

fn staying(alloc: Global) -> Result<Any, AllocError> {
    let port: Any = Box::new(alloc, StayingPort::new(alloc, 2, LengthField::Four, Hollow))?;
    Ok(port)
}

/// Returns how many rows hold of a port.
fn held_boxed(alloc: Global, port: Result<Any, AllocError>) -> usize {
    match port {
        Ok(port) => held(alloc, port, BOXED),
        Err(_) => 0,
    }
}

#[test]
fn shelves_boxed_ports(rt: HostRuntime) {
    let alloc = rt.alloc();
    let memory = held_boxed(alloc, memory(alloc));
    let capture = held_boxed(alloc, capture(alloc));
    let socket = held_boxed(alloc, socket(alloc));
    let staying = held_boxed(alloc, staying(alloc));
    let all = BOXED.len();
    assert_eq!(rt; (memory, capture, socket, staying), (all, all, all, all));
}
