//! The harness that walks a port through the rows of a table.

ghost use Rattle.std.specs.Prelude.{◌≡◌, []};

use super::device::{Arrival, Fake, Seen, peer};
use bytes::Bytes;
use pb_datagram::{DatagramPort, Drops, Encapsulation, Refusals, Sent, Tunnel, Vni};
use pb_port::{Offered, Polled, Port, PortFault, Pumped, Shelf};
use std::alloc::{AllocError, Global};
use std::collections::VecDeque;
use std::process::Abort;

/// A call of a port, or a check of it.
#[derive(Clone, Copy)]
pub(super) enum Row {
    /// The next poll returns a frame.
    Gives(&'static [u8]),
    /// The next poll returns no frame yet.
    Waits,
    /// A frame is offered, with this result.
    Offers(&'static [u8], Offered),
    /// A frame is offered this many times, and taken each time.
    Takes(u16, &'static [u8]),
    /// A frame of this many octets 7 is offered, and taken.
    TakesLong(u16),
    /// A pump has this result.
    Pumps(Pumped),
    /// This many frames wait.
    Unsent(usize),
    /// The device has received this often.
    Receives(u64),
    /// The port is taken out of use, and keeps so many frames.
    Shelves(usize),
}

/// A port, its rows, and its results.
#[derive(Clone, Copy)]
pub(super) struct Case<'a> {
    /// The VXLAN network, or `None` for plain datagrams.
    pub(super) network: Option<u32>,
    /// The number of frames that may wait.
    pub(super) capacity: u16,
    /// The results of the device's receives and sends.
    pub(super) arrivals: &'a [Arrival],
    pub(super) sends: &'a [Sent],
    pub(super) rows: &'a [Row],
    /// The datagrams that are sent.
    pub(super) sent: &'a [&'static [u8]],
    pub(super) drops: Drops,
}

/// The counts of a port that dropped nothing.
pub(super) const NO_DROPS: Drops = Drops {
    refusals: NO_REFUSALS,
    failed_receives: 0,
    receive_error: None,
    failed_sends: 0,
    send_error: None,
};

/// The numbers of a port that refused nothing.
pub(super) const NO_REFUSALS: Refusals = Refusals {
    other_sender: 0,
    short_header: 0,
    unset_flag: 0,
    other_network: 0,
    short_frame: 0,
};

/// A port of plain datagrams, without rows and results.
pub(super) const NOTHING: Case = Case {
    network: None,
    capacity: 4,
    arrivals: &[],
    sends: &[],
    rows: &[],
    sent: &[],
    drops: NO_DROPS,
};

/// The results of a port.
#[derive(Clone, Copy, PartialEq, Debug)]
struct Results {
    /// The number of rows that held.
    rows: usize,
    /// Whether exactly the expected datagrams were sent.
    sent: bool,
    /// The number of refusals that the device noted.
    refused: u64,
    drops: Drops,
}

/// Returns the sum of all numbers of refusals.
fn total(refusals: &Refusals) -> u64 {
    refusals
        .other_sender
        .saturating_add(refusals.short_header)
        .saturating_add(refusals.unset_flag)
        .saturating_add(refusals.other_network)
        .saturating_add(refusals.short_frame)
}

/// Returns the encapsulation with this network, or without one.
fn encapsulation_of(network: Option<u32>) -> Encapsulation {
    match network {
        Some(number) if number < 0x100_0000 => Encapsulation::Vxlan(Vni { number }),
        _ => Encapsulation::Plain,
    }
}

/// Returns the results of a case.
fn came(alloc: Global, case: &Case) -> Result<Results, AllocError> {
    let seen = Seen::new(case.sent);
    let tunnel = Tunnel {
        peer: peer(),
        encapsulation: encapsulation_of(case.network),
    };
    let device = Fake::new(case.arrivals, case.sends, &seen);
    let mut port = DatagramPort::new(alloc, case.capacity.clamp(1, 4_096), tunnel, device)?;
    let rows = walk(alloc, &mut port, &seen, case.rows);
    Ok(Results {
        rows,
        sent: seen.has_all(),
        refused: seen.refused(),
        drops: port.drops(),
    })
}

/// Checks that each of these cases has its results.
pub(super) fn check_all(rt: &impl Abort, alloc: Global, cases: &[Case]) -> Result<(), AllocError> {
    for (number, case) in cases.iter().enumerate() {
        let wanted = Results {
            rows: case.rows.len(),
            sent: true,
            refused: total(&case.drops.refusals),
            drops: case.drops,
        };
        assert_eq!(rt; came(alloc, case)?, wanted, "case {number}");
    }
    Ok(())
}

/// Returns how many rows hold, one after the other, before the first that does not.
fn walk<P: Port>(alloc: Global, port: &mut P, seen: &Seen, rows: &[Row]) -> usize {
    for (place, row) in rows.iter().enumerate() {
        if !holds(alloc, port, seen, *row) {
            return place;
        }
    }
    rows.len()
}

/// Checks whether a row holds.
fn holds<P: Port>(alloc: Global, port: &mut P, seen: &Seen, row: Row) -> bool {
    match row {
        Row::Offers(octets, wanted) => offers(port, octets, wanted),
        Row::Takes(times, octets) => takes(port, times, octets),
        Row::TakesLong(octets) => takes_long(alloc, port, octets),
        Row::Pumps(wanted) => port.pump(0) == wanted,
        Row::Unsent(count) => port.unsent().len() == count,
        Row::Receives(count) => seen.receives() == count,
        Row::Shelves(count) => shelves(alloc, port, count),
        _ => polls(port, row),
    }
}

fn offers<P: Port>(port: &mut P, octets: &'static [u8], wanted: Offered) -> bool {
    let frame = Bytes::from_static(octets);
    frame.len() < 65_536 && port.offer(&frame) == wanted
}

fn takes<P: Port>(port: &mut P, times: u16, octets: &'static [u8]) -> bool {
    for _ in 0..times {
        if !offers(port, octets, Offered::Taken) {
            return false;
        }
    }
    true
}

fn takes_long<P: Port>(alloc: Global, port: &mut P, octets: u16) -> bool {
    let Ok(octets) = vec![in alloc; 7u8; usize::from(octets)] else {
        return false;
    };
    match Bytes::from_vec(octets) {
        Ok(frame) => port.offer(&frame) == Offered::Taken,
        Err(_) => false,
    }
}

/// Checks whether the next poll that finds memory has the result of a row.
fn polls<P: Port>(port: &mut P, row: Row) -> bool {
    match (next(port), row) {
        (Polled::Frame(frame), Row::Gives(octets)) => frame.as_slice() == octets,
        (Polled::Nothing, Row::Waits) => true,
        _ => false,
    }
}

/// Polls again after a failed allocation, which loses no frame.
fn next<P: Port>(port: &mut P) -> Polled {
    match port.poll() {
        Polled::Fault(PortFault::Memory) => port.poll(),
        polled => polled,
    }
}

fn empty_shelf(alloc: Global) -> Shelf
    ensures { (result.unsent.items ≡ []) × (result.sent.items ≡ []) }
{
    Shelf {
        unsent: VecDeque::new(alloc),
        sent: Vec::new(alloc),
    }
}

fn shelves<P: Port>(alloc: Global, port: &mut P, count: usize) -> bool {
    let mut home = empty_shelf(alloc);
    port.shelve(&mut home);
    home.sent.is_empty() && home.unsent.len() == count
}
