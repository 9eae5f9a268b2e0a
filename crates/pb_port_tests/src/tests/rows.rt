//! The harness that walks a port through the rows of a table.

ghost use Rattle.std.specs.Prelude.{◌≡◌, []};

use super::device::Seen;
use bytes::Bytes;
use pb_port::{Offered, Polled, Port, PortFault, Pumped, Shelf};
use std::alloc::Global;
use std::collections::VecDeque;

/// A call of a port, or a check of it.
#[derive(Clone, Copy)]
pub(super) enum Row {
    /// A frame is offered, with this result.
    Offers(&'static [u8], Offered),
    /// A frame is offered this many times, and taken each time.
    Takes(u16, &'static [u8]),
    /// A frame of this many octets 7 is offered, and taken.
    TakesLong(u16),
    /// A pump at a time has this result.
    Pumps(u32, Pumped),
    /// This many pumps at time 0, with any result.
    PumpsOn(u8),
    /// Of a hundred pumps at a time, the first with which frames left reports this many.
    PumpsUntil(u32, u32),
    /// The next poll gives a frame.
    Gives(&'static [u8]),
    /// The next frame, after at most 2,000 polls, has this many octets 7.
    GivesLong(u16),
    /// The next poll gives no frame yet.
    Waits,
    /// The next poll reports the end.
    Ends,
    /// The next poll returns this fault.
    Faults(PortFault),
    /// The stream from here on: the octets of its frames, each frame followed by 300, then 256 for the end, or 256 plus
    /// the fault's number.
    Tells(&'static [u16]),
    /// This many frames wait.
    Unsent(usize),
    /// The port is taken out of use, and keeps these frames.
    Shelves {
        sent: &'static [&'static [u8]],
        unsent: &'static [&'static [u8]],
    },
    /// Its devices have been called this often.
    Calls(u64),
}

/// Returns how many rows hold, one after the other, before the first that does not.
pub(super) fn walk<P: Port>(alloc: Global, port: &mut P, seen: &Seen, rows: &[Row]) -> usize {
    for (place, row) in rows.iter().enumerate() {
        if !holds(alloc, port, seen, *row) {
            return place;
        }
    }
    rows.len()
}

/// Returns how many rows hold of a port whose devices are not checked.
pub(super) fn held<P: Port>(alloc: Global, port: P, rows: &[Row]) -> usize {
    let (seen, mut port) = (Seen::new(&[]), port);
    walk(alloc, &mut port, &seen, rows)
}

/// Checks whether a row holds.
fn holds<P: Port>(alloc: Global, port: &mut P, seen: &Seen, row: Row) -> bool {
    match row {
        Row::Offers(octets, wanted) => offers(port, octets, wanted),
        Row::Takes(times, octets) => takes(port, times, octets),
        Row::TakesLong(octets) => takes_long(alloc, port, octets),
        Row::GivesLong(octets) => gives_long(port, octets),
        Row::Tells(wanted) => tells(port, wanted),
        Row::Unsent(count) => port.unsent().len() == count,
        Row::Shelves { sent, unsent } => shelves(alloc, port, sent, unsent),
        Row::Pumps(now, wanted) => port.pump(now) == wanted,
        Row::PumpsOn(times) => pumps_on(port, times),
        Row::PumpsUntil(now, wanted) => pumps_until(port, now) == wanted,
        Row::Calls(count) => seen.calls() == count,
        _ => polls(port, row),
    }
}

fn offers<P: Port>(port: &mut P, octets: &'static [u8], wanted: Offered) -> bool {
    let frame = Bytes::from_static(octets);
    frame.len() < 65_536 && port.offer(&frame) == wanted
}

fn takes<P: Port>(port: &mut P, times: u16, octets: &'static [u8]) -> bool {
    for _ in 0..times {
        if !offers(port, octets, Offered::Taken) {
            return false;
        }
    }
    true
}

fn takes_long<P: Port>(alloc: Global, port: &mut P, octets: u16) -> bool {
    let Ok(octets) = vec![in alloc; 7u8; usize::from(octets)] else {
        return false;
    };
    match Bytes::from_vec(octets) {
        Ok(frame) => port.offer(&frame) == Offered::Taken,
        Err(_) => false,
    }
}

fn pumps_on<P: Port>(port: &mut P, times: u8) -> bool {
    for _ in 0..times {
        let _ = port.pump(0);
    }
    true
}

/// Returns how many frames left with the first pump that wrote any, of a hundred pumps at most.
fn pumps_until<P: Port>(port: &mut P, now: u32) -> u32 {
    for _ in 0..100u8 {
        if let Pumped::Wrote(count) = port.pump(now) {
            return count;
        }
    }
    0
}

/// Checks whether the next poll has the result of a row.
fn polls<P: Port>(port: &mut P, row: Row) -> bool {
    match (port.poll(), row) {
        (Polled::Frame(frame), Row::Gives(octets)) => frame.as_slice() == octets,
        (Polled::Nothing, Row::Waits) => true,
        (Polled::End, Row::Ends) => true,
        (Polled::Fault(told), Row::Faults(wanted)) => told == wanted,
        _ => false,
    }
}

/// Checks whether the next frame has so many octets 7.
fn gives_long<P: Port>(port: &mut P, octets: u16) -> bool {
    for _ in 0..2000u16 {
        match port.poll() {
            Polled::Frame(frame) => {
                let frame = frame.as_slice();
                return frame.len() == usize::from(octets) && frame.iter().all(|o| *o == 7);
            }
            Polled::Nothing => {}
            _ => return false,
        }
    }
    false
}

/// Checks whether a port's stream is this one. A failed allocation is ignored, because it loses no octet.
fn tells<P: Port>(port: &mut P, told: &[u16]) -> bool {
    let mut at = 0usize;
    for _ in 0..2000u16 {
        match port.poll() {
            Polled::Frame(frame) => {
                if !is_told(told, at, frame.as_slice()) {
                    return false;
                }
                at = at.saturating_add(frame.len()).saturating_add(1);
            }
            Polled::Nothing | Polled::Fault(PortFault::Memory) => {}
            Polled::End => return is_last(told, at, 256),
            Polled::Fault(fault) => return is_last(told, at, 256 + u16::from(fault.number())),
        }
    }
    false
}

/// Checks whether a frame is at an index of the stream.
fn is_told(told: &[u16], at: usize, octets: &[u8]) -> bool {
    for (place, octet) in octets.iter().enumerate() {
        if told.get(at.saturating_add(place)).copied() != Some(u16::from(*octet)) {
            return false;
        }
    }
    told.get(at.saturating_add(octets.len())).copied() == Some(300)
}

/// Checks whether an ending is at an index of the stream, with nothing after it.
fn is_last(told: &[u16], at: usize, ending: u16) -> bool {
    told.get(at).copied() == Some(ending) && told.len() == at.saturating_add(1)
}

fn empty_shelf(alloc: Global) -> Shelf
    ensures { (result.unsent.items ≡ []) × (result.sent.items ≡ []) }
{
    Shelf {
        unsent: VecDeque::new(alloc),
        sent: Vec::new(alloc),
    }
}

fn shelves<P: Port>(alloc: Global, port: &mut P, sent: &[&[u8]], unsent: &[&[u8]]) -> bool {
    let mut home = empty_shelf(alloc);
    port.shelve(&mut home);
    were_sent(&home.sent, sent) && are_unsent(&home.unsent, unsent)
}

/// Checks whether these frames were sent.
fn were_sent(frames: &[Bytes], wanted: &[&[u8]]) -> bool {
    for (place, octets) in wanted.iter().enumerate() {
        match frames.get(place) {
            Some(frame) if frame.as_slice() == *octets => {}
            _ => return false,
        }
    }
    frames.len() == wanted.len()
}

/// Checks whether these frames wait.
fn are_unsent(frames: &VecDeque<Bytes>, wanted: &[&[u8]]) -> bool {
    for (place, octets) in wanted.iter().enumerate() {
        match frames.get(place) {
            Some(frame) if frame.as_slice() == *octets => {}
            _ => return false,
        }
    }
    frames.len() == wanted.len()
}
