//! Ports of any kind.

ghost use Rattle.pb_cmd_run.specs.AnyPorts.{of_any};

use bytes::Bytes;
use pb_port::{Offered, Polled, Port, Pumped, Shelf};
use std::collections::VecDeque;

/// A port of one of five kinds. Each call goes to that port.
#[derive(Drop)]
pub(crate) enum AnyPort<M, C, S, T, U> {
    /// A script and a LAN in memory.
    Memory(M),
    /// Capture files, two or one.
    Capture(C),
    /// A stream socket with one peer.
    Socket(S),
    /// A stream socket whose peers come and go.
    Staying(T),
    /// Datagrams of one peer.
    Datagrams(U),
}

impl<M: Port, C: Port, S: Port, T: Port, U: Port> Port for AnyPort<M, C, S, T, U> {
    ghost script = { of_any M.script C.script S.script T.script U.script };

    ghost unread = { of_any M.unread C.unread S.unread T.unread U.unread };

    ghost output = { of_any M.output C.output S.output T.output U.output };

    ghost given = { of_any M.given C.given S.given T.given U.given };

    ghost tally = { of_any M.tally C.tally S.tally T.tally U.tally };

    ghost keeps_sent = { of_any M.keeps_sent C.keeps_sent S.keeps_sent T.keeps_sent U.keeps_sent };

    ghost waiting = { of_any M.waiting C.waiting S.waiting T.waiting U.waiting };

    ghost capacity = { of_any M.capacity C.capacity S.capacity T.capacity U.capacity };

    ghost ended = { of_any M.ended C.ended S.ended T.ended U.ended };

    ghost is_shelved = { of_any M.is_shelved C.is_shelved S.is_shelved T.is_shelved U.is_shelved };

    ghost is_failed = { of_any M.is_failed C.is_failed S.is_failed T.is_failed U.is_failed };

    ghost failed = { of_any M.failed C.failed S.failed T.failed U.failed };

    fn poll(&mut self) -> Polled {
        match self {
            AnyPort::Memory(port) => port.poll(),
            AnyPort::Capture(port) => port.poll(),
            AnyPort::Socket(port) => port.poll(),
            AnyPort::Staying(port) => port.poll(),
            AnyPort::Datagrams(port) => port.poll(),
        }
    }

    fn offer(&mut self, f: &Bytes) -> Offered {
        match self {
            AnyPort::Memory(port) => port.offer(f),
            AnyPort::Capture(port) => port.offer(f),
            AnyPort::Socket(port) => port.offer(f),
            AnyPort::Staying(port) => port.offer(f),
            AnyPort::Datagrams(port) => port.offer(f),
        }
    }

    fn pump(&mut self, now: u32) -> Pumped {
        match self {
            AnyPort::Memory(port) => port.pump(now),
            AnyPort::Capture(port) => port.pump(now),
            AnyPort::Socket(port) => port.pump(now),
            AnyPort::Staying(port) => port.pump(now),
            AnyPort::Datagrams(port) => port.pump(now),
        }
    }

    fn unsent(&self) -> &VecDeque<Bytes> {
        match self {
            AnyPort::Memory(port) => port.unsent(),
            AnyPort::Capture(port) => port.unsent(),
            AnyPort::Socket(port) => port.unsent(),
            AnyPort::Staying(port) => port.unsent(),
            AnyPort::Datagrams(port) => port.unsent(),
        }
    }

    fn shelve(&mut self, home: &mut Shelf) {
        match self {
            AnyPort::Memory(port) => port.shelve(home),
            AnyPort::Capture(port) => port.shelve(home),
            AnyPort::Socket(port) => port.shelve(home),
            AnyPort::Staying(port) => port.shelve(home),
            AnyPort::Datagrams(port) => port.shelve(home),
        }
    }
}
