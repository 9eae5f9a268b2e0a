//! A device whose results are lists.

ghost use Rattle.std.specs.Prelude.{◌≡◌, ℕ, length};
ghost use Rattle.pb_datagram.specs.Devices.{FitsIn};

use pb_datagram::{DatagramDevice, Received, Refusal, Sent, SystemError};
use std::cell::Cell;
use std::net::{IpAddr, Ipv4Addr, SocketAddr};

/// Too many octets for a datagram (EMSGSIZE).
pub(super) const TOO_LONG: SystemError = SystemError { number: 90 };

/// The memory of the system is used up (ENOBUFS).
pub(super) const NO_BUFFERS: SystemError = SystemError { number: 105 };

/// The result of one receive.
#[derive(Clone, Copy)]
pub(super) enum Arrival {
    /// A datagram from the port's peer.
    FromPeer(&'static [u8]),
    /// A datagram from another port of the peer's host.
    FromOtherPort(&'static [u8]),
    /// A datagram from another host.
    FromOtherHost(&'static [u8]),
    /// No datagram yet.
    Waits,
    /// A receive that fails.
    Fails(SystemError),
}

/// Returns the address of a host, 127.0.0.`host`, and a port.
fn address(host: u8, port: u16) -> SocketAddr {
    SocketAddr::new(IpAddr::V4(Ipv4Addr::new(127, 0, 0, host)), port)
}

/// Returns the address of the port's peer.
pub(super) fn peer() -> SocketAddr {
    address(1, 4_789)
}

/// The actions of a device so far.
#[derive(Clone, Copy)]
struct Sight {
    /// The number of datagrams that were sent.
    sent: usize,
    /// Whether they were the expected ones, to the peer.
    is_right: bool,
    /// The number of refusals that were noted.
    refused: u64,
    /// The number of receives.
    receives: u64,
}

/// The record of a device's actions.
#[derive(Drop)]
pub(super) struct Seen<'a> {
    /// The datagrams that have to be sent.
    wanted: &'a [&'static [u8]],
    sight: Cell<Sight>,
}

impl<'a> Seen<'a> {
    /// Returns an empty record.
    pub(super) fn new(wanted: &'a [&'static [u8]]) -> Seen<'a> {
        let sight = Cell::new(Sight {
            sent: 0,
            is_right: true,
            refused: 0,
            receives: 0,
        });
        Seen { wanted, sight }
    }

    /// Checks whether exactly the expected datagrams were sent.
    pub(super) fn has_all(&self) -> bool {
        let sight = self.sight.get();
        sight.is_right && sight.sent == self.wanted.len()
    }

    /// Returns how many refusals were noted.
    pub(super) fn refused(&self) -> u64 {
        self.sight.get().refused
    }

    /// Returns how often the device received.
    pub(super) fn receives(&self) -> u64 {
        self.sight.get().receives
    }

    fn note_sent(&self, datagram: &[u8], to: SocketAddr) {
        let sight = self.sight.get();
        let is_wanted = match self.wanted.get(sight.sent) {
            Some(octets) => *octets == datagram,
            None => false,
        };
        self.sight.set(Sight {
            sent: sight.sent.saturating_add(1),
            is_right: sight.is_right && is_wanted && to == peer(),
            ..sight
        });
    }

    fn note_refused(&self) {
        let sight = self.sight.get();
        self.sight.set(Sight {
            refused: sight.refused.saturating_add(1),
            ..sight
        });
    }

    fn note_receive(&self) {
        let sight = self.sight.get();
        self.sight.set(Sight {
            receives: sight.receives.saturating_add(1),
            ..sight
        });
    }
}

/// A device, whose actions are recorded. It waits after the last result of its lists.
#[derive(Drop)]
pub(super) struct Fake<'a> {
    arrivals: &'a [Arrival],
    sends: &'a [Sent],
    failures: u64,
    seen: &'a Seen<'a>,
}

impl<'a> Fake<'a> {
    pub(super) fn new(arrivals: &'a [Arrival], sends: &'a [Sent], seen: &'a Seen<'a>) -> Fake<'a> {
        Fake {
            arrivals,
            sends,
            failures: 0,
            seen,
        }
    }
}

/// Copies a datagram to the front of a buffer, and returns it.
fn moved(buf: &mut [u8], octets: &[u8], sender: SocketAddr) -> Received
    ensures within { FitsIn result (length buf.new) }
    ensures moved { (n : ℕ) × (result ≡ Received.Moved n sender) }
{
    let len = octets.len().min(buf.len());
    buf[..len].copy_from_slice(&octets[..len]);
    Received::Moved(len, sender)
}

impl DatagramDevice for Fake<'_> {
    ghost failed = { λ d. d.failures };

    fn receive(&mut self, buf: &mut [u8]) -> Received {
        self.seen.note_receive();
        let Some((arrival, rest)) = self.arrivals.split_first() else {
            return Received::Wait;
        };
        self.arrivals = rest;
        match arrival {
            Arrival::FromPeer(octets) => moved(buf, octets, peer()),
            Arrival::FromOtherPort(octets) => moved(buf, octets, address(1, 4_790)),
            Arrival::FromOtherHost(octets) => moved(buf, octets, address(2, 4_789)),
            Arrival::Fails(error) if self.failures < u64::MAX => {
                self.failures += 1;
                Received::Failed(*error)
            }
            _ => Received::Wait,
        }
    }

    fn send(&mut self, datagram: &[u8], to: SocketAddr) -> Sent {
        let Some((result, rest)) = self.sends.split_first() else {
            return Sent::Wait;
        };
        self.sends = rest;
        match result {
            Sent::Moved => {
                self.seen.note_sent(datagram, to);
                Sent::Moved
            }
            Sent::Failed(error) if self.failures < u64::MAX => {
                self.failures += 1;
                Sent::Failed(*error)
            }
            _ => Sent::Wait,
        }
    }

    fn note_refusal(&mut self, _reason: Refusal) {
        self.seen.note_refused();
    }
}
