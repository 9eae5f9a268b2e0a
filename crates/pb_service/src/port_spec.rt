//! The kinds of customer ports.

ghost use Rattle.std.specs.Prelude.{◌≡◌};
ghost use Rattle.std.specs.List.{list_any};
ghost use Rattle.pb_service.specs.Lossless.{is_socket, is_lossless};

use bytes::Bytes;
use pb_frame::{Seq, Text};
use std::net::SocketAddr;

/// The time stamp of a record in a capture file.
#[derive(Clone, Copy, PartialEq, Eq, Debug)]
pub enum Stamp {
    /// The number of ticks of the clock of the port's worker.
    Ticks,
    /// The time of day.
    Time,
}

/// The pace at which the frames of a capture enter.
#[derive(Clone, Copy, PartialEq, Eq, Debug)]
pub enum Pace {
    /// As fast as the port takes them.
    AtOnce,
    /// At the distances of the times of their records, divided by this speed, 1 to 1,000.
    Times(u16),
}

/// The octets of the length before each frame of a stream.
#[derive(Clone, Copy, PartialEq, Eq, Debug)]
pub enum LengthField {
    /// Two octets.
    Two,
    /// Four octets.
    Four,
}

/// A kind of customer port, with its frames, paths or addresses.
#[derive(PartialEq, Debug, Drop)]
pub enum PortSpec {
    /// A script in memory: the frames that enter, in order.
    Memory(Seq<Bytes>),
    /// Two capture files, by their paths.
    Capture {
        /// The path of the file whose frames enter.
        read: Text,
        /// The pace at which they enter.
        pace: Pace,
        /// The path of the file for the frames that leave.
        write: Text,
        /// The time stamp that the records of that file have.
        stamp: Stamp,
    },
    /// A capture file for the frames that leave, by its path. No frame enters.
    Record {
        /// The path of the file for the frames that leave.
        write: Text,
        /// The time stamp that the records of that file have.
        stamp: Stamp,
    },
    /// A capture file whose frames enter, by its path. The frames that leave are not written anywhere.
    Replay {
        /// The path of the file whose frames enter.
        read: Text,
        /// The pace at which they enter.
        pace: Pace,
    },
    /// A stream socket, by its path.
    Socket {
        /// The path of the socket.
        path: Text,
        /// Whether the port makes the socket and waits for a peer. Otherwise it connects to one.
        listens: bool,
        /// Whether the port stays when its peer leaves, and takes the next one. Otherwise it has one peer.
        stays: bool,
        /// The octets of the length before each frame.
        framing: LengthField,
    },
    /// UDP datagrams, each with one frame, between two addresses of one family. The port of neither is 0.
    Udp {
        /// The address at which datagrams arrive.
        local: SocketAddr,
        /// The address to which datagrams are sent, and the only one from which they are taken.
        remote: SocketAddr,
        /// The network in the VXLAN header before each frame, 0 to 16,777,215. `None` if a datagram is a frame alone.
        network: Option<u32>,
    },
}

/// Returns whether the port is a stream socket or sends datagrams.
fn is_socket(port: &PortSpec) -> bool
    ensures { result ≡ is_socket port.now }
{
    matches!(port, PortSpec::Socket { .. } | PortSpec::Udp { .. })
}

/// Returns whether one of the ports is a socket.
fn has_socket(ports: &[PortSpec]) -> bool
    ensures { result ≡ list_any is_socket ports.now }
{
    ports.iter().any(|port| is_socket(port))
}

/// Returns whether a run loses no frame because a queue is full. If `told` leaves it open, it loses none
/// exactly if no port is a socket.
pub(crate) fn is_lossless(told: Option<bool>, ports: &[PortSpec]) -> bool
    ensures { result ≡ is_lossless told ports.now }
{
    match told {
        Some(is_lossless) => is_lossless,
        None => !has_socket(ports),
    }
}
