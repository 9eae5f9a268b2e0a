//! Devices that receive and send datagrams without waiting.
ghost use Rattle.std.specs.Prelude.{◌≡◌, ℕ, List, length, Option, None};
ghost use Rattle.pb_datagram.specs.Devices.{Datagram, FitsIn, ReceivedBy, SentBy, CountsReceive, CountsSend};

use crate::refusal::Refusal;
use std::net::SocketAddr;
use std::{fmt, io};

/// An error of the system.
#[derive(Clone, Copy, Debug, PartialEq, Eq)]
pub struct SystemError {
    /// The number of the error, as `errno` of POSIX.1-2017 has it.
    pub number: i32,
}

impl fmt::Display for SystemError {
    fn fmt<W: fmt::Write>(&self, f: &mut fmt::Formatter<W>) -> fmt::Result {
        let error = io::Error::from_raw_os_error(self.number);
        write!(f, "{error}")
    }
}

/// The result of one receive.
#[derive(Clone, Copy, Debug, PartialEq, Eq)]
pub enum Received {
    /// A datagram: the number of its octets, and the address of its sender.
    Moved(usize, SocketAddr),
    /// No datagram yet: the caller repeats the call later.
    Wait,
    /// A call that failed. The next call may return a datagram.
    Failed(SystemError),
}

/// The result of one send.
#[derive(Clone, Copy, Debug, PartialEq, Eq)]
pub enum Sent {
    /// The system took the whole datagram.
    Moved,
    /// The system takes no datagram yet: the caller repeats the call later.
    Wait,
    /// The system does not take this datagram, for example because it is too long (EMSGSIZE).
    Failed(SystemError),
}

/// A device that receives and sends datagrams, in calls that do not wait.
pub trait DatagramDevice {
    /// The datagrams that were received, each with the address of its sender, if they are known.
    ghost received: { Self → Option (List Datagram) } = { λ _. None };

    /// The datagrams that were sent, each with the address to which it was sent, if they are known.
    ghost sent: { Self → Option (List Datagram) } = { λ _. None };

    /// The number of calls that failed.
    ghost failed: { Self → ℕ };

    /// Receives the next datagram to the front of the buffer. What the buffer has no space for is lost.
    fn receive(&mut self, buf: &mut [u8]) -> Received
        ensures within { FitsIn result (length buf.new) }
        ensures received { ReceivedBy result buf.new (received self.old) (received self.new) }
        ensures sent { sent self.new ≡ sent self.old }
        ensures counts { CountsReceive result (failed self.old) (failed self.new) };

    /// Sends the whole buffer as one datagram to the address, or nothing.
    fn send(&mut self, datagram: &[u8], to: SocketAddr) -> Sent
        ensures sent { SentBy result to datagram.now (sent self.old) (sent self.new) }
        ensures received { received self.new ≡ received self.old }
        ensures counts { CountsSend result (failed self.old) (failed self.new) };

    /// Takes note that the datagram which was received last is refused.
    fn note_refusal(&mut self, reason: Refusal)
        ensures kept { (received self.new ≡ received self.old) × (sent self.new ≡ sent self.old)
            × (failed self.new ≡ failed self.old) };
}
