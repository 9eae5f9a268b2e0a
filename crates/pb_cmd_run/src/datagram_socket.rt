//! The sockets of ports for datagrams.

use crate::datagram_drops::DatagramDrops;
use crate::door::may_wait;
use mio::net::UdpSocket;
use pb_datagram::{DatagramDevice, Received, Refusal, Sent, SystemError};
use std::alloc::Global;
use std::io::Error;
use std::net::SocketAddr;
use std::sync::Arc;

/// The socket of a port for datagrams. What the port drops is counted for the gate of the run too.
#[derive(Drop)]
pub(crate) struct DatagramSocket {
    pub socket: UdpSocket,
    /// The number of the port in the plan, from 1.
    pub number: u8,
    pub drops: Arc<DatagramDrops, Global>,
    /// The number of calls that failed.
    pub failures: u64,
}

/// Returns the error of a call that failed.
fn error_of(error: &Error) -> SystemError {
    SystemError {
        number: error.raw_os_error().unwrap_or(0),
    }
}

impl DatagramDevice for DatagramSocket {
    ghost failed = { λ d. d.failures };

    fn receive(&mut self, buf: &mut [u8]) -> Received {
        if self.failures == u64::MAX {
            return Received::Wait;
        }
        match self.socket.recv_from(buf) {
            Ok((len, sender)) => Received::Moved(len, sender),
            Err(error) if may_wait(&error) => Received::Wait,
            Err(error) => {
                let error = error_of(&error);
                self.failures += 1;
                self.drops.note_receive(self.number, error);
                Received::Failed(error)
            }
        }
    }

    fn send(&mut self, datagram: &[u8], to: SocketAddr) -> Sent {
        if self.failures == u64::MAX {
            return Sent::Wait;
        }
        match self.socket.send_to(datagram, to) {
            Ok(_) => Sent::Moved,
            Err(error) if may_wait(&error) => Sent::Wait,
            Err(error) => {
                let error = error_of(&error);
                self.failures += 1;
                self.drops.note_send(self.number, error);
                Sent::Failed(error)
            }
        }
    }

    fn note_refusal(&mut self, reason: Refusal) {
        self.drops.note_refusal(self.number, reason);
    }
}
