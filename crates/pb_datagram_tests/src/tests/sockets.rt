//! Ports over sockets of the system.

use bytes::Bytes;
use mio::net::UdpSocket;
use pb_datagram::{
    DatagramDevice, DatagramPort, Encapsulation, Received, Refusal, Sent, SystemError, Tunnel, Vni,
};
use pb_port::{Offered, Polled, Port, Pumped};
use std::io::{Error, ErrorKind};
use std::net::{IpAddr, Ipv4Addr, SocketAddr};
use std::process::Abort;
use std::test::Fail;

/// A device over a socket of the system.
#[derive(Drop)]
struct Socket {
    socket: UdpSocket,
    failures: u64,
}

/// Checks whether a call that ended with this error is to be repeated later.
fn may_wait(error: &Error) -> bool {
    matches!(error.kind(), ErrorKind::Interrupted | ErrorKind::WouldBlock)
}

/// Returns the error of the system.
fn error_of(error: &Error) -> SystemError {
    SystemError {
        number: error.raw_os_error().unwrap_or(0),
    }
}

impl DatagramDevice for Socket {
    ghost failed = { λ d. d.failures };

    fn receive(&mut self, buf: &mut [u8]) -> Received {
        if self.failures == u64::MAX {
            return Received::Wait;
        }
        match self.socket.recv_from(buf) {
            Ok((len, sender)) => Received::Moved(len, sender),
            Err(error) if may_wait(&error) => Received::Wait,
            Err(error) => {
                self.failures += 1;
                Received::Failed(error_of(&error))
            }
        }
    }

    fn send(&mut self, datagram: &[u8], to: SocketAddr) -> Sent {
        if self.failures == u64::MAX {
            return Sent::Wait;
        }
        match self.socket.send_to(datagram, to) {
            Ok(_) => Sent::Moved,
            Err(error) if may_wait(&error) => Sent::Wait,
            Err(error) => {
                self.failures += 1;
                Sent::Failed(error_of(&error))
            }
        }
    }

    fn note_refusal(&mut self, _reason: Refusal) {}
}

/// Returns the address of this host at which the system chooses a port.
fn any_port() -> SocketAddr {
    SocketAddr::new(IpAddr::V4(Ipv4Addr::new(127, 0, 0, 1)), 0)
}

/// A frame with an Ethernet header.
const FRAME: &[u8] = &[1, 2, 3, 4, 5, 6, 7, 8, 9, 10, 11, 12, 0x88, 0xb5, 7];

/// Checks that a frame which one port takes is the next that the other one returns.
fn check_passes<P: Port>(rt: &impl Abort, from: &mut P, to: &mut P) {
    let frame = Bytes::from_static(FRAME);
    assert!(rt; frame.len() < 65_536);
    assert_eq!(rt; from.offer(&frame), Offered::Taken);
    assert_eq!(rt; from.pump(0), Pumped::Wrote(1));
    match to.poll() {
        Polled::Frame(came) => assert_eq!(rt; came.as_slice(), FRAME),
        _ => assert!(rt; false, "no frame came"),
    }
    assert!(rt; matches!(to.poll(), Polled::Nothing));
}

#[test]
fn passes_frames_both_ways(rt: HostRuntime) -> Result<(), Fail> {
    let vxlan = Encapsulation::Vxlan(Vni { number: 7 });
    let cases = [
        (Encapsulation::Plain, Refusal::OtherSender),
        (vxlan, Refusal::UnsetFlag),
    ];
    for (encapsulation, reason) in cases {
        let near = UdpSocket::bind(&rt, any_port())?;
        let far = UdpSocket::bind(&rt, any_port())?;
        let other = UdpSocket::bind(&rt, any_port())?;
        let (here, there) = (near.local_addr()?, far.local_addr()?);
        let to_far = Tunnel {
            peer: there,
            encapsulation,
        };
        let to_near = Tunnel {
            peer: here,
            encapsulation,
        };
        let (near, far) = (
            Socket {
                socket: near,
                failures: 0,
            },
            Socket {
                socket: far,
                failures: 0,
            },
        );
        let mut near = DatagramPort::new(rt.alloc(), 4, to_far, near)?;
        let mut far = DatagramPort::new(rt.alloc(), 4, to_near, far)?;
        let _ = other.send_to(FRAME, there)?;
        check_passes(&rt, &mut near, &mut far);
        check_passes(&rt, &mut far, &mut near);
        assert_eq!(rt; far.drops().refusals.count(reason), 1);
        assert_eq!(rt; near.drops().failed_sends, 0);
    }
    Ok(())
}

#[test]
fn drops_what_is_too_long_for_the_system(rt: HostRuntime) -> Result<(), Fail> {
    let near = UdpSocket::bind(&rt, any_port())?;
    let peer = near.local_addr()?;
    let tunnel = Tunnel {
        peer,
        encapsulation: Encapsulation::Plain,
    };
    let mut port = DatagramPort::new(
        rt.alloc(),
        4,
        tunnel,
        Socket {
            socket: near,
            failures: 0,
        },
    )?;
    let frame = Bytes::from_vec(vec![in rt.alloc(); 7u8; 65_535]?)?;
    assert!(rt; frame.len() < 65_536);
    assert_eq!(rt; port.offer(&frame), Offered::Taken);
    assert_eq!(rt; port.pump(0), Pumped::Wrote(1));
    assert_eq!(rt; port.drops().send_error, Some(SystemError { number: 90 }));
    assert_eq!(rt; port.drops().failed_sends, 1);
    Ok(())
}
