//! The order in which sockets for datagrams are bound, and the addresses that ports may bind.

ghost use Rattle.std.specs.Prelude.{◌≡◌, None};

use bytes::Bytes;
use pb_cmd_run::{Deed, ExposedPort, OpenFault, Opened, Openings, Verb, open_all};
use pb_frame::{Memory, Seq, Text};
use pb_service::{Pace, PortSpec, Stamp};
use std::alloc::{AllocError, Global};
use std::io;
use std::io::{Error, ErrorKind};
use std::net::{IpAddr, Ipv4Addr, Ipv6Addr, SocketAddr};
use std::test::Fail;

/// The port of the addresses that can't be bound.
const TAKEN: u16 = 9;

/// An opener that keeps its operations in short.
#[derive(Drop)]
struct Desk {
    deeds: Vec<(char, u16)>,
}

impl Desk {
    /// Keeps an operation. Files go by the number 0.
    fn note(&mut self, letter: char, number: u16) -> io::Result<()> {
        self.deeds.push((letter, number))?;
        Ok(())
    }
}

impl Openings for Desk {
    type Input = ();

    type Output = ();

    type Stream = ();

    type Datagrams = u16;

    ghost done = { λ _. None };

    ghost named = { λ _. None };

    fn file_at(&self, _alloc: Global, _path: &str) -> Result<Option<Text>, Memory> {
        Ok(None)
    }

    fn open_read(&mut self, _path: &str) -> io::Result<()> {
        self.note('r', 0)
    }

    fn connect(&mut self, _path: &str, _stays: bool) -> io::Result<()> {
        self.note('c', 0)
    }

    fn listen(&mut self, _path: &str, _stays: bool) -> io::Result<()> {
        self.note('l', 0)
    }

    fn bind(&mut self, local: SocketAddr) -> io::Result<u16> {
        if local.port() == TAKEN {
            return Err(Error::from(ErrorKind::AddrInUse));
        }
        self.note('b', local.port())?;
        Ok(local.port())
    }

    fn open_write(&mut self, _path: &str) -> io::Result<()> {
        self.note('w', 0)
    }

    fn empty(&mut self, _output: &(), _path: &str) -> io::Result<()> {
        self.note('e', 0)
    }

    fn forget(&mut self, _output: (), _path: &str) {}
}

/// Returns an address of this host.
fn here(port: u16) -> SocketAddr {
    SocketAddr::new(IpAddr::V4(Ipv4Addr::new(127, 0, 0, 1)), port)
}

/// Returns a port for datagrams.
fn udp(local: SocketAddr) -> PortSpec {
    PortSpec::Udp {
        local,
        remote: here(7),
        network: Some(5),
    }
}

/// Returns a port that reads a capture and writes another.
fn capture(alloc: Global) -> Result<PortSpec, AllocError> {
    Ok(PortSpec::Capture {
        read: Text::from_string(String::from_str(alloc, "r")?),
        pace: Pace::AtOnce,
        write: Text::from_string(String::from_str(alloc, "w")?),
        stamp: Stamp::Ticks,
    })
}

/// Returns two ports for datagrams, and a port over captures between them.
fn specs_of(alloc: Global, last: SocketAddr) -> Result<Vec<PortSpec>, AllocError> {
    let mut specs = Vec::new(alloc);
    specs.push(udp(here(5)))?;
    specs.push(capture(alloc)?)?;
    specs.push(PortSpec::Memory(Seq::from_vec(Vec::<Bytes>::new(alloc))))?;
    specs.push(udp(last))?;
    Ok(specs)
}

#[test]
fn addresses_are_bound_in_the_order_of_the_plan(rt: HostRuntime) -> Result<(), Fail> {
    let alloc = rt.alloc();
    let mut desk = Desk {
        deeds: Vec::new(alloc),
    };
    let ipv6 = SocketAddr::new(IpAddr::V6(Ipv6Addr::LOCALHOST), 6);
    let specs = specs_of(alloc, ipv6)?;
    match open_all(alloc, &mut desk, "plan", specs, false) {
        Ok(ports) => {
            let is_right = |port: Option<&Opened<(), (), (), u16>>, number: u16| match port {
                Some(
                    Opened::Udp {
                        socket,
                        remote,
                        network,
                    },
                ) => *socket == number && *remote == here(7) && *network == Some(5),
                _ => false,
            };
            assert!(rt; is_right(ports.first(), 5) && is_right(ports.get(3), 6));
        }
        Err(_) => assert!(rt; false, "not opened"),
    }
    let wanted = [('b', 5), ('r', 0), ('b', 6), ('w', 0), ('e', 0)];
    assert_eq!(rt; desk.deeds.as_slice(), wanted.as_slice());
    Ok(())
}

#[test]
fn no_file_is_emptied_if_an_address_cannot_be_bound(rt: HostRuntime) -> Result<(), Fail> {
    let alloc = rt.alloc();
    let mut desk = Desk {
        deeds: Vec::new(alloc),
    };
    let specs = specs_of(alloc, here(TAKEN))?;
    let outcome = open_all(alloc, &mut desk, "plan", specs, true);
    match &outcome {
        Err(OpenFault::Unopened(fault)) => {
            let told = (fault.place, fault.verb, fault.path.as_str());
            assert_eq!(rt; told, (3, Verb::Bind, "127.0.0.1:9"));
        }
        _ => assert!(rt; false, "no such fault"),
    }
    assert_eq!(rt; desk.deeds.as_slice(), [('b', 5), ('r', 0)].as_slice());
    Ok(())
}

/// Returns whether an address may be bound, if the network is allowed or is not. If it may not, nothing is opened.
fn may_bind(alloc: Global, local: SocketAddr, allows: bool) -> Result<bool, AllocError> {
    let mut desk = Desk {
        deeds: Vec::new(alloc),
    };
    let specs = specs_of(alloc, local)?;
    match open_all(alloc, &mut desk, "plan", specs, allows) {
        Ok(ports) => Ok(ports.len() == 4),
        Err(OpenFault::Exposed(port)) => {
            let is_right = port == ExposedPort { place: 3, local } && desk.deeds.is_empty();
            Ok(!is_right)
        }
        Err(_) => Ok(true),
    }
}

#[test]
fn other_hosts_reach_no_port_unless_the_network_is_allowed(rt: HostRuntime) -> Result<(), Fail> {
    let alloc = rt.alloc();
    let inside = [
        IpAddr::V4(Ipv4Addr::new(127, 0, 0, 1)),
        IpAddr::V4(Ipv4Addr::new(127, 255, 0, 9)),
        IpAddr::V6(Ipv6Addr::LOCALHOST),
    ];
    let outside = [
        IpAddr::V4(Ipv4Addr::new(0, 0, 0, 0)),
        IpAddr::V4(Ipv4Addr::new(128, 0, 0, 1)),
        IpAddr::V4(Ipv4Addr::new(10, 0, 0, 1)),
        IpAddr::V6(Ipv6Addr::UNSPECIFIED),
        IpAddr::V6(Ipv6Addr::new(0xfe80, 0, 0, 0, 0, 0, 0, 1)),
        IpAddr::V6(Ipv6Addr::new(0, 0, 0, 0, 0, 0, 0, 2)),
    ];
    for ip in inside {
        assert!(rt; may_bind(alloc, SocketAddr::new(ip, 6), false)?);
    }
    for ip in outside {
        let local = SocketAddr::new(ip, 6);
        assert_eq!(rt;
            (
                may_bind(alloc, local, false)?,
                may_bind(alloc, local, true)?
            ),
            (false, true)
        );
    }
    Ok(())
}
