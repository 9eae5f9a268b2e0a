//! Runs between ports for datagrams, and their peers.

use super::no_traffic;
use pb_cmd_run::{
    NetworkFault, Opening, RunProgress, RunSettings, SocketFailure, Strictness, run_network,
};
use pb_lan::Place;
use pb_run::{Gate, Go};
use std::alloc::{AllocError, Global};
use std::fs::{File, Files};
use std::net::{Net, SocketAddr, TcpListener, TcpStream, UdpSocket};
use std::sync::Wait;
use std::sync::atomic::{AtomicU64, Ordering};
use std::test::Fail;
use std::thread::Threads;
use std::time::{Clock, Duration};
use std::{io, thread};

/// One bridge with two ports, the keys of whose kinds follow.
const PLAN: &str = r#"
[network]
turns = 1000000000

[[bridge]]
name = "B1"
address = "02-00-00-00-00-01"

[[service]]
name = "red"
vid = 100
"#;

/// The header of the VXLAN network 7.
const SEVEN: &[u8] = &[8, 0, 0, 0, 0, 0, 7, 0];

/// The header of the VXLAN network 8.
const EIGHT: &[u8] = &[8, 0, 0, 0, 0, 0, 8, 0];

/// A header without the I flag.
const UNSET: &[u8] = &[0, 0, 0, 0, 0, 0, 7, 0];

/// The octets of a frame before its last one.
const FRAME: &[u8] = &[255, 255, 255, 255, 255, 255, 2, 0, 0, 0, 1, 1, 8, 0, 65];

/// A gate that ends the run once `end` was called, and keeps what it receives of failed sends.
#[derive(Drop)]
struct Counter {
    over: AtomicU64,
    unsent: AtomicU64,
    error: AtomicU64,
}

impl Counter {
    /// Returns a gate of a run that goes on.
    fn new() -> Counter {
        Counter {
            over: AtomicU64::new(0),
            unsent: AtomicU64::new(0),
            error: AtomicU64::new(0),
        }
    }

    /// Ends the run.
    fn end(&self) {
        self.over.store(1, Ordering::SeqCst);
    }

    /// Returns the number of frames that could not be sent, and the newest error.
    fn unsent(&self) -> (u64, u64) {
        (
            self.unsent.load(Ordering::SeqCst),
            self.error.load(Ordering::SeqCst),
        )
    }
}

impl Gate for Counter {
    fn pass(&self, _place: Place, _turn: u64) -> Go {
        if self.over.load(Ordering::SeqCst) == 0 {
            Go::Go
        } else {
            Go::Stop
        }
    }
}

impl RunProgress for Counter {
    fn open(&self, _opening: Opening) {}

    fn close(&self) {}

    fn socket(&self, port: &str, failure: SocketFailure) {
        if let (SocketFailure::Unsent { frames, error }, "U2") = (failure, port) {
            self.unsent.fetch_add(frames, Ordering::SeqCst);
            let error = u64::from(error.unsigned_abs());
            self.error.store(error, Ordering::SeqCst);
        }
    }
}

/// Returns the address of this host at which no socket is bound.
fn free(net: &impl Net) -> io::Result<SocketAddr> {
    UdpSocket::bind(net, "127.0.0.1:0")?.local_addr()
}

/// Returns a socket whose calls wait 20 milliseconds at most.
fn peer(net: &impl Net) -> io::Result<UdpSocket> {
    let socket = UdpSocket::bind(net, "127.0.0.1:0")?;
    socket.set_read_timeout(Some(Duration::from_millis(20)))?;
    Ok(socket)
}

/// A port for datagrams of the plan file.
#[derive(Clone, Copy)]
struct Port<'a> {
    number: u8,
    local: SocketAddr,
    remote: SocketAddr,
    /// Its other keys.
    keys: &'a str,
}

/// Appends a port to a plan file.
fn put_port(plan: &mut String, port: &Port<'_>) -> Result<(), AllocError> {
    let (number, local, remote, keys) = (port.number, port.local, port.remote, port.keys);
    let _ = write!(
        plan,
        "\n[[port]]\nname = \"U{number}\"\nbridge = \"B1\"\nport = {number}\nservice = \"red\"\n\
         kind = \"udp\"\nlocal = \"{local}\"\nremote = \"{remote}\"\n{keys}\n"
    );
    Ok(())
}

/// Returns a plan file with these two ports.
fn plan_of(alloc: Global, ports: [Port<'_>; 2]) -> Result<String, AllocError> {
    let mut plan = String::from_str(alloc, PLAN)?;
    put_port(&mut plan, &ports[0])?;
    put_port(&mut plan, &ports[1])?;
    Ok(plan)
}

/// Runs the network of a file until the gate ends it. Returns the result, and writes what is reported to `errors`.
fn run_until_told<R>(
    rt: &R,
    alloc: Global,
    file: &str,
    strictness: Strictness,
    gate: &Counter,
    errors: &mut Vec<u8>,
) -> Result<Result<u8, NetworkFault>, AllocError>
where
    R: Files<File = File>
        + Net<Listener = TcpListener, Stream = TcpStream>
        + Threads
        + Wait
        + Clock
        + Sync,
{
    let traffic = no_traffic(alloc)?;
    let settings = RunSettings {
        plan: "plan.toml",
        control: None,
        settles: false,
        linger: 100,
        input: None,
        allows_network: false,
    };
    let mut output = Vec::new(alloc);
    let file = file.as_bytes();
    Ok(run_network(
        rt,
        alloc,
        file,
        strictness,
        &settings,
        &traffic,
        gate,
        &mut output,
        errors,
    ))
}

/// Returns the octets of a datagram with this front and the frame with this last octet.
fn datagram(alloc: Global, front: &[u8], last: u8) -> Result<Vec<u8>, AllocError> {
    let mut octets = Vec::from_slice(alloc, front)?;
    octets.extend_from_slice(FRAME)?;
    octets.extend_from_slice(&[last])?;
    Ok(octets)
}

/// Returns whether so many octets of a buffer are the wanted ones.
fn is_front(buffer: &[u8], count: usize, wanted: &[u8]) -> bool {
    count == wanted.len() && buffer.starts_with(wanted)
}

/// Sends a datagram again and again until a peer has received another one. Returns whether it has.
fn pass(
    from: &UdpSocket,
    sent: &[u8],
    to: SocketAddr,
    peer: &UdpSocket,
    wanted: &[u8],
) -> io::Result<bool> {
    let mut heard = [0u8; 64];
    for _ in 0..500u32 {
        let _ = from.send_to(sent, to)?;
        match peer.recv_from(&mut heard) {
            Ok((count, _)) if is_front(&heard, count, wanted) => return Ok(true),
            _ => {}
        }
    }
    Ok(false)
}

/// The peers of two ports, and the addresses of the ports.
#[derive(Drop)]
struct Peers {
    near: UdpSocket,
    far: UdpSocket,
    other: UdpSocket,
    to_near: SocketAddr,
    to_far: SocketAddr,
}

/// Passes frames both ways, and sends datagrams that carry none. Returns whether the right frames came.
fn talk(alloc: Global, peers: &Peers) -> Result<bool, io::Error> {
    let (near, far, to_near, to_far) = (&peers.near, &peers.far, peers.to_near, peers.to_far);
    let there = datagram(alloc, SEVEN, 1)?;
    let back = datagram(alloc, &[], 2)?;
    let is_right = pass(near, &there, to_near, far, &datagram(alloc, &[], 1)?)?
        && pass(far, &back, to_far, near, &datagram(alloc, SEVEN, 2)?)?;
    let _ = near.send_to(&datagram(alloc, EIGHT, 3)?, to_near)?;
    let _ = near.send_to(&datagram(alloc, EIGHT, 4)?, to_near)?;
    let _ = near.send_to(&datagram(alloc, UNSET, 5)?, to_near)?;
    let _ = near.send_to(&UNSET[..3], to_near)?;
    let short: &[u8] = &FRAME[..13];
    let _ = far.send_to(short, to_far)?;
    let _ = peers.other.send_to(&datagram(alloc, &[], 6)?, to_far)?;
    let last = datagram(alloc, SEVEN, 7)?;
    let again = datagram(alloc, &[], 8)?;
    Ok(
        is_right
            && pass(near, &last, to_near, far, &datagram(alloc, &[], 7)?)?
            && pass(far, &again, to_far, near, &datagram(alloc, SEVEN, 8)?)?,
    )
}

/// What the datagrams of [`talk`] that carry no frame are reported as.
const REPORTED: &[u8] = b"port U1: 1 datagrams dropped: short-header\n\
port U1: 1 datagrams dropped: unset-flag\n\
port U1: 2 datagrams dropped: other-network\n\
port U2: 1 datagrams dropped: other-sender\n\
port U2: 1 datagrams dropped: short-frame\n";

/// Returns whether this is what is reported of the datagrams, and perhaps of frames that were on their way at the end.
fn is_reported(errors: &[u8]) -> bool {
    match errors.strip_prefix(REPORTED) {
        Some(rest) => rest.is_empty() || rest.starts_with(b"frames in transit: "),
        None => false,
    }
}

/// Talks, and ends the run. Returns whether the right frames came.
fn talk_and_end(alloc: Global, peers: &Peers, counter: &Counter) -> bool {
    let heard = talk(alloc, peers);
    counter.end();
    heard.is_ok_and(|is_right| is_right)
}

#[test]
fn frames_pass_in_datagrams_and_other_datagrams_are_reported(rt: HostRuntime) -> Result<(), Fail> {
    let alloc = rt.alloc();
    let peers = Peers {
        near: peer(&rt)?,
        far: peer(&rt)?,
        other: peer(&rt)?,
        to_near: free(&rt)?,
        to_far: free(&rt)?,
    };
    let plan = plan_of(
        alloc,
        [
            Port {
                number: 1,
                local: peers.to_near,
                remote: peers.near.local_addr()?,
                keys: "vni = 7",
            },
            Port {
                number: 2,
                local: peers.to_far,
                remote: peers.far.local_addr()?,
                keys: "encap = \"none\"",
            },
        ],
    )?;
    let counter = Counter::new();
    let mut errors = Vec::new(alloc);
    let network = || {
        let (file, lenient) = (plan.as_str(), Strictness::Lenient);
        run_until_told(&rt, alloc, file, lenient, &counter, &mut errors)
    };
    let (is_right, told) = thread::join(&rt, || talk_and_end(alloc, &peers, &counter), network);
    assert_eq!(rt; (told?, is_right), (Ok(0), true));
    assert!(rt; is_reported(&errors));
    assert_eq!(rt; counter.unsent(), (0, 0));
    Ok(())
}

/// Sends a frame until the gate has received that another one could not be sent, and ends the run.
fn knock(alloc: Global, peers: &Peers, counter: &Counter) -> io::Result<()> {
    let sent = datagram(alloc, SEVEN, 1)?;
    for _ in 0..500u32 {
        let _ = peers.near.send_to(&sent, peers.to_near)?;
        let _ = peers.near.recv_from(&mut [0u8; 64]);
        if counter.unsent() != (0, 0) {
            break;
        }
    }
    counter.end();
    Ok(())
}

/// Returns whether the first line is about frames that the port U2 could not send, with this reason.
fn is_of_unsent(errors: &[u8]) -> bool {
    let line = match errors.iter().position(|octet| *octet == b'\n') {
        Some(end) => &errors[..end],
        None => errors,
    };
    line.starts_with(b"port U2: ")
        && line.ends_with(b" frames not sent: Permission denied (os error 13)")
}

#[test]
fn frames_that_the_system_does_not_take_are_reported(rt: HostRuntime) -> Result<(), Fail> {
    let alloc = rt.alloc();
    let peers = Peers {
        near: peer(&rt)?,
        far: peer(&rt)?,
        other: peer(&rt)?,
        to_near: free(&rt)?,
        to_far: free(&rt)?,
    };
    // A socket may not send to the broadcast address of the loopback network.
    let broadcast = SocketAddr::new(
        std::net::IpAddr::V4(std::net::Ipv4Addr::new(127, 255, 255, 255)),
        9,
    );
    let plan = plan_of(
        alloc,
        [
            Port {
                number: 1,
                local: peers.to_near,
                remote: peers.near.local_addr()?,
                keys: "vni = 7",
            },
            Port {
                number: 2,
                local: peers.to_far,
                remote: broadcast,
                keys: "vni = 7",
            },
        ],
    )?;
    let counter = Counter::new();
    let mut errors = Vec::new(alloc);
    let network = || {
        let (file, strict) = (plan.as_str(), Strictness::Strict);
        run_until_told(&rt, alloc, file, strict, &counter, &mut errors)
    };
    let knocked = || knock(alloc, &peers, &counter).is_ok();
    let (is_right, told) = thread::join(&rt, knocked, network);
    assert_eq!(rt; (told?, is_right), (Ok(4), true));
    assert_eq!(rt; counter.unsent().1, 13);
    assert!(rt; is_of_unsent(&errors));
    Ok(())
}

#[test]
fn an_address_that_other_hosts_reach_is_refused(rt: HostRuntime) -> Result<(), Fail> {
    let alloc = rt.alloc();
    let peer = free(&rt)?;
    let everywhere = SocketAddr::new(
        std::net::IpAddr::V4(std::net::Ipv4Addr::new(0, 0, 0, 0)),
        peer.port(),
    );
    let plan = plan_of(
        alloc,
        [
            Port {
                number: 1,
                local: peer,
                remote: peer,
                keys: "vni = 7",
            },
            Port {
                number: 2,
                local: everywhere,
                remote: peer,
                keys: "vni = 7",
            },
        ],
    )?;
    let mut errors = Vec::new(alloc);
    let (file, lenient) = (plan.as_str(), Strictness::Lenient);
    let told = run_until_told(&rt, alloc, file, lenient, &Counter::new(), &mut errors)?;
    assert_eq!(rt; told, Err(NetworkFault::Path));
    let port = peer.port();
    let wanted = format!(in alloc;
        "error: port U2: bind 0.0.0.0:{port}: not a loopback address: --allow-network allows it\n"
    )?;
    assert_eq!(rt; errors.as_slice(), wanted.as_bytes());
    Ok(())
}
