//! Ports over sockets.

ghost use Rattle.std.specs.Prelude.{◌≡◌, ◌<◌, ◌≤◌, [], None, IfOk};
ghost use Rattle.pb_cmd_run.specs.AnyPorts.{of_file};
ghost use Rattle.pb_cmd_run.specs.Scripted.{script_at};
ghost use Rattle.pb_cmd_run.specs.Unsent.{waiting_at};

use crate::any_port::AnyPort;
use crate::customer_ports::CustomerPort;
use crate::datagram_drops::DatagramDrops;
use crate::datagram_socket::DatagramSocket;
use crate::door::{GateDoor, make_door};
use crate::pacing::GateClock;
use crate::peer::Peer;
use crate::watch::{Post, Watches};
use mio::net::UdpSocket;
use pb_datagram::{DatagramPort, Encapsulation, Tunnel, Vni};
use pb_port::{LengthField, Over, Port, SocketPort, StayingPort};
use std::alloc::{AllocError, Global};
use std::net::SocketAddr;
use std::sync::Arc;

/// What the gate of a run attends to: how the peers of ports that stay come and go, the watches over sockets, the
/// clocks of ports whose frames enter by the times of their records, and what ports for datagrams drop.
#[derive(Drop)]
pub(crate) struct Attendance {
    pub doors: Vec<GateDoor>,
    pub watches: Watches,
    pub clocks: Vec<GateClock>,
    pub drops: Arc<DatagramDrops, Global>,
}

impl Attendance {
    /// Returns what a gate attends to before the ports, of which there are to be this many, are opened.
    ///
    /// # Errors
    ///
    /// `AllocError` if an allocation failed.
    pub(crate) fn new(alloc: Global, count: usize) -> Result<Attendance, AllocError> {
        Ok(Attendance {
            doors: Vec::new(alloc),
            watches: Watches::new(alloc),
            clocks: Vec::new(alloc),
            drops: Arc::new(alloc, DatagramDrops::new(alloc, count)?)?,
        })
    }
}

/// Returns the octets of length that a plan file asks for.
fn framing_of(framing: pb_service::LengthField) -> LengthField {
    match framing {
        pb_service::LengthField::Two => LengthField::Two,
        pb_service::LengthField::Four => LengthField::Four,
    }
}

/// Returns the port of this number over a socket, which is put under watch. `framing` gives the octets of the length
/// before each frame. If the port stays, its peers come and go. If they do, or the port waits for its peer, the gate's
/// side of its door is appended to `doors`.
///
/// # Errors
///
/// `AllocError` if an allocation failed.
pub(crate) fn socket_port<F: Port>(
    alloc: Global,
    capacity: u16,
    number: u8,
    stream: Peer,
    framing: pb_service::LengthField,
    stays: bool,
    post: Post,
    doors: &mut Vec<GateDoor>,
) -> Result<CustomerPort<F>, AllocError>
    requires { (0 < capacity) × (capacity ≤ 4096) }
    ensures script { IfOk result (λ port. script_at F.script port ≡ None) }
    ensures fresh { IfOk result (λ port. waiting_at F.waiting port ≡ []) }
    ensures unread { IfOk result (λ port. of_file F.unread port ≡ None) }
    ensures output { IfOk result (λ port. of_file F.output port ≡ None) }
{
    let (mut peer, framing) = (stream, framing_of(framing));
    peer.watch(post);
    if !stays {
        if peer.is_awaited() {
            let (inside, outside) = make_door(alloc, number, None)?;
            doors.push(outside)?;
            peer.report_at(inside);
        }
        let port = SocketPort::new(alloc, capacity, framing, Over::new(peer));
        return Ok(AnyPort::Socket(port));
    }
    let (inside, outside) = make_door(alloc, number, peer.take_path())?;
    doors.push(outside)?;
    let port = StayingPort::new(alloc, capacity, framing, peer.staying(inside));
    Ok(AnyPort::Staying(port))
}

/// Returns the other end of the datagrams of a port, whose VXLAN network, if it has one, is 0 to 16,777,215.
fn tunnel_of(peer: SocketAddr, network: Option<u32>) -> Tunnel {
    let encapsulation = match network {
        Some(number) if number < 0x100_0000 => Encapsulation::Vxlan(Vni { number }),
        _ => Encapsulation::Plain,
    };
    Tunnel {
        peer,
        encapsulation,
    }
}

/// Returns the port of this number over a socket for datagrams, which is put under watch. They go to the address
/// `remote` and come from there, in the VXLAN network of this number if there is one. What the port drops is counted in
/// `drops`.
///
/// # Errors
///
/// `AllocError` if an allocation failed.
pub(crate) fn datagram_port<F: Port>(
    alloc: Global,
    capacity: u16,
    number: u8,
    socket: UdpSocket,
    remote: SocketAddr,
    network: Option<u32>,
    post: Post,
    drops: &Arc<DatagramDrops, Global>,
) -> Result<CustomerPort<F>, AllocError>
    requires { (0 < capacity) × (capacity ≤ 4096) }
    ensures script { IfOk result (λ port. script_at F.script port ≡ None) }
    ensures fresh { IfOk result (λ port. waiting_at F.waiting port ≡ []) }
    ensures unread { IfOk result (λ port. of_file F.unread port ≡ None) }
    ensures output { IfOk result (λ port. of_file F.output port ≡ None) }
{
    let mut socket = socket;
    post.register(&mut socket);
    let device = DatagramSocket {
        socket,
        number,
        drops: Arc::try_clone(drops)?,
        failures: 0,
    };
    let port = DatagramPort::new(alloc, capacity, tunnel_of(remote, network), device)?;
    Ok(AnyPort::Datagrams(port))
}
