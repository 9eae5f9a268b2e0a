//! The other end of a port's datagrams.
ghost use Rattle.std.specs.Prelude.{◌≡◌, ◌↔◌, ◌≤◌, length, drop, IsTrue, MatchResult};
ghost use Rattle.pb_datagram.specs.Datagrams.{Carries, CarriesNone, IsFrom, IsOfPeer, IsRefused};

use crate::encapsulation::Encapsulation;
use crate::refusal::Refusal;
use crate::vxlan::{HEADER, Vni, read_header};
use std::net::SocketAddr;

/// The number of octets of the header of an Ethernet frame: two addresses, and a type or a length.
const ETHERNET_HEADER: usize = 14;

/// The other end of a port's datagrams, and the way in which they carry frames.
#[derive(Clone, Copy, Debug, PartialEq, Eq)]
pub struct Tunnel {
    /// The address to which datagrams are sent, and from which they are accepted: plain ones from its port alone, VXLAN
    /// ones from any port.
    pub peer: SocketAddr,
    /// The way in which datagrams carry frames, in both directions.
    pub encapsulation: Encapsulation,
}

/// Returns the index at which the frame of a VXLAN datagram begins.
///
/// # Errors
///
/// `ShortHeader` or `UnsetFlag` as in [`read_header`], otherwise `OtherNetwork` if the header names another network.
fn find_in_vxlan(vni: Vni, datagram: &[u8]) -> Result<usize, Refusal>
    ensures { MatchResult result
        (λ start. (start ≤ length datagram.now)
        × Carries (Encapsulation.Vxlan vni) datagram.now (drop start datagram.now))
        (λ reason. CarriesNone (Encapsulation.Vxlan vni) datagram.now reason) }
{
    let found = read_header(datagram)?;
    if found.number != vni.number {
        return Err(Refusal::OtherNetwork);
    }
    Ok(HEADER)
}

/// Returns whether the peer sends datagrams from an address. The port of a VXLAN datagram is a hash of its frame
/// (RFC 7348 section 5), and says nothing.
fn is_from(encapsulation: Encapsulation, peer: SocketAddr, sender: SocketAddr) -> bool
    ensures { IsTrue result ↔ IsFrom encapsulation peer sender }
{
    match encapsulation {
        Encapsulation::Vxlan(_) => sender.ip() == peer.ip(),
        Encapsulation::Plain => sender == peer,
    }
}

impl Tunnel {
    /// Returns the index at which the frame of a datagram begins that was received from `sender`.
    ///
    /// # Errors
    ///
    /// `OtherSender` if the peer does not send from that address. Otherwise, of a VXLAN datagram, `ShortHeader`,
    /// `UnsetFlag` or `OtherNetwork`, the first that applies (RFC 7348 section 5), and of a plain one `ShortFrame` if
    /// it has fewer than 14 octets.
    pub fn accept(&self, sender: SocketAddr, datagram: &[u8]) -> Result<usize, Refusal>
        ensures { MatchResult result
            (λ start. (start ≤ length datagram.now) × IsOfPeer self.now sender
            × Carries self.now.encapsulation datagram.now (drop start datagram.now))
            (λ reason. IsRefused self.now sender datagram.now reason) }
    {
        if !is_from(self.encapsulation, self.peer, sender) {
            return Err(Refusal::OtherSender);
        }
        match self.encapsulation {
            Encapsulation::Vxlan(vni) => find_in_vxlan(vni, datagram),
            Encapsulation::Plain if datagram.len() < ETHERNET_HEADER => Err(Refusal::ShortFrame),
            Encapsulation::Plain => Ok(0),
        }
    }
}
