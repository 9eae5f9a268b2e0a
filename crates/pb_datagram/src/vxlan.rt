//! The header of VXLAN.
ghost use Rattle.std.specs.Prelude.{◌≡◌, ◌<◌, ◌^◌, MatchResult};
ghost use Rattle.pb_datagram.specs.Vxlan.{header_of, HasHeader, HasNoHeader};

use crate::refusal::Refusal;
use byteorder::{BigEndian, ByteOrder};

/// The number of octets of a header.
pub(crate) const HEADER: usize = 8;

/// The I flag: the header names a network.
const NETWORK_FLAG: u8 = 0x08;

/// The identifier of a VXLAN network, a number of 24 bits (RFC 7348 section 5).
#[derive(Clone, Copy, Debug, PartialEq, Eq)]
pub struct Vni {
    /// The number, 0 to 16,777,215.
    pub number: u32,
    pub ghost in_range: { number < 2 ^ 24 },
}

/// Returns the header of a network: the I flag, the identifier, and zero in all reserved bits (RFC 7348 section 5).
pub fn write_header(vni: Vni) -> [u8; HEADER]
    ensures { result ≡ header_of vni.number }
{
    let number = vni.number.to_be_bytes();
    [NETWORK_FLAG, 0, 0, 0, number[1], number[2], number[3], 0]
}

/// Returns the network of the header at the front of a datagram. The reserved bits are ignored (RFC 7348 section 5).
///
/// # Errors
///
/// `ShortHeader` if the datagram has fewer than 8 octets, otherwise `UnsetFlag` if the I flag is not set.
pub fn read_header(datagram: &[u8]) -> Result<Vni, Refusal>
    ensures { MatchResult result (λ vni. HasHeader vni.number datagram.now)
        (λ reason. HasNoHeader reason datagram.now) }
{
    if datagram.len() < HEADER {
        return Err(Refusal::ShortHeader);
    }
    if datagram[0] & NETWORK_FLAG == 0 {
        return Err(Refusal::UnsetFlag);
    }
    let number = BigEndian::read_u24(&datagram[4..]);
    Ok(Vni { number })
}
