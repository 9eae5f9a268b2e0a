//! The reasons for which a received datagram is refused.

use thiserror::Error;

/// A reason for which a received datagram is refused: the first that applies, in this order.
#[derive(Clone, Copy, Debug, PartialEq, Eq, Error)]
pub enum Refusal {
    /// A datagram from an address from which the port's peer does not send.
    #[error("the datagram comes from another address")]
    OtherSender,
    /// A datagram that is shorter than a VXLAN header of 8 octets (RFC 7348 section 5).
    #[error("the datagram is shorter than a VXLAN header")]
    ShortHeader,
    /// A datagram whose VXLAN header does not have the I flag set (RFC 7348 section 5).
    #[error("the I flag of the VXLAN header is not set")]
    UnsetFlag,
    /// A datagram of another VXLAN network than the port's.
    #[error("the datagram is of another VXLAN network")]
    OtherNetwork,
    /// A datagram without a header that is shorter than an Ethernet header of 14 octets (IEEE 802.3 clause 3).
    #[error("the datagram is shorter than an Ethernet header")]
    ShortFrame,
}
