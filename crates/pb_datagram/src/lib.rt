//! Ports whose frames travel in datagrams, after a VXLAN header (RFC 7348) or alone. It builds on pb_lan, pb_port,
//! bytes, byteorder and thiserror.
//!
//! A datagram from another address, of another network or without a whole header is refused and counted. No call
//! waits. Begin with [`DatagramPort`], then [`Tunnel`], [`Encapsulation`] and [`DatagramDevice`].
#![tactic(auto)]

mod datagram_port;
mod device;
mod drops;
mod encapsulation;
mod inbox;
mod laws;
mod outbox;
mod refusal;
mod tunnel;
mod vxlan;

pub use datagram_port::DatagramPort;
pub use device::{DatagramDevice, Received, Sent, SystemError};
pub use drops::{Drops, Refusals};
pub use encapsulation::Encapsulation;
pub use laws::{datagrams_carry_one_frame, what_is_written_is_read};
pub use refusal::Refusal;
pub use tunnel::Tunnel;
pub use vxlan::{Vni, read_header, write_header};
