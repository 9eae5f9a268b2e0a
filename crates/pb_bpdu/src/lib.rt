//! BPDUs of the rapid spanning tree protocol in Ethernet frames (IEEE 802.1D-2004 clause 9.3.3). It builds on
//! pb_frame.
//!
//! A frame is its octets from the destination address on, without preamble and check sequence. In an untagged frame
//! the length, three octets of logical link control and the BPDU follow the addresses. Octets after that length are
//! padding. Begin with [`read`] and [`write`].
#![tactic(auto)]

mod bpdu;
mod fault;
mod laws;
mod reading;
mod writing;

pub use bpdu::Bpdu;
pub use fault::BpduFault;
pub use laws::what_is_written_is_read;
pub use reading::read;
pub use writing::write;
