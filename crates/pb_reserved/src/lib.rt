//! How a provider bridge handles a frame by its destination alone: the reserved addresses 01-80-C2-00-00-00 to -0F
//! (IEEE 802.1Q clause 8, reserved addresses of an S-VLAN component). It builds on pb_frame. Begin with [`fate`].
#![tactic(auto)]

mod kinds;
mod ruling;

pub use kinds::Fate;
pub use ruling::fate;
