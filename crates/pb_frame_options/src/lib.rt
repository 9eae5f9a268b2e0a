//! Frames that options describe: destination, source, tags, and type or BPDU. Builds on pb_frame. Begin with
//! [`frame_of`], which returns the octets of a frame.
#![tactic(auto)]

mod address;
mod frame;
mod tag;

pub use address::{address_of, station_of};
pub use frame::{Content, FrameOptions, frame_of};
pub use tag::{TagTextFault, customer_tag_of, ethertype_of, priority_tag};
