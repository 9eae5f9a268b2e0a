//! Ethernet frames, station addresses, service tags and hexadecimal texts. It builds on bytes.
//!
//! A frame is its octets from the destination address on, without preamble and check sequence (IEEE 802.3 clause 3).
//! Nothing here pads a frame or computes a checksum. Begin with [`view`], [`push_s`] and [`pop_s`].
#![tactic(auto)]

mod frame;
mod held;
mod hex;
mod layout;
mod learnt;
mod mac;
mod memory;
mod number;
mod reason;
mod seq;
mod service_tag;
mod tci;
mod text;

pub use frame::{
    FrameFault, LONGEST_FRAME, LONGEST_UNTAGGED, SHORTEST_FRAME, SHORTEST_TAGGED, destination_of,
    source_of, view,
};
pub use held::Held;
pub use hex::{HexFault, has_upper_case, hex_octets, hex_octets_in, hex_read, hex_text};
pub use layout::View;
pub use learnt::Learnt;
pub use mac::Mac;
pub use memory::Memory;
pub use number::index_of;
pub use reason::Reason;
pub use seq::Seq;
pub use service_tag::{
    TagFault, has_priority_tag, has_service_type, look_c, pop_priority, pop_s, priority_of, push_s,
    tags_undo_each_other, vid_of, without_tag,
};
pub use tci::Tci;
pub use text::Text;
