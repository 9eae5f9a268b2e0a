//! The places of a network as workers over rings (customer ports, lanes and bridges), over pb_relay, pb_link, pb_ring,
//! pb_threads and pb_port.
//!
//! A worker owns its place, the ends of its rings and, at a customer port, the port outside. A turn takes at most one
//! step. What passed a ring end or the port outside is what the steps of the place say. Begin reading at
//! `BridgeWorker`.
#![tactic(auto)]

mod access;
mod bridge;
mod bridge_turns;
mod customer;
mod drained;
mod gift;
mod lane;
mod mode;
mod receipt;
mod recording;
mod refusal;
mod room;
mod stations;
mod used;
mod view;
mod was;

pub use access::{Access, Book, Last};
pub use bridge::BridgeWorker;
pub use customer::CustomerWorker;
pub use drained::has_drained;
pub use gift::{AccessGift, BridgeGift, CustomerGift, LaneGift};
pub use lane::LaneWorker;
pub use mode::Mode;
pub use pb_frame::Memory;
pub use pb_threads::{PortView, StationView, Wish};
pub use used::is_used;
pub use was::Was;
