//! The law of no standstill in a lossless run.
//!
//! It builds on pb_relay for the room in queues and on pb_lan for records. Begin with
//! [`nothing_waits_or_moves`]. Its functions state laws.
#![tactic(auto)]

mod laws;

pub use laws::{no_standstill, nothing_waits_or_moves};
