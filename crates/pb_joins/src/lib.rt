//! Which bridges links join: each bridge gets a mark, and those that are joined get the same.
//!
//! It builds on pb_lan for the plan. Begin with [`marks`].
#![tactic(auto)]

mod joining;

pub use joining::{mark_at, marks};
