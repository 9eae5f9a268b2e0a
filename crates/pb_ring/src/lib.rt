//! The rings between the places of a network whose workers run in threads. It builds on pb_lan and rtrb.
//!
//! A place owns ends of rings, and shares nothing else with other places. The type of an end and its number determine
//! the ring. The two ends of a ring may move between threads. If they meet again in one thread, the received items
//! are a beginning of the sent ones. Begin with [`Outlet`], [`Inlet`] and [`meet`].
#![tactic(auto)]

mod ends;
mod sides;

pub use ends::{Inlet, Outlet, Wiring, meet};
pub use sides::{Inlets, Outlets};
