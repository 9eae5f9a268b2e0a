//! Forests of the active links of a service, paths in them, and whether a record has drained. It builds on
//! pb_history.
//!
//! A service whose active links are no forest has a forwarding loop. Begin with [`forest`], [`check_rooted`],
//! [`path`] and [`is_drained`].
#![tactic(auto)]

mod active;
mod certificate;
mod drained;
mod graph;
mod peeling;
mod rooting;
mod search;
mod ways;

pub use active::{are_ends_forwarding, is_active, numbered, state_in, vid_numbered};
pub use certificate::check_rooted;
pub use drained::is_drained;
pub use pb_frame::Memory;
pub use search::forest;
pub use ways::path;
