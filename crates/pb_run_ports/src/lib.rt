//! Opens the files and sockets of a plan's customer ports.
//!
//! Files to read and sockets are opened first, then files to write. No file is emptied before all are open.
//! It takes the kinds of ports from pb_service, and files and sockets through the trait [`Openings`].
//! Begin with [`open_all`] in `opened.rt`.
#![tactic(auto)]

mod addresses;
mod deed;
mod one_port;
mod open_fault;
mod opened;
mod openings;
mod uses;

pub use deed::Deed;
pub use open_fault::{ExposedPort, FileUser, OpenFault, PathFault, SharedFile, Verb};
pub use opened::{Opened, open_all};
pub use openings::Openings;
