//! The disconnections that a plan's owner accepts: the tables `accept` of a plan file, or of a file of their own.
//!
//! It builds on pb_service for the rules of keys, on pb_lan for the plan, and on toml for the document.
//! Begin with [`read_acceptances`] in `reading.rt`.
#![tactic(auto)]

mod acceptance;
mod fault;
mod named;
mod reading;
mod refusal;
mod row;
mod told;

pub use acceptance::{Acceptance, NamedFailure};
pub use fault::{AcceptFault, Part};
pub use reading::{read_accept_file, read_acceptances};
