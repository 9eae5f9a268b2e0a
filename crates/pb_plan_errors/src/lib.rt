//! The errors of a plan file, each with its line, a message and a hint.
//!
//! It builds on pb_service for the rules of a plan file and on pb_diagnostics for excerpts. Begin with [`plan_error`]
//! in `error.rt`, then [`plan_errors`] in `all.rt`.
#![tactic(auto)]

mod all;
mod ends;
mod error;
mod finding;
mod hint;
mod marking;
mod message;
mod names;
mod path;
mod repair;
mod row;
mod rule;
mod spare;

pub use all::{MOST_ERRORS, plan_errors};
pub use error::{fault_error, plan_error};
