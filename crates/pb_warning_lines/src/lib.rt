//! The printed warnings about a plan file.
//!
//! It builds on pb_warnings for the rules, on pb_service for plan files and on pb_plan_spans for the lines of tables.
//! Begin with [`put_warnings`] in `lines.rt`.
#![tactic(auto)]

mod lines;
mod text;

pub use lines::put_warnings;
