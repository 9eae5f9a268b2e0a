//! Warnings about a plan that is valid and cannot work as its author expects.
//!
//! It builds on pb_lan for the plan and on pb_rstp for identifiers of bridges.
//! Begin with [`warnings_of`] in `finding.rt`, then the rules in `rules.rt`.
#![tactic(auto)]

mod finding;
mod hops;
mod links;
mod root;
mod rules;
mod warning;

pub use finding::warnings_of;
pub use warning::Warning;
