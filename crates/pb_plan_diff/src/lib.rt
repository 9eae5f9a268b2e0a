//! The differences of two plans: bridges, links, services and customer ports that were added, removed or altered field
//! by field.
//!
//! It builds on pb_lan for plans and pb_names for the names of their parts. A plan becomes a list of parts with texts
//! for their fields (`parts.rt`), and two such lists are compared by kind and name.
//! Begin with [`put_plan_diff`] in `differences.rt`.
#![tactic(auto)]

mod differences;
mod fields;
mod part;
mod parts;
mod texts;

pub use differences::put_plan_diff;
pub use part::{Field, Part};
pub use parts::{parts_of, service_names};
