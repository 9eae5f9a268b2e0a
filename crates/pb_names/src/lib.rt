//! The names of the parts of a plan, and the part that a name or a bridge's port means.
//!
//! It builds on pb_lan, pb_forest and pb_rstp. Begin with [`port_named`] in `numbers.rt` and [`bridge_name`] in
//! `names.rt`: one finds the number of a name, the other the name of a number.
#![tactic(auto)]

mod names;
mod numbers;
mod places;
mod words;

pub use names::{bridge_id, bridge_name, link_name, port_name, service_name};
pub use numbers::{port_named, service_at, service_named};
pub use places::{customer_at, is_end_at, link_at};
pub use words::{role_word, state_word};
