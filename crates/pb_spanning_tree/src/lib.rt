//! The spanning tree of a plan, and the law that bridges that have converged form it.
//!
//! It builds on pb_rstp for the machines of bridges and on pb_lan for the plan. Begin with [`tree_of`], which computes
//! the root priority vectors. [`role_of`] returns the role of a port, and [`is_tree_link`] whether a link is part of the
//! tree. The other functions state laws.
#![tactic(auto)]

mod addresses;
mod laws;
mod roles;
mod tree;
mod vector;

pub use addresses::read_addresses;
pub use laws::{
    converged_tree, last_forest, least_cost, one_solution, one_tree, planned_are_planned,
    shape_is_last, spans,
};
pub use roles::{is_tree_link, role_of};
pub use tree::tree_of;
pub use vector::TreeVector;
