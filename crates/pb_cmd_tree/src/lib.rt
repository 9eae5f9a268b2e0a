//! The command `tree`: the spanning trees of a plan's network, after the bridges have converged.
//! It builds on pb_converge (driving), pb_forest (loops), pb_names and pb_report (texts).
//! Begin reading at `tree.rt`, [`run_tree`].
#![tactic(auto)]

mod end;
mod given;
mod names;
mod protocol;
mod services;
mod tree;

pub use end::TreeEnd;
pub use names::{link_name_at, path_cost_at, put_id};
pub use pb_converge::DownFault;
pub use protocol::designated_at;
pub use tree::run_tree;
