//! A profile of the rapid spanning tree protocol (IEEE 802.1D-2004 clause 17).
#![tactic(auto)]

mod calls;
mod change;
mod config;
mod hearing;
mod laws;
mod message;
mod moving;
mod network;
mod own_change;
mod port;
mod proposal;
mod role;
mod roles;
mod rstp;
mod sending;
mod setting;
mod settle;
mod ticking;
mod told;
mod topology;
mod vector;

pub use change::Change;
pub use config::{Config, RstpPort};
pub use laws::{
    calls_keep_bridges, calls_keep_line, changes_lead_on, cost_rises, planned_are_machines,
    settled_is_forest, start_is_in_line, test_tells,
};
pub use network::{is_converged, is_settled};
pub use role::Role;
pub use rstp::Rstp;
pub use vector::Vector;
