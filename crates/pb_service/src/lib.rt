//! The plan file: a network, the limits of a run and the customer ports, read from a TOML text.
//!
//! It builds on `toml` for the document, on pb_lan for the plan, and on pb_frame for addresses and frames.
//! Begin with [`read_plan_file`] in `document.rt`. [`PlanFault`] lists the rules that a file can break.
#![tactic(auto)]

mod bridge;
mod check;
mod document;
mod event;
mod fault;
mod formats;
mod key_fault;
mod link;
mod lists;
mod network;
mod port;
mod port_spec;
mod row;
mod rule;
mod section;
mod service;
mod table;
mod tap;
mod told;
mod udp;
mod used;
mod values;

pub use document::{PlanFile, read_limits, read_plan, read_plan_file};
pub use event::PortEvent;
pub use fault::PlanFault;
pub use pb_lan::Limits;
pub use port_spec::{LengthField, Pace, PortSpec, Stamp};
pub use tap::{TapDirection, TapSpec};
