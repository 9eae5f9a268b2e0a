//! Report texts that several commands print.
//!
//! It builds on pb_step_script for counts, pb_forest for forwarding loops and pb_service for plan errors.
//! Begin with [`put_record`] in `record.rt`.
#![tactic(auto)]

mod forests;
mod record;
mod refusal;

pub use forests::put_forest;
pub use record::{put_record, put_settled};
pub use refusal::{put_refusal, write_refusal};
