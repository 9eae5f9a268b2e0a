//! The commands `check` and `show`: they validate a plan, and print how reserved addresses are handled.
//!
//! It builds on pb_service for plan files, pb_converge for networks, pb_reserved for reserved addresses and pb_report
//! for texts.
//! Begin with [`run_check`] in `check.rt` and [`run_show`] in `show.rt`.
#![tactic(auto)]

mod check;
mod converged;
mod show;

pub use check::run_check;
pub use converged::run_converged_check;
pub use show::run_show;
