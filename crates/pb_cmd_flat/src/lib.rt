//! The command `flat`: one bridge, driven by lines of text.
//!
//! It runs a bridge of pb_relay and reads lines with pb_lines. The line `in 1 HEX` gives `out 2 HEX` and `out 3 HEX` at
//! a
//! bridge with three ports that has not learnt the destination. Begin with [`run_flat`] in `run.rt`.
#![tactic(auto)]

mod flat_plan;
mod line;
mod print;
mod run;
mod switch;

pub use run::{run_flat, run_flat_on};
pub use switch::Switch;
