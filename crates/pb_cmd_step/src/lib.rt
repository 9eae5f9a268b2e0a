//! The command `step`: the network of a plan file, driven event by event from a step script.
//!
//! It runs the network of pb_net, reads script lines with pb_step_script and prints the report of pb_report. A script
//! may be a test with comments and expectations.
//! Begin with [`run_steps`] in `steps.rt`.
#![tactic(auto)]

mod lines;
mod script;
mod steps;
mod testing;

pub use script::{run_script, run_test};
pub use steps::{run_steps, test_steps};
pub use testing::TestNotes;
