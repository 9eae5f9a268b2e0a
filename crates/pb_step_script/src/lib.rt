//! Step scripts: the event that a line asks for, and the line that reports the step.
//!
//! A line names bridges, links and customer ports as the plan does. It asks for one event of the network.
//! The crate builds on pb_frame, pb_history and pb_messages. Begin with [`read_line`] in `line.rt`.
#![tactic(auto)]

mod answer;
mod by_name;
mod counts;
mod line;
mod names;
mod report;
mod verb;

pub use answer::{put_done, put_idle, put_no_such};
pub use by_name::{bridges_by_name, links_by_name, ports_by_name};
pub use line::{read_frame, read_line};
pub use names::Names;
pub use report::put_counts;
pub use verb::Verb;
