//! The command `trace`: follows frames hop by hop through the network of a plan.
//! It builds on pb_converge (driving), pb_net (one event at a time), pb_names and pb_step_script (the texts of steps).
//! Begin reading at `trace.rt`, [`run_trace`], then [`trace_plan`] and `walk.rt`.
#![tactic(auto)]

mod asked;
mod beginning;
mod end;
mod entry;
mod following;
mod frame;
mod journey;
mod lines;
mod names;
mod onward;
mod places;
mod receipt;
mod round;
mod stations;
mod summary;
mod telling;
mod trace;
mod tracing;
mod walk;

pub use asked::Asked;
pub use end::TraceEnd;
pub use entry::Entry;
pub use lines::TraceLine;
pub use onward::Onward;
pub use pb_converge::{Convergence, DownFault};
pub use round::FrameId;
pub use trace::run_trace;
pub use tracing::{TraceReport, Tracing, trace_plan};
