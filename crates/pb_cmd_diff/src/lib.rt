//! The command `diff`: what a change from one plan to another does to the services, with nothing down and under
//! failures.
//!
//! It builds on pb_plan_diff for the plans' own differences, on pb_cmd_survive for the impact of a failure, and on
//! pb_converge, pb_names and pb_report. Parts of the two plans are matched by name.
//! Begin reading at `diff.rt`, [`run_diff`], then [`look_at_cases`] and [`put_report`].
#![tactic(auto)]

mod case;
mod compared;
mod diff;
mod effect;
mod end;
mod ends;
mod lines;
mod member;
mod report;
mod totals;
mod verdict;

pub use case::{Case, cases};
pub use compared::Compared;
pub use diff::{Asked, run_diff};
pub use effect::{Effect, ServiceChange, Sides, look_at_case, look_at_cases};
pub use end::DiffEnd;
pub use ends::{EndView, LinkEnds, ends_of};
pub use member::Member;
pub use report::put_report;
