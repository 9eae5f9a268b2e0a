//! The command `survive`: fails each link in turn, and on request each bridge and each two links, and reports which
//! services are disconnected, and whether the network is healthy with nothing down. It builds on pb_converge (driving),
//! pb_forest (loops), pb_names and pb_report.
//! Begin reading at `survive.rt`, [`run_survive`], then [`raise`], [`look_at`] and [`put_report`].
#![tactic(auto)]

mod acceptances;
mod counted;
mod criteria;
mod disconnecting;
mod drive;
mod end;
mod failure;
mod health;
mod impact;
mod judgement;
mod look;
mod parallel;
mod progress;
mod report;
mod scope;
mod service_lines;
mod sites;
mod stale;
mod standing;
mod survive;
mod surviving;
mod tables;
mod totals;
mod verdict;
mod view;

pub use criteria::Criteria;
pub use disconnecting::{disconnects, disconnects_view};
pub use drive::{drive_into, is_hit};
pub use end::SurviveEnd;
pub use failure::{Failure, Kinds, failures};
pub use impact::Impact;
pub use look::{look_at, look_at_all};
pub use parallel::look_each;
pub use pb_converge::DownFault;
pub use progress::FailureProgress;
pub use report::{put_failure, put_report};
pub use scope::{Scope, all_services};
pub use service_lines::put_groups;
pub use sites::{Site, groups};
pub use standing::{Patience, Standing, raise};
pub use survive::{Asked, run_survive};
pub use totals::{has_converged, ticks_of};
pub use verdict::{are_forests, is_converged, is_split};
pub use view::{View, views};
