//! The steps of a place as contracts see them, and the counts that reports print of them. It builds on pb_lan.
//!
//! The laws are about the list of all steps that a place took. A [`Tally`] has that list for contracts only, and the
//! counts in memory. A place can run without end. [`Steps`] has a tally, and also keeps each step if that is asked
//! for. Begin with [`Steps`].
#![tactic(auto)]

mod balance;
mod cause_counts;
mod drops;
mod filtered;
mod lacks;
mod late;
mod loss_counts;
mod newest;
mod passages;
mod port_counts;
mod shape;
mod source_counts;
mod steps;
mod tallies;
mod tally;

pub use cause_counts::CauseCounts;
pub use drops::{NO_PORT, drop_number};
pub use pb_frame::Memory;
pub use shape::last_shape;
pub use steps::Steps;
pub use tallies::Tallies;
pub use tally::Tally;
