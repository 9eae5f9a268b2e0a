//! The loss report of a run, and the exit status of a strict run.
//!
//! It takes the counts of steps from pb_history, unwritten frames from pb_port and the end of a run from pb_run.
//! Begin with [`lost_of`] in `lost.rt`.
#![tactic(auto)]

mod drops;
mod losses;
mod lost;
mod strictness;
mod transit;
mod unwritten;

pub use drops::put_drops;
pub use losses::put_losses;
pub use lost::{dropped_of, is_whole, lost_of};
pub use strictness::{Strictness, exit_status};
pub use transit::transit_of;
