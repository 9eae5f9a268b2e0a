//! Devices that give the records of a capture at the distances of their times. It builds on pb_port.
//!
//! Begin with [`Paced`] in `paced.rt`.
#![tactic(auto)]

mod head;
mod paced;
mod record;
mod stopwatch;

pub use paced::Paced;
pub use stopwatch::Stopwatch;
