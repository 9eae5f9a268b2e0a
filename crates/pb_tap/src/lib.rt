//! What records the frames that cross a link, in one direction or in both, over pb_port and rtrb.
//!
//! A lane has a [`Tap`] for each file that records it. A [`Tape`] has a port that writes. If it records both directions
//! of a link, a [`Feeder`] at the lane back sends it the frames of that direction over a ring. Begin reading at
//! [`Tape`].
#![tactic(auto)]

mod crossing;
mod feeder;
mod tap;
mod tape;

pub use crossing::Crossing;
pub use feeder::Feeder;
pub use pb_frame::Memory;
pub use tap::{Recorder, Tap};
pub use tape::{Tape, meet};
