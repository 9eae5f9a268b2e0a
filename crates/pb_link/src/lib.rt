//! Lanes and customer ports: the places between bridges and at the edge of a network, over pb_frame and pb_history.
//!
//! A place holds at most one item, and keeps or counts its steps. Contracts see the list of steps either way, and it is
//! lawful whatever calls were made. The owner of a place moves items between its queues or rings and the place. Begin
//! reading at `CustomerPlace` and `Lane`.
#![tactic(auto)]

mod customer;
mod holding;
mod lane;
mod losses;
mod steps;

pub use customer::CustomerPlace;
pub use lane::Lane;
pub use pb_frame::Memory;
