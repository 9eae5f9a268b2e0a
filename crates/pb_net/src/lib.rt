//! A whole network in one thread: every place of a plan, driven event by event, over pb_relay and pb_link. Its record
//! of steps is lawful whatever the events are. Begin reading at `Net::step`, then `events.rt`.
#![tactic(auto)]

mod at_bridge;
mod at_lane;
mod at_port;
mod copying;
mod did;
mod due;
mod events;
mod fault;
mod lists;
mod net;
mod quiet;
mod settled;
mod slots;
mod spots;
mod start;
mod tallying;

pub use did::Did;
pub use fault::NetFault;
pub use net::Net;
pub use pb_frame::Memory;
pub use pb_history::Tallies;
pub use pb_lan::Event;
