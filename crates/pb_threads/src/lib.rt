//! Workers: each takes the turns of one place in a thread of its own, over pb_lan and pb_rstp. While it sleeps, the
//! worker of a place beside it may take them.
//!
//! `run_all` starts them, joins them and returns the places. What holds of a place at the start and between turns holds
//! of the place that comes back. It has fulfilled only wishes that the gate gave for it. Workers share the slots of the
//! places, counters, and the bells of the gate, which wake those that sleep: the rings between places belong to the
//! places. Begin reading at `run_all`, `Worker::take_turns` and `help_at`.
#![tactic(auto)]

mod bells;
mod floor;
mod gate;
mod helping;
mod pace;
mod share;
mod showing;
mod slot;
mod threads;
mod ticks;
mod touched;
mod turns;
mod view;
mod words;
mod worker;

pub use bells::Bells;
pub use gate::{Dropped, Gate, Go, Wish};
pub use pb_lan::Past;
pub use threads::{Places, WorkFault, Worked, run_all};
pub use ticks::Moment;
pub use turns::{Finish, Turn, TurnStatus, Work};
pub use view::{PortView, StationView};
