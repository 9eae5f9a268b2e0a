//! Runs of a plan's network in threads, over pb_workers: a worker for each place, rings between them, and the record
//! once all have ended.
//!
//! The workers are built over new rings (`build.rt`), run in threads of their own (`running.rt`), and the ends of each
//! ring meet once all are back (`meet.rt`). What the places did is one lawful record. Begin reading at `run`.
#![tactic(auto)]

mod build;
mod ended;
mod fault;
mod laws;
mod meet;
mod outside;
mod record;
mod rooms;
mod running;
mod runs;
mod settled;
mod taps;
mod wires;

pub use ended::Ended;
pub use fault::{RunCause, RunFault};
pub use laws::runs_carry_captures;
pub use outside::{Held, LaneTap};
pub use pb_frame::Memory;
pub use pb_lan::{Limits, Past};
pub use pb_tap::{Recorder, Tap, Tape};
pub use pb_threads::{Bells, Dropped, Gate, Go, PortView, StationView, Wish};
pub use pb_workers::{
    Access, AccessGift, Book, BridgeGift, BridgeWorker, CustomerGift, CustomerWorker, LaneGift,
    LaneWorker, Last, Mode,
};
pub use running::{KeptRun, Ran, TappedRun};
pub use runs::{run, run_kept, run_set, run_tapped};
pub use taps::{TapDirection, TapPort};
