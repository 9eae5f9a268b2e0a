//! Control of a run, over pb_threads, pb_service and pb_control_socket: the events of its plan, wishes from the control
//! socket, and live counts.
//!
//! [`Steering`] is a gate between the workers and the caller's gate. It hands a bridge's worker the wishes that are
//! due: those of the plan's events, by the ticks of that bridge, and those of the control socket. It has the bells of
//! the workers. Begin reading at [`Steering`].
#![tactic(auto)]

mod agenda;
mod board;
mod census;
mod course;
mod mailbox;
mod peers;
mod progress;
mod steering;
mod traffic;
mod views;

pub use progress::{Opening, PeerChange, RunProgress, SocketFailure};
pub use steering::Steering;
pub use traffic::Traffic;
