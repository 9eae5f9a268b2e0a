//! The control socket of a run, over pb_lines, pb_step_script, pb_names and pb_threads. One peer at a time sends lines,
//! and gets a reply to each.
//!
//! [`read_request`] reads the [`Request`] of a line. [`answer`] performs it at a [`Board`], which a run shares with its
//! socket, and appends the reply. [`Control`] is the socket itself. Begin reading at [`answer`].
#![tactic(auto)]

mod board;
mod control;
mod counts;
mod drops;
mod endings;
mod help;
mod lines;
mod parts;
mod path;
mod peer;
mod peers;
mod places;
mod reading;
mod replies;
mod reply_lines;
mod request;
mod stations;
mod tree;

pub use board::Board;
pub use control::Control;
pub use lines::LineBuffer;
pub use path::{listen, node_at};
pub use reading::read_request;
pub use replies::answer;
pub use request::{Part, Refused, Request};
