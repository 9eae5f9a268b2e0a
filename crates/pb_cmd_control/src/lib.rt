//! The command `control`: sends commands to the control socket of a running network, and prints the replies.
//!
//! It reads lines with pb_lines and works over any reader and writer. Begin with [`converse`] in `conversation.rt`.
//! [`command_lines`] turns the arguments of a command line into its input.
#![tactic(auto)]

mod answer;
mod commands;
mod conversation;
mod fault;

pub use answer::Verdict;
pub use commands::command_lines;
pub use conversation::converse;
pub use fault::ControlFault;
