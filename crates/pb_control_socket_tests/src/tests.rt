//! The control socket.

mod answers;
mod board;
mod client;
mod files;
mod folder;
mod lines;
mod parts;
mod peers;
mod plans;
mod stage;
mod talk;
