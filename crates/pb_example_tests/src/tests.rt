//! The examples, a file for each layer.

mod commands;
mod frames;
mod networks;
mod parts;
mod plans;
mod spanning;
