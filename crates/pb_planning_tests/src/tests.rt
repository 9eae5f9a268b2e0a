//! A module for each subject: its harness and its tests over networks.

mod converging;
mod diff;
mod draw;
mod suggestions;
mod survive;
