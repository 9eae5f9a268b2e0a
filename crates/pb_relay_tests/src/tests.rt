//! Runs of one bridge, by tables.

mod bpdus;
mod by_class;
mod classes;
mod frames;
mod harness;
mod networks;
mod one_bridge;
mod queues;
mod rows;
mod spanning;
mod ticks;
mod topology;
mod two_bridges;

/// A broadcast from 02-00-00-00-01-01.
const BROADCAST: &str = "ffffffffffff02000000010108004142";

/// The broadcast with the service tag of red, priority 0.
const TAGGED_BROADCAST: &str = "ffffffffffff02000000010188a8006408004142";
