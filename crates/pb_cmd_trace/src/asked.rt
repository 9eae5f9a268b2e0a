//! The options of the command.

use crate::entry::Entry;

/// The options of the command.
#[derive(Clone, Copy)]
pub struct Asked<'a> {
    /// The frames to inject, in order.
    pub entries: &'a [Entry],
    /// What is disabled first: names of links and bridges, and ports as `BRIDGE:PORT`.
    pub downs: &'a [String],
    /// The most ticks of each bridge until convergence. None: the frames are injected before the first tick.
    pub settle: Option<u32>,
}
