//! The options of the command.

use crate::end::Format;

/// The options of the command.
#[derive(Clone, Copy)]
pub struct Asked<'a> {
    /// The name of the service to highlight, if any.
    pub service: Option<&'a str>,
    /// What is disabled first: names of links and bridges, and ports as `BRIDGE:PORT`.
    pub downs: &'a [String],
    /// The most ticks of each bridge until convergence.
    pub ticks: u32,
    /// Whether links show their lists of services.
    pub lists: bool,
    /// The format of the picture.
    pub format: Format,
}
