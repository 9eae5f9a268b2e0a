//! The settings of a run outside its plan file.

use std::os::fd::OwnedFd;

/// The settings of a run outside its plan file. No guarantee about a run depends on them.
#[derive(Drop)]
pub struct RunSettings<'a> {
    /// The path of the plan file.
    pub plan: &'a str,
    /// The path at which the control socket is made, or `None` for no control socket.
    pub control: Option<&'a str>,
    /// Whether frames wait until the bridges have converged.
    pub settles: bool,
    /// The maximum time, in milliseconds, in which ports write waiting frames after the run. A run that has drained
    /// waits for the readers of pipes before that.
    pub linger: u32,
    /// Whether ports may bind addresses that are not loopback, at which other hosts reach them.
    pub allows_network: bool,
    /// A handle of standard input, which ports read whose path is `-`. If it is left out, it is opened by its path.
    pub input: Option<OwnedFd>,
}
