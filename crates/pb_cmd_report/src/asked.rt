//! The options of the command.

use pb_cmd_survive::Kinds;

/// A plan file before a change.
#[derive(Clone, Copy)]
pub struct OldPlan<'a> {
    /// Its title on the page, such as its path.
    pub title: &'a str,
    /// Its octets.
    pub file: &'a [u8],
}

/// The options of the command.
#[derive(Clone, Copy)]
pub struct Asked<'a> {
    /// The title of the page, such as the path of the plan file.
    pub title: &'a str,
    /// The kinds of failures that are analysed besides those of each single link.
    pub kinds: Kinds,
    /// The most ticks of each bridge until convergence.
    pub ticks: u32,
    /// The plan file before the change that the page describes, if it describes one.
    pub old: Option<OldPlan<'a>>,
}
