//! How the command ends.

use pb_converge::DownFault;

/// The result of the command, if it ended without a fault.
#[derive(Clone, Copy, Debug, PartialEq, Eq)]
pub enum TreeEnd {
    /// The trees were printed.
    Told,
    /// The file is not a valid plan, and the line `plan: N WORD` was printed.
    Refused,
    /// A name to disable is unknown or ambiguous. Nothing was printed.
    NoDown(DownFault),
}
