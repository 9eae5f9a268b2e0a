//! How the command ends.

use pb_converge::DownFault;

/// The result of the command, if it ended without a fault.
#[derive(Clone, Copy, Debug, PartialEq, Eq)]
pub enum TraceEnd {
    /// The traces were written.
    Told,
    /// The file is not a valid plan, and the line `plan: N WORD` was written.
    Refused,
    /// The plan lacks the customer port of the frame at this index, from 0. Nothing was written.
    NoPort(usize),
    /// The digits at this index, from 0, are no frame. Nothing was written.
    NoFrame(usize),
    /// A name to disable is unknown or ambiguous. Nothing was written.
    NoDown(DownFault),
}
