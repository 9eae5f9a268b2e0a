//! How the command ends.

/// The result of the command, if it ended without a fault.
#[derive(Clone, Copy, Debug, PartialEq, Eq)]
pub enum ReportEnd {
    /// The page was written.
    Written,
    /// The file is not a valid plan, and the line `plan: N WORD` was written.
    Refused,
    /// The file before the change is not a valid plan, and the line `plan: N WORD` was written.
    OldRefused,
}
