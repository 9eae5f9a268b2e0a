//! How the command ends.

/// The result of the command, if it ended without a fault. A text was written in each case.
#[derive(Clone, Copy, Debug, PartialEq, Eq)]
pub enum DiffEnd {
    /// Nothing got worse.
    Kept,
    /// With nothing down or under a failure, two ports of a service no longer reach each other, a service now forms a
    /// loop, or the bridges no longer converge.
    Worse,
    /// Neither plan has the requested service.
    Lacking,
    /// The first file is not a valid plan.
    OldRefused,
    /// The second file is not a valid plan.
    NewRefused,
}
