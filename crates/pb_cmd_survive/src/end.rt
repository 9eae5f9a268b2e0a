//! How the command ends.

use pb_converge::DownFault;

/// The result of the command, if it ended without a fault.
#[derive(Clone, Copy, Debug, PartialEq, Eq)]
pub enum SurviveEnd {
    /// Every failure was analysed and the network survives, or only what is accepted happens. The report was printed.
    Survives,
    /// The network does not survive, or an acceptance is stale and that was to be told. The report was printed.
    Parted,
    /// The plan lacks the requested service or port. A line that says so was printed.
    Lacking,
    /// The file is not a valid plan, and the line `plan: N WORD` was printed.
    Refused,
    /// A name of what is to be down is unknown or ambiguous. Nothing was printed.
    NoDown(DownFault),
}
