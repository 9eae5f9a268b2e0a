//! How the command ends, and the formats of a picture.

use pb_converge::{Convergence, DownFault};

/// The format of a picture.
#[derive(Clone, Copy, Debug, PartialEq, Eq)]
pub enum Format {
    /// A self-contained SVG picture.
    Svg,
    /// A graph for Graphviz.
    Dot,
}

/// The result of the command, if it ended without a fault.
#[derive(Clone, Copy, Debug, PartialEq, Eq)]
pub enum DrawEnd {
    /// The picture was written, with whether the bridges converged.
    Drawn(Convergence),
    /// The file is not a valid plan, and the line `plan: N WORD` was written.
    Refused,
    /// A name to disable is unknown or ambiguous. Nothing was written.
    NoDown(DownFault),
    /// The plan has no service with the name. Nothing was written.
    NoService,
}
