//! The impact of a failure on the services.

use crate::failure::Failure;
use crate::view::View;
use pb_converge::Convergence;
use pb_lan::Seq;

/// The impact of a failure on the services of a network.
#[derive(PartialEq, Debug, Drop)]
pub struct Impact {
    /// The failure.
    pub failure: Failure,
    /// Whether the bridges converged after it, and after how many ticks of each.
    pub convergence: Convergence,
    /// The state of each analysed service then.
    pub views: Seq<View>,
}
