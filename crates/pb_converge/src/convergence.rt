//! The outcome of driving bridges to convergence.

/// The outcome of driving bridges to convergence.
#[derive(Clone, Copy, Debug, PartialEq, Eq)]
pub enum Convergence {
    /// The plan gives the states of the ports: nothing was done.
    Given,
    /// The bridges had converged after two rounds in a row, the second after this many ticks of each bridge.
    Converged(u32),
    /// The bridges had not converged after two rounds in a row within the ticks that were allowed, this many of each:
    /// each bridge ticked so often, or their machines recurred before.
    NotConverged(u32),
}
