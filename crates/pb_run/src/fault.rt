//! The reason why a plan was not run.

ghost use Rattle.std.specs.Prelude.{◌≡◌};

use crate::outside::Held;
use pb_threads::WorkFault;

/// The reason why no place of a plan took a step.
#[derive(Clone, Copy, PartialEq, Eq, Debug)]
pub enum RunCause {
    /// The number of ports is not the number of customer ports of the plan.
    PortCount = 1,
    /// An allocation failed before the workers were started.
    Memory = 2,
    /// A thread could not be started.
    Spawn = 3,
}

/// A run that did not start: the reason, and the ports that it was given. No port was polled or offered a frame.
#[derive(Drop)]
pub struct RunFault<P = Held> {
    /// The reason.
    pub cause: RunCause,
    /// The ports, unchanged and in their order.
    pub ports: Vec<P>,
}

/// Returns the cause of a fault of the workers.
pub(crate) fn cause_of(fault: WorkFault) -> RunCause
    ensures { (result ≡ RunCause.PortCount) → ⊥ }
{
    match fault {
        WorkFault::Memory => RunCause::Memory,
        WorkFault::Spawn => RunCause::Spawn,
    }
}
