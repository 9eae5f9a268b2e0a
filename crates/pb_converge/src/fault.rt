//! The reason why driving a network ended early.

ghost use Rattle.std.specs.Prelude.{◌≡◌};
ghost use Rattle.pb_converge.specs.declared.fault.DriveFault.TheVariants.{Memory as memory_fault};

use pb_frame::Memory;
use thiserror::Error;

/// The reason why driving a network ended early. The events performed before keep their effect.
#[derive(Clone, Copy, Debug, PartialEq, Eq, Error)]
pub enum DriveFault {
    /// An allocation failed.
    #[error("out of memory")]
    Memory,
    /// A place has taken as many steps as the plan allows, and one more was due.
    #[error("the list holds the plan's number of steps")]
    Steps,
    /// More events were due than were allowed.
    #[error("more events than allowed")]
    Events,
}

impl From<Memory> for DriveFault {
    ghost from_gives = { λ _ e. e ≡ memory_fault };

    fn from(_e: Memory) -> DriveFault {
        DriveFault::Memory
    }
}
