//! The faults that end a command early.

ghost use Rattle.std.specs.Prelude.{◌≡◌};
ghost use Rattle.pb_messages.specs.declared.fault.CommandFault.TheVariants.{Memory as memory_fault};
ghost use Rattle.pb_messages.specs.Faults.{of_line};

use pb_frame::Memory;
use pb_lines::LineFault;
use std::alloc::{AllocError, AllocFailed};
use thiserror::Error;

/// The fault that ended a command early. It is displayed as the word after `fault:`.
#[derive(Clone, Copy, Debug, PartialEq, Eq, Error)]
pub enum CommandFault {
    /// A failed read that was not interrupted, or too many reads.
    #[error("read")]
    Read,
    /// A failed write.
    #[error("write")]
    Write,
    /// A place that has taken as many steps as its plan allows.
    #[error("steps")]
    Steps,
    /// A failed allocation.
    #[error("memory")]
    Memory,
}

impl From<Memory> for CommandFault {
    ghost from_gives = { λ _ e. e ≡ memory_fault };

    fn from(_e: Memory) -> CommandFault {
        CommandFault::Memory
    }
}

impl From<AllocError> for CommandFault {
    ghost from_gives = { λ _ e. e ≡ memory_fault };

    fn from(_e: AllocError) -> CommandFault {
        CommandFault::Memory
    }
}

impl<T: Drop> From<AllocFailed<T>> for CommandFault {
    ghost from_gives = { λ _ e. e ≡ memory_fault };

    fn from(_e: AllocFailed<T>) -> CommandFault {
        CommandFault::Memory
    }
}

impl From<LineFault> for CommandFault {
    ghost from_gives = { λ line e. e ≡ of_line line };

    fn from(e: LineFault) -> CommandFault {
        match e {
            LineFault::Read => CommandFault::Read,
            LineFault::Memory => CommandFault::Memory,
        }
    }
}
