//! The reasons why a conversation ends early.

ghost use Rattle.std.specs.Prelude.{◌≡◌};
ghost use Rattle.pb_cmd_control.specs.declared.fault.ControlFault.TheVariants.{Memory as memory_fault};
ghost use Rattle.pb_cmd_control.specs.Faults.{of_line};

use pb_lines::LineFault;
use std::alloc::{AllocError, AllocFailed};
use thiserror::Error;

/// A reason why a conversation with a control socket ends early. Its text follows `fault: ` on standard error.
#[derive(Clone, Copy, Debug, PartialEq, Eq, Error)]
pub enum ControlFault {
    /// The run hung up before its reply ended, or sent more than 524,288 octets that are no reply.
    #[error("read")]
    HungUp,
    /// The commands can't be read.
    #[error("read")]
    Input,
    /// A reply can't be printed.
    #[error("write")]
    Output,
    /// An allocation failed.
    #[error("memory")]
    Memory,
}

impl From<AllocError> for ControlFault {
    ghost from_gives = { λ _ e. e ≡ memory_fault };

    fn from(_e: AllocError) -> ControlFault {
        ControlFault::Memory
    }
}

impl<T: Drop> From<AllocFailed<T>> for ControlFault {
    ghost from_gives = { λ _ e. e ≡ memory_fault };

    fn from(_e: AllocFailed<T>) -> ControlFault {
        ControlFault::Memory
    }
}

impl From<LineFault> for ControlFault {
    ghost from_gives = { λ line e. e ≡ of_line line };

    fn from(e: LineFault) -> ControlFault {
        match e {
            LineFault::Read => ControlFault::Input,
            LineFault::Memory => ControlFault::Memory,
        }
    }
}
