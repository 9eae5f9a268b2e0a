//! The faults of an export.

ghost use Rattle.std.specs.Prelude.{◌≡◌};
ghost use Rattle.pb_export.specs.declared.faults.FormatFault.TheVariants.{Memory as memory_fault};

use std::alloc::{AllocError, AllocFailed};
use thiserror::Error;

/// Why a report can't be written as JSON or CSV.
#[derive(Clone, Copy, Debug, PartialEq, Eq, Error)]
pub enum FormatFault {
    /// The text is not a report of the form: it is not UTF-8, its last line has no end, or a line fits none of the
    /// templates.
    #[error("format")]
    Unread,
    /// An allocation failed.
    #[error("memory")]
    Memory,
}

impl From<AllocError> for FormatFault {
    ghost from_gives = { λ _ e. e ≡ memory_fault };

    /// Returns `Memory`.
    fn from(_e: AllocError) -> FormatFault {
        FormatFault::Memory
    }
}

impl<T: Drop> From<AllocFailed<T>> for FormatFault {
    ghost from_gives = { λ _ e. e ≡ memory_fault };

    /// Returns `Memory`.
    fn from(_e: AllocFailed<T>) -> FormatFault {
        FormatFault::Memory
    }
}
