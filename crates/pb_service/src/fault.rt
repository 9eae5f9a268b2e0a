//! The reasons to refuse a plan file.

ghost use Rattle.std.specs.Prelude.{◌≡◌};
ghost use Rattle.pb_service.specs.declared.fault.PlanFault.{PlanFault};
ghost use Rattle.pb_service.specs.declared.fault.PlanFault.TheVariants.{Memory as memory_fault};

use pb_frame::{Memory, Text};
use std::alloc::{AllocError, AllocFailed};
use thiserror::Error;

/// The first rule that a refused plan file breaks.
///
/// A key has its path, as `network.ageing` or `bridge[0].name`, in which tables count from 0. A key at the top has no
/// path. The printed text is a fixed word, followed by the key or name if there is one.
#[derive(Debug, PartialEq, Eq, Drop, Error)]
pub enum PlanFault {
    /// The file isn't UTF-8.
    #[error("utf8")]
    Utf8,
    /// The text isn't a TOML document.
    #[error("toml")]
    Toml,
    /// A key without a default is missing.
    #[error("missing {}", .0.as_str())]
    Missing(Text),
    /// The value is of another TOML type than that of the key.
    #[error("kind {}", .0.as_str())]
    Kind(Text),
    /// The value is of the key's type but not allowed: it is out of range, or it contradicts another key.
    #[error("range {}", .0.as_str())]
    Range(Text),
    /// The table has a key that the format doesn't know.
    #[error("unknown {}", .0.as_str())]
    Unknown(Text),
    /// Two of a kind have this name, address or VID.
    #[error("twice {}", .0.as_str())]
    Twice(Text),
    /// No bridge, no service or no link has this name.
    #[error("no-such {}", .0.as_str())]
    NoSuch(Text),
    /// A local port of a bridge is used twice, by ends of links or customer ports.
    #[error("link-end")]
    LinkEnd,
    /// There are more bridges, links, services, ports, events or taps than a plan may have.
    #[error("too-many")]
    TooMany,
    /// An allocation failed.
    #[error("memory")]
    Memory,
}

impl From<AllocError> for PlanFault {
    ghost from_gives = { λ _ e. e ≡ memory_fault };

    fn from(_e: AllocError) -> PlanFault {
        PlanFault::Memory
    }
}

impl<T: Drop> From<AllocFailed<T>> for PlanFault {
    ghost from_gives = { λ _ e. e ≡ memory_fault };

    fn from(_e: AllocFailed<T>) -> PlanFault {
        PlanFault::Memory
    }
}

impl From<Memory> for PlanFault {
    ghost from_gives = { λ _ e. e ≡ memory_fault };

    fn from(_e: Memory) -> PlanFault {
        PlanFault::Memory
    }
}

impl PlanFault {
    ghost use Rattle.pb_service.specs.Faults.{number_of};

    /// Returns the number of the fault, 1 to 11 in the order of the variants.
    pub fn number(&self) -> u8
        ensures { result ≡ number_of self.now }
    {
        match self {
            PlanFault::Utf8 => 1,
            PlanFault::Toml => 2,
            PlanFault::Missing(_) => 3,
            PlanFault::Kind(_) => 4,
            PlanFault::Range(_) => 5,
            PlanFault::Unknown(_) => 6,
            PlanFault::Twice(_) => 7,
            PlanFault::NoSuch(_) => 8,
            PlanFault::LinkEnd => 9,
            PlanFault::TooMany => 10,
            PlanFault::Memory => 11,
        }
    }
}
