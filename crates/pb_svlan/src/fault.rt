//! Faults of adding services and ports.

ghost use Rattle.std.specs.Prelude.{◌≡◌};
ghost use Rattle.pb_svlan.specs.declared.fault.AddFault.{AddFault};
ghost use Rattle.pb_svlan.specs.declared.fault.AddFault.TheVariants.{Memory as add_memory};
ghost use Rattle.pb_svlan.specs.declared.fault.JoinFault.{JoinFault};
ghost use Rattle.pb_svlan.specs.declared.fault.JoinFault.TheVariants.{Memory as join_memory};

use std::alloc::{AllocError, AllocFailed};
use thiserror::Error;

/// The fault of a service that was not added: the first that applies.
#[derive(Clone, Copy, Debug, PartialEq, Eq, Error)]
pub enum AddFault {
    /// A name that another service has.
    #[error("another service has the name")]
    TakenName,
    /// A VID that another service has.
    #[error("another service has the VID")]
    TakenVid,
    /// One more service than the 64 that a bridge may have.
    #[error("there are 64 services")]
    TooMany,
    /// An allocation that failed.
    #[error("out of memory")]
    Memory,
}

impl From<AllocError> for AddFault {
    ghost from_gives = { λ _ e. e ≡ add_memory };

    fn from(_e: AllocError) -> AddFault {
        AddFault::Memory
    }
}

impl<T: Drop> From<AllocFailed<T>> for AddFault {
    ghost from_gives = { λ _ e. e ≡ add_memory };

    fn from(_e: AllocFailed<T>) -> AddFault {
        AddFault::Memory
    }
}

/// The fault of a port that was not made a member: the first that applies.
#[derive(Clone, Copy, Debug, PartialEq, Eq, Error)]
pub enum JoinFault {
    /// A number that no service has.
    #[error("no service has the number")]
    NoService,
    /// A port that has a role already.
    #[error("the port is something already")]
    Taken,
    /// An allocation that failed.
    #[error("out of memory")]
    Memory,
}

impl From<AllocError> for JoinFault {
    ghost from_gives = { λ _ e. e ≡ join_memory };

    fn from(_e: AllocError) -> JoinFault {
        JoinFault::Memory
    }
}

impl<T: Drop> From<AllocFailed<T>> for JoinFault {
    ghost from_gives = { λ _ e. e ≡ join_memory };

    fn from(_e: AllocFailed<T>) -> JoinFault {
        JoinFault::Memory
    }
}
