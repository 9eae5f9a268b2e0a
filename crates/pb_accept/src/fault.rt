//! The reasons to refuse a file of acceptances.

ghost use Rattle.std.specs.Prelude.{◌≡◌};
ghost use Rattle.pb_accept.specs.Acceptances.{memory_fault, plan_fault_of};

use pb_frame::{Memory, Text};
use pb_service::PlanFault;
use std::alloc::{AllocError, AllocFailed};

/// A kind of parts of a plan.
#[derive(Clone, Copy, PartialEq, Eq, Debug)]
pub enum Part {
    Link,
    Bridge,
    Service,
}

/// The first rule that a file of acceptances breaks.
#[derive(PartialEq, Eq, Debug, Drop)]
pub enum AcceptFault {
    /// A rule of the file or of its keys, in the words of plan files. The path of a key begins with `accept[N].`, with
    /// N from 0.
    Rule(PlanFault),
    /// A table names a part that the plan lacks.
    NoSuch {
        /// The index of the table, from 0.
        index: usize,
        /// The kind of the part.
        part: Part,
        /// The name.
        name: Text,
    },
}

impl From<AllocError> for AcceptFault {
    ghost from_gives = { λ _ e. e ≡ memory_fault };

    fn from(_e: AllocError) -> AcceptFault {
        AcceptFault::Rule(PlanFault::Memory)
    }
}

impl<T: Drop> From<AllocFailed<T>> for AcceptFault {
    ghost from_gives = { λ _ e. e ≡ memory_fault };

    fn from(_e: AllocFailed<T>) -> AcceptFault {
        AcceptFault::Rule(PlanFault::Memory)
    }
}

impl From<Memory> for AcceptFault {
    ghost from_gives = { λ _ e. e ≡ memory_fault };

    fn from(_e: Memory) -> AcceptFault {
        AcceptFault::Rule(PlanFault::Memory)
    }
}

impl AcceptFault {
    /// Returns the same fault as one of a plan file: `NoSuch` with the name if the plan lacks a part.
    pub fn into_plan_fault(self) -> PlanFault
        ensures { result ≡ plan_fault_of self }
    {
        match self {
            AcceptFault::Rule(fault) => fault,
            AcceptFault::NoSuch {
                index: _,
                part: _,
                name,
            } => PlanFault::NoSuch(name),
        }
    }
}
