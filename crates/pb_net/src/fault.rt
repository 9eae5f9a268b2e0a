//! The reason for refusing an event.

ghost use Rattle.std.specs.Prelude.{◌≡◌};
ghost use Rattle.pb_net.specs.declared.fault.NetFault.{NetFault};
ghost use Rattle.pb_net.specs.declared.fault.NetFault.TheVariants.{Memory as memory_fault, StepLimit as limit_fault};
ghost use Rattle.pb_net.specs.Faults.{fault_of};

use pb_frame::Memory;
use pb_relay::BridgeFault;
use std::alloc::AllocError;
use thiserror::Error;

/// The reason for refusing an event. The network is unchanged then.
#[derive(Clone, Copy, Debug, PartialEq, Eq, Error)]
pub enum NetFault {
    /// The place has taken as many steps as the plan allows.
    #[error("the list holds the plan's number of steps")]
    StepLimit,
    /// An allocation failed.
    #[error("out of memory")]
    Memory,
    /// A number of the event names no place or port, or the port of an `Admin` is no provider port.
    #[error("there is no such place")]
    NoSuch,
}

impl From<AllocError> for NetFault {
    ghost from_gives = { λ _ e. e ≡ memory_fault };

    fn from(_e: AllocError) -> NetFault {
        NetFault::Memory
    }
}

impl From<Memory> for NetFault {
    ghost from_gives = { λ _ e. e ≡ memory_fault };

    fn from(_e: Memory) -> NetFault {
        NetFault::Memory
    }
}

impl From<BridgeFault> for NetFault {
    ghost from_gives = { λ f e. e ≡ fault_of f };

    fn from(fault: BridgeFault) -> NetFault {
        match fault {
            BridgeFault::StepLimit => NetFault::StepLimit,
            BridgeFault::Memory => NetFault::Memory,
        }
    }
}
