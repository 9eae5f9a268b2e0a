//! The reasons why a network is not run, or not reported.

ghost use Rattle.std.specs.Prelude.{◌≡◌, ◌⊎◌};
ghost use Rattle.pb_cmd_run.specs.Faults.{of_cause, of_command};
ghost use Rattle.pb_cmd_run.specs.declared.network_fault.NetworkFault.TheVariants.{Memory as memory_fault};
ghost use Rattle.pb_cmd_run.specs.declared.network_fault.NetworkFault.TheVariants.{Path as path_fault};

use pb_frame::Memory;
use pb_messages::CommandFault;
use pb_run::RunCause;
use pb_run_ports::OpenFault;
use std::alloc::{AllocError, AllocFailed};
use thiserror::Error;

/// A reason why the network of a plan file is not run, or its run not reported.
#[derive(Clone, Copy, Debug, PartialEq, Eq, Error)]
pub enum NetworkFault {
    /// A port's file can't be opened, made or emptied, its socket can't be made, connected to or bound, a file has two
    /// uses, a port would bind an address that is not loopback and may not, or the control socket can't be made.
    /// Nothing has run.
    #[error("path")]
    Path,
    /// The report, or the line for a refused plan file, can't be written.
    #[error("write")]
    Write,
    /// An allocation failed: before the run, for the plan, the ports or the workers, or after it, for the report.
    #[error("memory")]
    Memory,
    /// A thread can't be started. Nothing has run.
    #[error("spawn")]
    Spawn,
    /// There are not as many ports as customer ports in the plan.
    #[error("ports")]
    Ports,
}

impl From<CommandFault> for NetworkFault {
    ghost from_gives = { λ fault e. e ≡ of_command fault };

    fn from(fault: CommandFault) -> NetworkFault {
        match fault {
            CommandFault::Write => NetworkFault::Write,
            _ => NetworkFault::Memory,
        }
    }
}

impl From<RunCause> for NetworkFault {
    ghost from_gives = { λ cause e. e ≡ of_cause cause };

    fn from(cause: RunCause) -> NetworkFault {
        match cause {
            RunCause::PortCount => NetworkFault::Ports,
            RunCause::Memory => NetworkFault::Memory,
            RunCause::Spawn => NetworkFault::Spawn,
        }
    }
}

impl From<OpenFault> for NetworkFault {
    ghost from_gives = { λ _ e. (e ≡ path_fault) ⊎ (e ≡ memory_fault) };

    fn from(fault: OpenFault) -> NetworkFault {
        match fault {
            OpenFault::Memory => NetworkFault::Memory,
            _ => NetworkFault::Path,
        }
    }
}

impl From<Memory> for NetworkFault {
    ghost from_gives = { λ _ e. e ≡ memory_fault };

    fn from(_memory: Memory) -> NetworkFault {
        NetworkFault::Memory
    }
}

impl From<AllocError> for NetworkFault {
    ghost from_gives = { λ _ e. e ≡ memory_fault };

    fn from(_e: AllocError) -> NetworkFault {
        NetworkFault::Memory
    }
}

impl<T: Drop> From<AllocFailed<T>> for NetworkFault {
    ghost from_gives = { λ _ e. e ≡ memory_fault };

    fn from(_e: AllocFailed<T>) -> NetworkFault {
        NetworkFault::Memory
    }
}
