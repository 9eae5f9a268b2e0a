//! Drives a network to quiescence (`drain`) and its bridges to convergence (`converge`) and on (`stand`), over pb_net.
//! `disables` disables the links, bridges and ports that a command's arguments name first. Begin reading at `converge`.
#![tactic(auto)]

mod convergence;
mod converging;
mod draining;
mod falling;
mod fault;
mod limit;
mod nets;
mod outcomes;
mod recurrence;
mod suggesting;

pub use convergence::Convergence;
pub use converging::{converge, stand};
pub use draining::drain;
pub use falling::{DownFault, disables};
pub use fault::DriveFault;
pub use limit::fault_in;
pub use nets::{check_memory, check_tallies, copied, fresh, shape_of};
pub use outcomes::{convergence_of, fault_of, put_convergence};
pub use suggesting::suggestion;
