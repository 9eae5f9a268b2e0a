//! Convergence for commands that analyse a network.

ghost use Rattle.std.specs.Prelude.{◌≡◌, ◌++◌, string_bytes, IfOk, OnOk};
ghost use Rattle.pb_lan.specs.Plans.{IsSound};
ghost use Rattle.pb_converge.specs.Drives.{EndsAs};
ghost use Rattle.pb_converge.specs.Convergences.{fault_of, convergence_line, IsConvergenceIn};

use crate::convergence::Convergence;
use crate::converging::converge;
use crate::fault::DriveFault;
use pb_frame::Memory;
use pb_lan::Plan;
use pb_messages::CommandFault;
use pb_net::Net;
use std::alloc::Global;

/// The greatest number of events besides ticks: more than the places of a plan file take steps.
const MOST_EVENTS: u64 = 1_000_000_000;

/// Returns the command's fault for a network that could not be driven: `Memory`, or `Steps` if a place had to take too
/// many steps or too many events were due.
pub fn fault_of(fault: DriveFault) -> CommandFault
    ensures { result ≡ fault_of fault }
{
    match fault {
        DriveFault::Memory => CommandFault::Memory,
        DriveFault::Steps | DriveFault::Events => CommandFault::Steps,
    }
}

/// Drives the bridges of a network to convergence, with at most `ticks` ticks of each and 1,000,000,000 other events.
/// Returns `Given`, and does nothing, if the plan gives the states of the ports.
///
/// # Errors
///
/// `Memory` if an allocation failed, `Steps` if a place had to take more steps than the plan allows or more events were
/// due.
pub fn convergence_of(
    alloc: Global,
    net: &mut Net,
    plan: &Plan,
    ticks: u32,
) -> Result<Convergence, CommandFault>
    requires sound { IsSound plan.now }
    requires plan { net.old.plan ≡ plan.now }
    ensures plan { net.new.plan ≡ plan.now }
    ensures rest { IfOk result (λ rest. IsConvergenceIn plan.now.spanning rest) }
    ensures ok { IfOk result (λ rest. EndsAs ticks 1000000000 rest net.old net.new) }
{
    match converge(alloc, net, plan, ticks, MOST_EVENTS) {
        Ok(rest) => Ok(rest),
        Err(fault) => Err(fault_of(fault)),
    }
}

/// Appends the line that reports whether the bridges have converged, and after how many ticks of each. Appends nothing if
/// the plan gives the states of the ports.
///
/// # Errors
///
/// `Memory` if an allocation failed.
pub fn put_convergence(out: &mut String, rest: Convergence) -> Result<(), Memory>
    ensures { OnOk result (string_bytes out.new ≡ string_bytes out.old ++ convergence_line rest) }
{
    match rest {
        Convergence::Given => {}
        Convergence::Converged(ticks) => writeln!(out, "converged ticks {ticks}")?,
        Convergence::NotConverged(ticks) => writeln!(out, "not converged ticks {ticks}")?,
    }
    Ok(())
}
