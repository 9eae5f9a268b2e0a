//! What `survive` says of a failure, and the states of all ports then.

ghost use Rattle.std.specs.List.{AllZip};
ghost use Rattle.std.specs.Prelude.{◌≡◌, IfOk};
ghost use Rattle.pb_cmd_survive.specs.Impacts.{IsDriven, IsStanding};
ghost use Rattle.pb_cmd_report.specs.Analyses.{IsAnalysisOn, IsSeen};

use pb_cmd_survive::{Failure, FailureProgress, Impact, Standing, drive_into, look_each, views};
use pb_converge::{Convergence, DriveFault, shape_of};
use pb_lan::Shape;
use pb_net::Net;
use std::alloc::Global;
use std::thread::Threads;

/// The impact of a failure, and the states of all ports then.
#[derive(PartialEq, Debug, Drop)]
pub struct Analysis {
    /// The failure, whether the bridges converged after it, and the state of each service then.
    pub impact: Impact,
    /// The states of all ports then.
    pub shape: Shape,
}

/// Returns the analysis of a failure from the network after it.
fn seen_in(
    alloc: Global,
    standing: &Standing<'_>,
    services: &[u8],
    failure: Failure,
    net: Net,
    convergence: Convergence,
) -> Result<Analysis, DriveFault>
    requires up { IsStanding standing.now }
    requires planned { net.plan ≡ standing.now.plan.now }
    ensures { IfOk result (IsSeen standing.now.plan.now standing.now.names.now services.now failure convergence net) }
{
    let plan = standing.plan;
    let tallies = net.tallies()?;
    let shape = shape_of(alloc, plan, &tallies)?;
    let views = views(alloc, plan, &shape, standing.names, failure, services)?;
    Ok(Analysis {
        impact: Impact {
            failure,
            convergence,
            views,
        },
        shape,
    })
}

/// Returns the analysis of a failure on a network that is up, for the services with these numbers: the impact that
/// [`pb_cmd_survive::look_at`] describes, and the states of all ports at its end.
///
/// # Errors
///
/// `Memory` if an allocation failed, also in a bridge, which then drops what it can't store. Else `Steps` if a place
/// would take more steps than the plan allows, and `Events` if more events are due than the network's patience allows.
pub(crate) fn look_at(
    alloc: Global,
    standing: &Standing<'_>,
    services: &[u8],
    failure: Failure,
) -> Result<Analysis, DriveFault>
    requires { IsStanding standing.now }
    ensures { IfOk result (IsAnalysisOn standing.now services.now failure) }
{
    let (net, convergence) = drive_into(alloc, standing, failure)?;
    seen_in(alloc, standing, services, failure, net, convergence)
}

/// Returns the analyses of several failures, in their order, each as [`look_at`] returns it.
///
/// Failures are analysed in parallel, as [`look_each`] does. `progress.looked` is called after each failure.
///
/// # Errors
///
/// Those of [`look_at`], and `Memory` if the list can't be allocated. After the first fault no further analysis begins,
/// and a fault that was met is returned.
pub(crate) fn look_at_all<R: Threads + Sync, V: FailureProgress>(
    rt: &R,
    alloc: Global,
    standing: &Standing<'_>,
    services: &[u8],
    failures: &[Failure],
    progress: &V,
) -> Result<Vec<Analysis>, DriveFault>
    requires { IsStanding standing.now }
    ensures { IfOk result (λ analyses. AllZip (IsAnalysisOn standing.now services.now) failures.now analyses.items) }
{
    let look = |failure: Failure| -> Result<Analysis, DriveFault>
        requires { IsStanding standing.now }
        ensures { IfOk result (IsAnalysisOn standing.entry.now services.entry.now failure) }
    { look_at(alloc, standing, services, failure) };
    look_each(rt, alloc, failures, &look, progress)
}
