//! The analysis of failures.

ghost use Rattle.std.specs.List.{AllZip};
ghost use Rattle.std.specs.Prelude.{◌≡◌, IfOk};
ghost use Rattle.pb_converge.specs.Enough.{HasEnoughMemory};
ghost use Rattle.pb_lan.specs.Plans.{IsSound};
ghost use Rattle.pb_cmd_survive.specs.Impacts.{IsImpactOn, IsStanding};
ghost use Rattle.pb_lan.specs.LastShapes.{last_shape};
ghost use Rattle.pb_cmd_survive.specs.Failures.{is_out};
ghost use Rattle.pb_cmd_survive.specs.Views.{AreViews};

use crate::drive::drive_into;
use crate::failure::Failure;
use crate::impact::Impact;
use crate::parallel::look_each;
use crate::progress::FailureProgress;
use crate::standing::Standing;
use crate::view::{View, views};
use pb_converge::{DriveFault, shape_of};
use pb_frame::Memory;
use pb_lan::{Plan, Seq};
use pb_net::Tallies;
use std::alloc::Global;
use std::thread::Threads;

/// Returns the state of services after the counted steps.
fn last_views(
    alloc: Global,
    plan: &Plan,
    tallies: &Tallies,
    names: &[String],
    failure: Failure,
    services: &[u8],
) -> Result<Seq<View>, Memory>
    requires { IsSound plan.now }
    ensures enough { IfOk result (λ _. HasEnoughMemory tallies.now) }
    ensures views { IfOk result (AreViews plan.now (last_shape plan.now tallies.now) (is_out plan.now names.now failure)
        services.now) }
{
    let shape = shape_of(alloc, plan, tallies)?;
    views(alloc, plan, &shape, names, failure, services)
}

/// Returns the impact of a failure on a network that is up, for the services with these numbers.
///
/// Both ends of each link that fails are disabled in a copy of the network, and the bridges converge again (IEEE
/// 802.1D-2004 clause 17). The ticks of the impact are those after the failure. With [`Failure::Nothing`] the impact is
/// that of the network when its bridges had converged. If the plan gives the states of the ports, no bridge ticks: a
/// disabled port is Discarding, and all others keep their state. The active links and the groups are those of the
/// states at the end. The customer ports of a bridge that fails, or was down before by its name, reach only themselves.
/// No allocation failed before.
///
/// # Errors
///
/// `Memory` if an allocation failed, also in a bridge, which then drops what it can't store. Else `Steps` if a place
/// would take more steps than the plan allows, and `Events` if more events are due than the network's patience allows.
pub fn look_at(
    alloc: Global,
    standing: &Standing<'_>,
    services: &[u8],
    failure: Failure,
) -> Result<Impact, DriveFault>
    requires { IsStanding standing.now }
    ensures { IfOk result (IsImpactOn standing.now services.now failure) }
{
    let (net, convergence) = drive_into(alloc, standing, failure)?;
    let tallies = net.tallies()?;
    let views = last_views(
        alloc,
        standing.plan,
        &tallies,
        standing.names,
        failure,
        services,
    )?;
    Ok(Impact {
        failure,
        convergence,
        views,
    })
}

/// Returns the impacts of several failures, in their order, each as [`look_at`] returns it.
///
/// Failures are analysed in parallel, as [`look_each`] does. `progress.looked` is called after each failure.
///
/// # Errors
///
/// Those of [`look_at`], and `Memory` if the list can't be allocated. After the first fault no further analysis begins,
/// and a fault that was met is returned.
pub fn look_at_all<R: Threads + Sync, V: FailureProgress>(
    rt: &R,
    alloc: Global,
    standing: &Standing<'_>,
    services: &[u8],
    failures: &[Failure],
    progress: &V,
) -> Result<Vec<Impact>, DriveFault>
    requires { IsStanding standing.now }
    ensures { IfOk result (λ impacts. AllZip (IsImpactOn standing.now services.now) failures.now impacts.items) }
{
    let look = |failure: Failure| -> Result<Impact, DriveFault>
        requires { IsStanding standing.now }
        ensures { IfOk result (IsImpactOn standing.entry.now services.entry.now failure) }
    { look_at(alloc, standing, services, failure) };
    look_each(rt, alloc, failures, &look, progress)
}
