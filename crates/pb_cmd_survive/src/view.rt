//! The state of services in a shape.

ghost use Rattle.std.specs.Prelude.{◌≡◌, ◌↔◌, IsTrue, IfOk};
ghost use Rattle.pb_forest.specs.ServiceVids.{vid_numbered};
ghost use Rattle.pb_lan.specs.Forests.{IsForest};
ghost use Rattle.pb_lan.specs.Plans.{IsSound};
ghost use Rattle.pb_cmd_survive.specs.Failures.{is_out};
ghost use Rattle.pb_cmd_survive.specs.Views.{IsView, AreViews};

use crate::failure::Failure;
use crate::sites::{Site, groups};
use pb_forest::forest;
use pb_frame::Memory;
use pb_lan::{Plan, Seq, Shape};
use std::alloc::Global;

/// The state of a service in a shape.
#[derive(PartialEq, Debug, Drop)]
pub struct View {
    /// Its number in the plan.
    pub service: u8,
    /// Whether its active links are a forest, that is, form no loop.
    pub is_forest: bool,
    /// Its customer ports in the plan's order, each with its group.
    pub sites: Seq<Site>,
}

/// Checks whether the active links of a service are a forest.
fn is_forest(alloc: Global, plan: &Plan, shape: &Shape, service: u8) -> Result<bool, Memory>
    requires { IsSound plan.now }
    ensures { IfOk result (λ yes. IsTrue yes ↔ IsForest plan.now shape.now (vid_numbered plan.now service)) }
{
    match forest(alloc, shape, plan, service)? {
        Some(_) => Ok(true),
        None => Ok(false),
    }
}

/// Returns the state of a service.
fn view_of(
    alloc: Global,
    plan: &Plan,
    shape: &Shape,
    names: &[String],
    failure: Failure,
    service: u8,
) -> Result<View, Memory>
    requires { IsSound plan.now }
    ensures { IfOk result (IsView plan.now shape.now (is_out plan.now names.now failure) service) }
{
    let is_forest = is_forest(alloc, plan, shape, service)?;
    let sites = groups(alloc, plan, shape, names, failure, service)?;
    Ok(View {
        service,
        is_forest,
        sites: Seq::from_vec(sites),
    })
}

/// Returns the state of each of these services, by number, in the shape at the end of a failure.
///
/// `names` are those of what is down before the failure: the customer ports of a bridge with such a name are alone, as
/// those of a failed bridge.
///
/// # Errors
///
/// `Memory` if an allocation failed.
pub fn views(
    alloc: Global,
    plan: &Plan,
    shape: &Shape,
    names: &[String],
    failure: Failure,
    services: &[u8],
) -> Result<Seq<View>, Memory>
    requires { IsSound plan.now }
    ensures { IfOk result (AreViews plan.now shape.now (is_out plan.now names.now failure) services.now) }
{
    let mut views = Vec::with_capacity(alloc, services.len())?;
    for service in services {
        views.push(view_of(alloc, plan, shape, names, failure, *service)?)?;
    }
    Ok(Seq::from_vec(views))
}
