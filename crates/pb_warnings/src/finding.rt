//! The warnings of a plan.

ghost use Rattle.std.specs.Prelude.{◌≡◌, ◌++◌, ◌<◌, length, map, IfOk, OnOk};
ghost use Rattle.std.specs.List.{flat_map};
ghost use Rattle.pb_lan.specs.Numbering.{numbers_from};
ghost use Rattle.pb_lan.specs.Plans.{IsSound};
ghost use Rattle.pb_warnings.specs.Findings.{about_bridge, about_service, possible, AreThose, IsAdded};
ghost use Rattle.pb_warnings.specs.Rules.{Holds};
ghost use Rattle.pb_warnings.specs.declared.warning.Warning.TheVariants.{Unequal as unequal};

use crate::rules::holds;
use crate::warning::Warning;
use pb_frame::Memory;
use pb_lan::{BridgePlan, Limits, LinkPlan, Plan, ServicePlan};
use std::alloc::Global;

/// Appends the possible warnings about bridges.
fn put_bridges(out: &mut Vec<Warning>, bridges: &[BridgePlan]) -> Result<(), Memory>
    requires { length bridges.now < 256 }
    ensures { OnOk result (out.new.items ≡ out.old.items ++ flat_map about_bridge (numbers_from 1 bridges.now)) }
{
    for (place, _) in bridges.iter().enumerate() {
        out.push(Warning::Unlinked(place as u8 + 1))?;
        out.push(Warning::TooFar(place as u8 + 1))?;
    }
    Ok(())
}

/// Appends the possible warnings about links.
fn put_links(out: &mut Vec<Warning>, links: &[LinkPlan]) -> Result<(), Memory>
    requires { length links.now < 256 }
    ensures { OnOk result (out.new.items ≡ out.old.items ++ map unequal (numbers_from 1 links.now)) }
{
    for (place, _) in links.iter().enumerate() {
        out.push(Warning::Unequal(place as u8 + 1))?;
    }
    Ok(())
}

/// Appends the possible warnings about services.
fn put_services(out: &mut Vec<Warning>, services: &[ServicePlan]) -> Result<(), Memory>
    requires { length services.now < 256 }
    ensures { OnOk result (out.new.items ≡ out.old.items ++ flat_map about_service (numbers_from 1 services.now)) }
{
    for (place, _) in services.iter().enumerate() {
        out.push(Warning::NoPort(place as u8 + 1))?;
        out.push(Warning::OnePort(place as u8 + 1))?;
        out.push(Warning::Split(place as u8 + 1))?;
    }
    Ok(())
}

/// Returns all warnings that a plan can have.
///
/// # Errors
///
/// `Memory` if an allocation failed.
fn possible(alloc: Global, plan: &Plan) -> Result<Vec<Warning>, Memory>
    requires { IsSound plan.now }
    ensures { IfOk result (λ all. all.items ≡ possible plan.now) }
{
    let mut all = Vec::new(alloc);
    all.push(Warning::NeverTicks)?;
    put_bridges(&mut all, plan.bridges.as_slice())?;
    put_links(&mut all, plan.links.as_slice())?;
    put_services(&mut all, plan.services.as_slice())?;
    Ok(all)
}

/// Adds a warning to those found if it is due.
fn add_due(
    found: &mut Vec<Warning>,
    plan: &Plan,
    limits: &Limits,
    warning: Warning,
) -> Result<(), Memory>
    requires { IsSound plan.now }
    ensures { OnOk result (IsAdded (Holds plan.now limits.now warning) warning found.old.items found.new.items) }
{
    if !holds(plan, limits, warning) {
        return Ok(());
    }
    found.push(warning)?;
    Ok(())
}

/// Returns those of these warnings that are due.
fn due(alloc: Global, plan: &Plan, limits: &Limits, all: &[Warning]) -> Result<Vec<Warning>, Memory>
    requires { IsSound plan.now }
    ensures { IfOk result (λ found. AreThose (Holds plan.now limits.now) all.now found.items) }
{
    let mut found = Vec::new(alloc);
    for warning in all {
        add_due(&mut found, plan, limits, *warning)?;
    }
    Ok(found)
}

/// Returns the warnings about a sound plan with these limits of a run: about the network, its bridges, its links and
/// its services, each in the plan's order.
///
/// # Errors
///
/// `Memory` if an allocation failed.
pub fn warnings_of(alloc: Global, plan: &Plan, limits: &Limits) -> Result<Vec<Warning>, Memory>
    requires { IsSound plan.now }
    ensures { IfOk result (λ found. AreThose (Holds plan.now limits.now) (possible plan.now) found.items) }
{
    let all = possible(alloc, plan)?;
    due(alloc, plan, limits, all.as_slice())
}
