//! What acceptances say of failures, and which of them are stale.

ghost use Rattle.std.specs.Prelude.{◌≡◌, ◌==◌, ◌&&◌, is_some};
ghost use Rattle.std.specs.List.{list_any, zip};
ghost use Rattle.pb_cmd_survive.specs.Acceptances.{is_named, covers, accepts, is_accepted, is_needed_for, is_needed};
ghost use Rattle.pb_cmd_survive.specs.Acceptances.{are_analysed, is_from_all, is_tried, is_stale, is_untried};

use crate::criteria::Criteria;
use crate::disconnecting::disconnects_view;
use crate::failure::Failure;
use crate::impact::Impact;
use crate::view::View;
use pb_accept::{Acceptance, NamedFailure};
use pb_lan::Plan;

/// Checks whether the named failure is this one.
fn is_named(named: NamedFailure, failure: Failure) -> bool
    ensures { result ≡ is_named named failure }
{
    match (named, failure) {
        (NamedFailure::Link(named), Failure::Link(number)) => number == named,
        (NamedFailure::Bridge(named), Failure::Bridge(number)) => number == named,
        (NamedFailure::Pair(one, other), Failure::Pair(first, second)) => {
            first == one && second == other
        }
        _ => false,
    }
}

/// Checks whether the service is the named one, or none is named.
fn covers(named: Option<u8>, service: u8) -> bool
    ensures { result ≡ covers named service }
{
    match named {
        None => true,
        Some(named) => service == named,
    }
}

/// Checks whether an acceptance accepts that a failure disconnects a service.
fn accepts(failure: Failure, service: u8, acceptance: Acceptance) -> bool
    ensures { result ≡ accepts failure service acceptance }
{
    is_named(acceptance.failure, failure) && covers(acceptance.service, service)
}

/// Checks whether one of the acceptances accepts that a failure disconnects a service.
pub(crate) fn is_accepted(acceptances: &[Acceptance], failure: Failure, service: u8) -> bool
    ensures { result ≡ is_accepted acceptances.now failure service }
{
    acceptances
        .iter()
        .any(|acceptance| accepts(failure, service, *acceptance))
}

/// Checks whether a failure disconnects a service, and the acceptance accepts that.
fn is_needed_for(criteria: Criteria, base: &Impact, acceptance: Acceptance, impact: &Impact) -> bool
    ensures { result ≡ is_needed_for criteria base.now acceptance impact.now }
{
    base.views
        .as_slice()
        .iter()
        .zip(impact.views.as_slice().iter())
        .any(|(old, new)| {
            disconnects_view(criteria, old, new) && accepts(impact.failure, new.service, acceptance)
        })
}

/// Checks whether one of the failures disconnects a service, and the acceptance accepts that.
fn is_needed(criteria: Criteria, base: &Impact, impacts: &[Impact], acceptance: Acceptance) -> bool
    ensures { result ≡ is_needed criteria base.now impacts.now acceptance }
{
    impacts
        .iter()
        .any(|impact| is_needed_for(criteria, base, acceptance, impact))
}

/// Checks whether a service was analysed.
fn is_analysed(views: &[View], service: u8) -> bool
    ensures { result ≡ list_any (λ v. v.service == service) views.now }
{
    views.iter().any(|view| view.service == service)
}

/// Checks whether each service that is covered was analysed.
fn are_analysed(plan: &Plan, base: &Impact, named: Option<u8>) -> bool
    ensures { result ≡ are_analysed plan.now base.now named }
{
    let views = base.views.as_slice();
    match named {
        None => views.len() == plan.services.len(),
        Some(named) => is_analysed(views, named),
    }
}

/// Checks whether all customer ports count.
fn is_from_all(criteria: Criteria) -> bool
    ensures { result ≡ is_from_all criteria }
{
    !criteria.from.is_some()
}

/// Checks whether the named failure is one of those that were tried.
fn has_failed(impacts: &[Impact], named: NamedFailure) -> bool
    ensures { result ≡ list_any (λ o. is_named named o.failure) impacts.now }
{
    impacts.iter().any(|impact| is_named(named, impact.failure))
}

/// Checks whether an acceptance was tried: its failure was, and its services were analysed from all customer ports.
fn is_tried(
    plan: &Plan,
    criteria: Criteria,
    base: &Impact,
    impacts: &[Impact],
    acceptance: Acceptance,
) -> bool
    ensures { result ≡ is_tried plan.now criteria base.now impacts.now acceptance }
{
    is_from_all(criteria)
        && are_analysed(plan, base, acceptance.service)
        && has_failed(impacts, acceptance.failure)
}

/// Checks whether an acceptance was tried, and nothing that it accepts is disconnected any more.
pub(crate) fn is_stale(
    plan: &Plan,
    criteria: Criteria,
    base: &Impact,
    impacts: &[Impact],
    acceptance: Acceptance,
) -> bool
    ensures { result ≡ is_stale plan.now criteria base.now impacts.now acceptance }
{
    is_tried(plan, criteria, base, impacts, acceptance)
        && !is_needed(criteria, base, impacts, acceptance)
}

/// Checks whether an acceptance is neither needed nor tried.
pub(crate) fn is_untried(
    plan: &Plan,
    criteria: Criteria,
    base: &Impact,
    impacts: &[Impact],
    acceptance: Acceptance,
) -> bool
    ensures { result ≡ is_untried plan.now criteria base.now impacts.now acceptance }
{
    !is_tried(plan, criteria, base, impacts, acceptance)
        && !is_needed(criteria, base, impacts, acceptance)
}
