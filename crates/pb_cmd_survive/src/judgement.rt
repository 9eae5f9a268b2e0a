//! Whether a network survives but for what is accepted.

ghost use Rattle.std.specs.Prelude.{◌≡◌, ◌&&◌, not};
ghost use Rattle.std.specs.List.{list_any, list_all, zip};
ghost use Rattle.pb_cmd_survive.specs.Acceptances.{is_stale};
ghost use Rattle.pb_cmd_survive.specs.Judgements.{harms_view, harms, is_tolerable, is_accepted_impact};
ghost use Rattle.pb_cmd_survive.specs.Judgements.{survives, are_current};

use crate::acceptances::{is_accepted, is_stale};
use crate::criteria::Criteria;
use crate::disconnecting::{disconnects, disconnects_view};
use crate::failure::Failure;
use crate::impact::Impact;
use crate::verdict::{are_forests, is_converged, is_healthy};
use crate::view::View;
use pb_accept::Acceptance;
use pb_lan::Plan;

/// Checks whether a failure disconnects a service and that is not accepted, from the views before and after.
fn harms_view(
    criteria: Criteria,
    acceptances: &[Acceptance],
    failure: Failure,
    old: &View,
    new: &View,
) -> bool
    ensures { result ≡ harms_view criteria acceptances.now failure (old.now, new.now) }
{
    disconnects_view(criteria, old, new) && !is_accepted(acceptances, failure, new.service)
}

/// Checks whether a failure disconnects some service and that is not accepted.
pub(crate) fn harms(
    criteria: Criteria,
    acceptances: &[Acceptance],
    base: &Impact,
    impact: &Impact,
) -> bool
    ensures { result ≡ harms criteria acceptances.now base.now impact.now }
{
    base.views
        .as_slice()
        .iter()
        .zip(impact.views.as_slice().iter())
        .any(|(old, new)| harms_view(criteria, acceptances, impact.failure, old, new))
}

/// Checks whether a failure is tolerable: the bridges converge, no service has a loop, and each disconnection is
/// accepted.
pub(crate) fn is_tolerable(
    criteria: Criteria,
    acceptances: &[Acceptance],
    base: &Impact,
    impact: &Impact,
) -> bool
    ensures { result ≡ is_tolerable criteria acceptances.now base.now impact.now }
{
    is_converged(impact.convergence)
        && are_forests(impact.views.as_slice())
        && !harms(criteria, acceptances, base, impact)
}

/// Checks whether a failure is accepted: it disconnects a service, and is tolerable.
pub(crate) fn is_accepted_impact(
    criteria: Criteria,
    acceptances: &[Acceptance],
    base: &Impact,
    impact: &Impact,
) -> bool
    ensures { result ≡ is_accepted_impact criteria acceptances.now base.now impact.now }
{
    disconnects(criteria, base, impact) && is_tolerable(criteria, acceptances, base, impact)
}

/// Checks whether each failure is tolerable.
fn are_tolerable(
    criteria: Criteria,
    acceptances: &[Acceptance],
    base: &Impact,
    impacts: &[Impact],
) -> bool
    ensures { result ≡ list_all (is_tolerable criteria acceptances.now base.now) impacts.now }
{
    impacts
        .iter()
        .all(|impact| is_tolerable(criteria, acceptances, base, impact))
}

/// Checks whether the network is healthy with nothing down, and each failure is tolerable.
pub(crate) fn survives(
    criteria: Criteria,
    acceptances: &[Acceptance],
    base: &Impact,
    impacts: &[Impact],
) -> bool
    ensures { result ≡ survives criteria acceptances.now base.now impacts.now }
{
    is_healthy(base) && are_tolerable(criteria, acceptances, base, impacts)
}

/// Checks whether some acceptance is stale.
fn any_stale(
    plan: &Plan,
    criteria: Criteria,
    acceptances: &[Acceptance],
    base: &Impact,
    impacts: &[Impact],
) -> bool
    ensures { result ≡ list_any (is_stale plan.now criteria base.now impacts.now) acceptances.now }
{
    acceptances.iter().any(|acceptance| is_stale(plan, criteria, base, impacts, *acceptance))
}

/// Checks whether no acceptance is stale, or stale ones are allowed.
pub(crate) fn are_current(
    plan: &Plan,
    criteria: Criteria,
    strict: bool,
    acceptances: &[Acceptance],
    base: &Impact,
    impacts: &[Impact],
) -> bool
    ensures { result ≡ are_current plan.now criteria strict acceptances.now base.now impacts.now }
{
    !(strict && any_stale(plan, criteria, acceptances, base, impacts))
}
