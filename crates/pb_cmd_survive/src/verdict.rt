//! Whether a network is healthy with nothing down, and whether a failure is harmless.

ghost use Rattle.std.specs.Prelude.{◌≡◌, ◌==◌, ◌&&◌, not, length, nat_lt};
ghost use Rattle.std.specs.List.{list_any, list_all};
ghost use Rattle.pb_cmd_survive.specs.Verdicts.{is_converged, are_forests, is_apart, is_split, is_healthy_service};
ghost use Rattle.pb_cmd_survive.specs.Verdicts.{is_healthy};
ghost use Rattle.pb_cmd_survive.specs.Verdicts.{is_harmless, is_left_out};

use crate::criteria::Criteria;
use crate::disconnecting::disconnects;
use crate::impact::Impact;
use crate::sites::Site;
use crate::view::View;
use pb_converge::Convergence;

/// Checks whether the bridges converged, or had nothing to decide.
pub fn is_converged(convergence: Convergence) -> bool
    ensures { result ≡ is_converged convergence }
{
    match convergence {
        Convergence::Given | Convergence::Converged(_) => true,
        Convergence::NotConverged(_) => false,
    }
}

/// Checks whether the active links of each service are a forest: no service has a forwarding loop.
pub fn are_forests(views: &[View]) -> bool
    ensures { result ≡ are_forests views.now }
{
    views.iter().all(|view| view.is_forest)
}

/// Checks whether one of the ports is in another group than this one.
fn is_apart(sites: &[Site], one: Site) -> bool
    ensures { result ≡ is_apart sites.now one }
{
    sites.iter().any(|other| one.group != other.group)
}

/// Checks whether two of a service's customer ports are in different groups, and can't reach each other.
pub fn is_split(sites: &[Site]) -> bool
    ensures { result ≡ is_split sites.now }
{
    sites.iter().any(|one| is_apart(sites, *one))
}

/// Checks whether a service has no forwarding loop and two ports or more, all in one group.
pub(crate) fn is_healthy_service(view: &View) -> bool
    ensures { result ≡ is_healthy_service view.now }
{
    view.is_forest && 1 < view.sites.as_slice().len() && !is_split(view.sites.as_slice())
}

/// Checks whether each service is healthy.
fn are_healthy(views: &[View]) -> bool
    ensures { result ≡ list_all is_healthy_service views.now }
{
    views.iter().all(|view| is_healthy_service(view))
}

/// Checks whether the bridges converge, and at least one service is analysed, and each is healthy.
pub(crate) fn is_healthy(base: &Impact) -> bool
    ensures { result ≡ is_healthy base.now }
{
    let views = base.views.as_slice();
    is_converged(base.convergence) && 0 < views.len() && are_healthy(views)
}

/// Checks whether a failure is harmless: the bridges converge, no service has a loop, and none is disconnected.
fn is_harmless(criteria: Criteria, base: &Impact, impact: &Impact) -> bool
    ensures { result ≡ is_harmless criteria base.now impact.now }
{
    is_converged(impact.convergence)
        && are_forests(impact.views.as_slice())
        && !disconnects(criteria, base, impact)
}

/// Checks whether the report leaves a failure out: it is harmless, and not all failures are asked for.
pub(crate) fn is_left_out(criteria: Criteria, base: &Impact, impact: &Impact) -> bool
    ensures { result ≡ is_left_out criteria base.now impact.now }
{
    !criteria.all && is_harmless(criteria, base, impact)
}
