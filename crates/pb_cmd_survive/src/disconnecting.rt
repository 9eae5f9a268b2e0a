//! Whether a failure disconnects a service.

ghost use Rattle.std.specs.Prelude.{◌≡◌, ◌==◌, ◌&&◌, ◌||◌, not};
ghost use Rattle.std.specs.List.{list_any, zip};
ghost use Rattle.pb_cmd_survive.specs.Verdicts.{is_asked, is_judged, is_disconnected, is_lost};
ghost use Rattle.pb_cmd_survive.specs.Verdicts.{disconnects_view, disconnects};

use crate::criteria::Criteria;
use crate::impact::Impact;
use crate::sites::Site;
use crate::view::View;

/// Checks whether the port is the requested one, or no port is requested.
fn is_asked(from: Option<u8>, port: u8) -> bool
    ensures { result ≡ is_asked from port }
{
    match from {
        None => true,
        Some(asked) => port == asked,
    }
}

/// Checks whether neither of two ports is at a failed bridge, or the ports of a failed bridge count too.
fn is_judged(criteria: Criteria, one: Site, other: Site) -> bool
    ensures { result ≡ is_judged criteria one other }
{
    criteria.own || !(one.is_out || other.is_out)
}

/// Checks whether some requested port reached this one before the failure, and can't after it. `was` and `is` are the
/// port's site before and after.
pub(crate) fn is_lost(
    criteria: Criteria,
    before: &[Site],
    now: &[Site],
    was: Site,
    is: Site,
) -> bool
    ensures { result ≡ is_lost criteria (zip before.now now.now) (was, is) }
{
    before.iter().zip(now.iter()).any(|(old, new)| {
        is_asked(criteria.from, old.port)
            && is_judged(criteria, *new, is)
            && old.group == was.group
            && new.group != is.group
    })
}

/// Checks whether a failure disconnects a service, from its views before and after: two of its customer ports that
/// count reached each other before, and can't any more.
pub fn disconnects_view(criteria: Criteria, old: &View, new: &View) -> bool
    ensures { result ≡ disconnects_view criteria (old.now, new.now) }
{
    let before = old.sites.as_slice();
    let now = new.sites.as_slice();
    before
        .iter()
        .zip(now.iter())
        .any(|(was, is)| is_lost(criteria, before, now, *was, *is))
}

/// Checks whether a failure disconnects some service, as [`disconnects_view`] says, from the impact with nothing
/// down and that of the failure.
pub fn disconnects(criteria: Criteria, base: &Impact, impact: &Impact) -> bool
    ensures { result ≡ disconnects criteria base.now impact.now }
{
    base.views
        .as_slice()
        .iter()
        .zip(impact.views.as_slice().iter())
        .any(|(old, new)| disconnects_view(criteria, old, new))
}
