//! What got better, and what got worse.

ghost use Rattle.std.specs.Prelude.{◌≡◌};
ghost use Rattle.std.specs.List.{list_any};
ghost use Rattle.pb_cmd_diff.specs.Verdicts.{forms_loop, ends_loop, harms, helps, stops_converging, starts_converging};
ghost use Rattle.pb_cmd_diff.specs.Verdicts.{is_worse, is_better, worsens};

use crate::effect::{Effect, ServiceChange};
use crate::member::{are_disconnected, are_joined};
use pb_cmd_survive::is_converged;

/// Checks whether the service forms a loop in NEW, and not in OLD.
fn forms_loop(change: &ServiceChange) -> bool
    ensures { result ≡ forms_loop change.now }
{
    change.was_forest && !change.is_forest
}

/// Checks whether the service forms a loop in OLD, and not in NEW.
fn ends_loop(change: &ServiceChange) -> bool
    ensures { result ≡ ends_loop change.now }
{
    change.is_forest && !change.was_forest
}

/// Checks whether two ports of the service no longer reach each other, or it now forms a loop.
fn harms(change: &ServiceChange) -> bool
    ensures { result ≡ harms change.now }
{
    are_disconnected(change.members.as_slice()) || forms_loop(change)
}

/// Checks whether two ports of the service now reach each other, or it no longer forms a loop.
fn helps(change: &ServiceChange) -> bool
    ensures { result ≡ helps change.now }
{
    are_joined(change.members.as_slice()) || ends_loop(change)
}

/// Checks whether the bridges converge in OLD, and not in NEW.
fn stops_converging(effect: &Effect) -> bool
    ensures { result ≡ stops_converging effect.now }
{
    let (was, is) = (is_converged(effect.old), is_converged(effect.new));
    was && !is
}

/// Checks whether the bridges converge in NEW, and not in OLD.
fn starts_converging(effect: &Effect) -> bool
    ensures { result ≡ starts_converging effect.now }
{
    let (was, is) = (is_converged(effect.old), is_converged(effect.new));
    is && !was
}

/// Checks whether some service got worse.
fn harms_some(effect: &Effect) -> bool
    ensures { result ≡ list_any harms effect.now.services }
{
    effect
        .services
        .as_slice()
        .iter()
        .any(|change| harms(change))
}

/// Checks whether some service got better.
fn helps_some(effect: &Effect) -> bool
    ensures { result ≡ list_any helps effect.now.services }
{
    effect
        .services
        .as_slice()
        .iter()
        .any(|change| helps(change))
}

/// Checks whether some service got worse, or the bridges no longer converge.
pub(crate) fn is_worse(effect: &Effect) -> bool
    ensures { result ≡ is_worse effect.now }
{
    let (harms, stops) = (harms_some(effect), stops_converging(effect));
    harms || stops
}

/// Checks whether some service got better, or the bridges now converge.
pub(crate) fn is_better(effect: &Effect) -> bool
    ensures { result ≡ is_better effect.now }
{
    let (helps, starts) = (helps_some(effect), starts_converging(effect));
    helps || starts
}

/// Checks whether something got worse under a failure.
fn worsens_some(effects: &[Effect]) -> bool
    ensures { result ≡ list_any is_worse effects.now }
{
    effects.iter().any(|effect| is_worse(effect))
}

/// Checks whether something got worse, with nothing down or under a failure.
pub(crate) fn worsens(base: &Effect, effects: &[Effect]) -> bool
    ensures { result ≡ worsens base.now effects.now }
{
    let (calm, failing) = (is_worse(base), worsens_some(effects));
    calm || failing
}
