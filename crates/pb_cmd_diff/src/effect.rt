//! What a failure does in each of two plans.

ghost use Rattle.std.specs.Prelude.{◌≡◌, map, IfOk};
ghost use Rattle.std.specs.List.{AllZip, zip};
ghost use Rattle.pb_lan.specs.Plans.{IsSound};
ghost use Rattle.pb_cmd_diff.specs.Effects.{change_of, effect_of, AreSides, IsEffectOn};

use crate::case::Case;
use crate::member::{Member, members};
use pb_cmd_survive::{FailureProgress, Impact, Standing, View, look_at, look_each};
use pb_converge::{Convergence, DriveFault};
use pb_frame::{Memory, Seq};
use pb_lan::Plan;
use std::alloc::Global;
use std::thread::Threads;

/// A service in two networks.
#[derive(PartialEq, Debug, Drop)]
pub struct ServiceChange {
    /// Its number in OLD.
    pub service: u8,
    /// The customer ports that it has in both plans.
    pub members: Seq<Member>,
    /// Whether its active links in OLD are a forest, that is, form no loop.
    pub was_forest: bool,
    /// Whether its active links in NEW are a forest.
    pub is_forest: bool,
}

/// What a failure does in each of two plans.
#[derive(PartialEq, Debug, Drop)]
pub struct Effect {
    /// The failure.
    pub what: Case,
    /// Whether the bridges of OLD converged after it, and after how many ticks of each.
    pub old: Convergence,
    /// Whether those of NEW converged.
    pub new: Convergence,
    /// The services to compare.
    pub services: Seq<ServiceChange>,
}

/// The networks of two plans, both up with nothing down, and the services to compare by their numbers in each.
#[derive(Clone, Copy)]
pub struct Sides<'a> {
    /// The network of OLD.
    pub old: &'a Standing<'a>,
    /// The network of NEW.
    pub new: &'a Standing<'a>,
    /// The numbers of the services in OLD.
    pub olds: &'a [u8],
    /// The numbers of the same services in NEW, by their names.
    pub news: &'a [u8],
}

/// Returns a service in both networks.
fn change_of(
    alloc: Global,
    old: &Plan,
    new: &Plan,
    was: &View,
    is: &View,
) -> Result<ServiceChange, Memory>
    requires { IsSound new.now }
    ensures { IfOk result (λ change. change ≡ change_of old.now new.now (was.now, is.now)) }
{
    let members = members(alloc, old, new, was.sites.as_slice(), is.sites.as_slice())?;
    Ok(ServiceChange {
        service: was.service,
        members: Seq::from_vec(members),
        was_forest: was.is_forest,
        is_forest: is.is_forest,
    })
}

/// Returns each service in both networks.
fn changes_of(
    alloc: Global,
    old: &Plan,
    new: &Plan,
    was: &[View],
    is: &[View],
) -> Result<Vec<ServiceChange>, Memory>
    requires { IsSound new.now }
    ensures { IfOk result (λ changes. changes.items ≡ map (change_of old.now new.now) (zip was.now is.now)) }
{
    let mut changes = Vec::new(alloc);
    for place in 0..was.len().min(is.len()) {
        changes.push(change_of(alloc, old, new, &was[place], &is[place])?)?;
    }
    Ok(changes)
}

/// Returns the effect of a failure, from its impact in each plan.
fn effect_of(
    alloc: Global,
    old: &Plan,
    new: &Plan,
    what: Case,
    before: &Impact,
    after: &Impact,
) -> Result<Effect, Memory>
    requires { IsSound new.now }
    ensures { IfOk result (λ effect. effect ≡ effect_of old.now new.now what before.now after.now) }
{
    let changes = changes_of(
        alloc,
        old,
        new,
        before.views.as_slice(),
        after.views.as_slice(),
    )?;
    Ok(Effect {
        what,
        old: before.convergence,
        new: after.convergence,
        services: Seq::from_vec(changes),
    })
}

/// Returns what a failure does in each of two networks. [`look_at`] analyses it in each.
///
/// The effect is worse exactly if two of the customer ports that a service has in both plans reach each other in OLD's
/// network at the end and not in NEW's, if a service's active links form a loop in NEW's alone, or if the bridges of
/// OLD's alone converge.
///
/// # Errors
///
/// Those of [`look_at`].
pub fn look_at_case(alloc: Global, sides: &Sides<'_>, what: Case) -> Result<Effect, DriveFault>
    requires { AreSides sides.now }
    ensures { IfOk result (IsEffectOn sides.now what) }
{
    let before = look_at(alloc, sides.old, sides.olds, what.old)?;
    let after = look_at(alloc, sides.new, sides.news, what.new)?;
    Ok(effect_of(alloc, sides.old.plan, sides.new.plan, what, &before, &after)?)
}

/// Returns what several failures do, in their order, each as [`look_at_case`] returns it.
///
/// Failures are analysed in parallel, as [`look_each`] does. `progress.looked` is called after each failure.
///
/// # Errors
///
/// Those of [`look_at`], and `Memory` if the list can't be allocated. After the first fault no further analysis begins,
/// and a fault that was met is returned.
pub fn look_at_cases<R: Threads + Sync, V: FailureProgress>(
    rt: &R,
    alloc: Global,
    sides: &Sides<'_>,
    cases: &[Case],
    progress: &V,
) -> Result<Vec<Effect>, DriveFault>
    requires { AreSides sides.now }
    ensures { IfOk result (λ effects. AllZip (IsEffectOn sides.now) cases.now effects.items) }
{
    let look = |what: Case| -> Result<Effect, DriveFault>
        requires { AreSides sides.now }
        ensures { IfOk result (IsEffectOn sides.entry.now what) }
    { look_at_case(alloc, sides, what) };
    look_each(rt, alloc, cases, &look, progress)
}
