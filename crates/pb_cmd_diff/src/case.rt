//! The failures of two plans, matched by the names of what fails.

ghost use Rattle.std.specs.Prelude.{◌≡◌, ◌++◌, map, not, IfOk, OnOk};
ghost use Rattle.std.specs.List.{filter};
ghost use Rattle.pb_lan.specs.Plans.{IsSound};
ghost use Rattle.pb_cmd_diff.specs.Cases.{link_named, bridge_named, link_in, bridge_in, link_fails, bridge_fails};
ghost use Rattle.pb_cmd_diff.specs.Cases.{links_fail, failure_in, is_known, old_case, new_case, all_cases};

use pb_cmd_survive::{Failure, Kinds, failures};
use pb_frame::Memory;
use pb_lan::Plan;
use pb_names::{bridge_name, link_name};
use std::alloc::Global;

/// A failure of one of two plans, as it is in each.
#[derive(Clone, Copy, PartialEq, Eq, Debug)]
pub struct Case {
    /// What fails in OLD.
    pub old: Failure,
    /// What fails in NEW.
    pub new: Failure,
    /// Whether OLD lacks some of what fails.
    pub is_new: bool,
}

/// Returns the number of the link with this name, or 0 if the plan has none.
fn link_named(plan: &Plan, name: &str) -> u8
    requires { IsSound plan.now }
    ensures { result ≡ link_named plan.now name.now }
{
    for (place, link) in plan.links.as_slice().iter().enumerate() {
        if name == link.name.as_str() {
            return place as u8 + 1;
        }
    }
    0
}

/// Returns the number of the bridge with this name, or 0 if the plan has none.
fn bridge_named(plan: &Plan, name: &str) -> u8
    requires { IsSound plan.now }
    ensures { result ≡ bridge_named plan.now name.now }
{
    for (place, bridge) in plan.bridges.as_slice().iter().enumerate() {
        if name == bridge.name.as_str() {
            return place as u8 + 1;
        }
    }
    0
}

/// Returns the number that a link of a plan has in the other plan, by its name, or 0 if that has none.
pub(crate) fn link_in(plan: &Plan, other: &Plan, number: u8) -> u8
    requires { IsSound other.now }
    ensures { result ≡ link_in plan.now other.now number }
{
    link_named(other, link_name(plan, number))
}

/// Returns the number that a bridge of a plan has in the other plan, by its name, or 0 if that has none.
fn bridge_in(plan: &Plan, other: &Plan, number: u8) -> u8
    requires { IsSound other.now }
    ensures { result ≡ bridge_in plan.now other.now number }
{
    bridge_named(other, bridge_name(plan, number))
}

/// Returns the failure of a link, or none for the number 0.
fn link_fails(number: u8) -> Failure
    ensures { result ≡ link_fails number }
{
    if number == 0 {
        return Failure::Nothing;
    }
    Failure::Link(number)
}

/// Returns the failure of a bridge, or none for the number 0.
fn bridge_fails(number: u8) -> Failure
    ensures { result ≡ bridge_fails number }
{
    if number == 0 {
        return Failure::Nothing;
    }
    Failure::Bridge(number)
}

/// Returns the failure of two links, or of the one whose number is not 0.
fn links_fail(first: u8, second: u8) -> Failure
    ensures { result ≡ links_fail first second }
{
    if first == 0 {
        return link_fails(second);
    }
    if second == 0 {
        return link_fails(first);
    }
    Failure::Pair(first.min(second), first.max(second))
}

/// Returns what a plan's failure is in the other plan: what that plan lacks does not fail there.
fn failure_in(plan: &Plan, other: &Plan, failure: Failure) -> Failure
    requires { IsSound other.now }
    ensures { result ≡ failure_in plan.now other.now failure }
{
    match failure {
        Failure::Nothing => Failure::Nothing,
        Failure::Link(number) => link_fails(link_in(plan, other, number)),
        Failure::Pair(first, second) => {
            links_fail(link_in(plan, other, first), link_in(plan, other, second))
        }
        Failure::Bridge(number) => bridge_fails(bridge_in(plan, other, number)),
    }
}

/// Checks whether the other plan has all that fails.
fn is_known(plan: &Plan, other: &Plan, failure: Failure) -> bool
    requires { IsSound other.now }
    ensures { result ≡ is_known plan.now other.now failure }
{
    match failure {
        Failure::Nothing => true,
        Failure::Link(number) => 0 < link_in(plan, other, number),
        Failure::Pair(first, second) => {
            let (one, two) = (link_in(plan, other, first), link_in(plan, other, second));
            0 < one && 0 < two
        }
        Failure::Bridge(number) => 0 < bridge_in(plan, other, number),
    }
}

/// Appends the failures of OLD.
fn put_old(
    cases: &mut Vec<Case>,
    old: &Plan,
    new: &Plan,
    failures: &[Failure],
) -> Result<(), Memory>
    requires { IsSound new.now }
    ensures { OnOk result (cases.new.items ≡ cases.old.items ++ map (old_case old.now new.now) failures.now) }
{
    for failure in failures {
        cases.push(Case {
            old: *failure,
            new: failure_in(old, new, *failure),
            is_new: false,
        })?;
    }
    Ok(())
}

/// Appends those failures of NEW that OLD lacks.
fn put_new(
    cases: &mut Vec<Case>,
    old: &Plan,
    new: &Plan,
    failures: &[Failure],
) -> Result<(), Memory>
    requires { IsSound old.now }
    ensures { OnOk result (cases.new.items ≡ cases.old.items
        ++ map (new_case old.now new.now) (filter (λ f. not (is_known new.now old.now f)) failures.now)) }
{
    for failure in failures {
        if !is_known(new, old, *failure) {
            cases.push(Case {
                old: failure_in(new, old, *failure),
                new: *failure,
                is_new: true,
            })?;
        }
    }
    Ok(())
}

/// Returns each failure of either plan once, with what it is in the other plan: those of OLD, then those of NEW that
/// OLD lacks, each in the plan's order.
///
/// A failure is known by the names of what fails. What a plan lacks does not fail there: a link or bridge that only one
/// plan has leaves the other plan's network with nothing down, and of two links only the one that a plan has fails.
///
/// # Errors
///
/// `Memory` if an allocation failed.
pub fn cases(alloc: Global, old: &Plan, new: &Plan, kinds: Kinds) -> Result<Vec<Case>, Memory>
    requires old { IsSound old.now }
    requires new { IsSound new.now }
    ensures { IfOk result (λ cases. cases.items ≡ all_cases old.now new.now kinds) }
{
    let mut cases = Vec::new(alloc);
    let (olds, news) = (failures(alloc, old, kinds)?, failures(alloc, new, kinds)?);
    put_old(&mut cases, old, new, olds.as_slice())?;
    put_new(&mut cases, old, new, news.as_slice())?;
    Ok(cases)
}
