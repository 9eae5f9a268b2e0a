//! The failures.

ghost use Rattle.std.specs.Prelude.{◌≡◌, ◌+◌, ◌++◌, ◌<◌, map, length, IfOk, OnOk};
ghost use Rattle.pb_lan.specs.Numbering.{numbers_from};
ghost use Rattle.pb_lan.specs.Plans.{IsSound};
ghost use Rattle.pb_cmd_survive.specs.Failures.{all_failures, pairs_of};
ghost use Rattle.pb_cmd_survive.specs.declared.failure.Failure.TheVariants.{Link as link_fails, Pair as pair_fails};
ghost use Rattle.pb_cmd_survive.specs.declared.failure.Failure.TheVariants.{Bridge as bridge_fails};

use pb_frame::Memory;
use pb_lan::{BridgePlan, LinkPlan, Plan};
use std::alloc::Global;

/// A failure, by the numbers of links and bridges from 1, in the plan's order.
#[derive(Clone, Copy, PartialEq, Eq, Debug)]
pub enum Failure {
    /// No failure.
    Nothing,
    /// The failure of this link.
    Link(u8),
    /// The failure of these two links, the first with the lower number.
    Pair(u8, u8),
    /// The failure of this bridge, and with it of all links at it.
    Bridge(u8),
}

/// The kinds of failures that are analysed besides those of each single link.
#[derive(Clone, Copy, PartialEq, Eq, Debug)]
pub struct Kinds {
    /// Those of each single bridge.
    pub bridges: bool,
    /// Those of each two links.
    pub pairs: bool,
}

/// Appends the failure of each link.
fn put_links(failures: &mut Vec<Failure>, links: &[LinkPlan]) -> Result<(), Memory>
    requires { length links.now < 256 }
    ensures { OnOk result (failures.new.items ≡ failures.old.items ++ map link_fails (numbers_from 1 links.now)) }
{
    for (place, _) in links.iter().enumerate() {
        failures.push(Failure::Link(place as u8 + 1))?;
    }
    Ok(())
}

/// Appends the failure of each bridge.
fn put_bridges(failures: &mut Vec<Failure>, bridges: &[BridgePlan]) -> Result<(), Memory>
    requires { length bridges.now < 256 }
    ensures { OnOk result (failures.new.items ≡ failures.old.items ++ map bridge_fails (numbers_from 1 bridges.now)) }
{
    for (place, _) in bridges.iter().enumerate() {
        failures.push(Failure::Bridge(place as u8 + 1))?;
    }
    Ok(())
}

/// Appends the failures of a link together with each later one. `before` is the number of links before the later ones.
fn put_with(
    failures: &mut Vec<Failure>,
    link: u8,
    before: usize,
    later: &[LinkPlan],
) -> Result<(), Memory>
    requires { before + length later.now < 256 }
    ensures { OnOk result (failures.new.items ≡ failures.old.items
        ++ map (pair_fails link) (numbers_from (before + 1) later.now)) }
{
    for (place, _) in later.iter().enumerate() {
        failures.push(Failure::Pair(link, (before + place) as u8 + 1))?;
    }
    Ok(())
}

/// Appends the failures of each two links.
fn put_pairs(failures: &mut Vec<Failure>, links: &[LinkPlan]) -> Result<(), Memory>
    requires { length links.now < 256 }
    ensures { OnOk result (failures.new.items ≡ failures.old.items ++ pairs_of (numbers_from 1 links.now)) }
{
    for (place, _) in links.iter().enumerate() {
        put_with(failures, place as u8 + 1, place + 1, &links[place + 1..])?;
    }
    Ok(())
}

/// Returns all failures of the kinds, each once: those of single links, then those of single bridges, then those of
/// two links, each in the plan's order.
///
/// # Errors
///
/// `Memory` if an allocation failed.
pub fn failures(alloc: Global, plan: &Plan, kinds: Kinds) -> Result<Vec<Failure>, Memory>
    requires { IsSound plan.now }
    ensures { IfOk result (λ failures. failures.items ≡ all_failures plan.now kinds) }
{
    let mut failures = Vec::new(alloc);
    put_links(&mut failures, plan.links.as_slice())?;
    if kinds.bridges {
        put_bridges(&mut failures, plan.bridges.as_slice())?;
    }
    if kinds.pairs {
        put_pairs(&mut failures, plan.links.as_slice())?;
    }
    Ok(failures)
}
