//! Disables the ends of links that arguments name.

ghost use Rattle.std.specs.Prelude.{◌≡◌, ◌≢◌, ◌∷◌, [], map, true, IfOk, IfErr, MatchResult, OnOk};
ghost use Rattle.std.specs.List.{filter};
ghost use Rattle.pb_frame.specs.Admission.{same};
ghost use Rattle.pb_lan.specs.Plans.{IsSound};
ghost use Rattle.pb_lan.specs.Ports.{is_provider, port_at};
ghost use Rattle.pb_converge.specs.Drives.{HasBroken, HaveDone};
ghost use Rattle.pb_converge.specs.Enough.{HasEnoughMemory};
ghost use Rattle.pb_converge.specs.Falls.{
  all_down,
  downs,
  ends_down,
  end_name,
  fails,
  fresh_by,
  has_port,
  is_link,
  is_bridge,
  is_port,
  is_at,
  set_down,
  AnswersFalls,
  Judges,
};

use crate::fault::DriveFault;
use crate::limit::fault_in;
use pb_frame::Memory;
use pb_lan::{End, Event, LinkPlan, Plan};
use pb_names::bridge_name;
use pb_net::{Net, NetFault};
use std::alloc::Global;

/// The reason why a name disables nothing. The index of the name counts from 0.
#[derive(Clone, Copy, Debug, PartialEq, Eq)]
pub enum DownFault {
    /// No link, no bridge and no port to another bridge has this name.
    Unknown(usize),
    /// A link and a bridge have this name.
    Ambiguous(usize),
}

/// Checks whether a text is `BRIDGE:PORT` for an end of a link.
///
/// # Errors
///
/// `Memory` if the allocation of a text failed.
fn is_named(alloc: Global, plan: &Plan, end: &End, name: &str) -> Result<bool, Memory>
    ensures { IfOk result (λ yes. yes ≡ same name.now (end_name plan.now end.now)) }
{
    let bridge = bridge_name(plan, end.bridge);
    let port = end.port;
    let text = format!(in alloc; "{bridge}:{port}")?;
    Ok(name == text.as_str())
}

/// Checks whether a text is `BRIDGE:PORT` for an end of this link.
///
/// # Errors
///
/// `Memory` if the allocation of a text failed.
fn has_port(alloc: Global, plan: &Plan, name: &str, link: &LinkPlan) -> Result<bool, Memory>
    ensures { IfOk result (λ yes. yes ≡ has_port plan.now name.now link.now) }
{
    let a = is_named(alloc, plan, &link.a, name)?;
    let b = is_named(alloc, plan, &link.b, name)?;
    Ok(a || b)
}

/// Checks whether a text is the name of a link.
fn is_link(plan: &Plan, name: &str) -> bool
    ensures { result ≡ is_link plan.now name.now }
{
    for link in plan.links.as_slice() {
        if name == link.name.as_str() {
            return true;
        }
    }
    false
}

/// Checks whether a text is the name of a bridge.
fn is_bridge(plan: &Plan, name: &str) -> bool
    ensures { result ≡ is_bridge plan.now name.now }
{
    for bridge in plan.bridges.as_slice() {
        if name == bridge.name.as_str() {
            return true;
        }
    }
    false
}

/// Checks whether a text is `BRIDGE:PORT` for an end of a link.
///
/// # Errors
///
/// `Memory` if the allocation of a text failed.
fn is_port(alloc: Global, plan: &Plan, name: &str) -> Result<bool, Memory>
    ensures { IfOk result (λ yes. yes ≡ is_port plan.now name.now) }
{
    for link in plan.links.as_slice() {
        if has_port(alloc, plan, name, link)? {
            return Ok(true);
        }
    }
    Ok(false)
}

/// Returns why the name at this index disables nothing, or `None` if it names one link, bridge or port.
///
/// # Errors
///
/// `Memory` if the allocation of a text failed.
fn judge(alloc: Global, plan: &Plan, name: &str, index: usize) -> Result<Option<DownFault>, Memory>
    ensures { IfOk result (λ fault. Judges plan.now name.now index fault) }
{
    let (link, bridge) = (is_link(plan, name), is_bridge(plan, name));
    if link && bridge {
        return Ok(Some(DownFault::Ambiguous(index)));
    }
    if link || bridge || is_port(alloc, plan, name)? {
        return Ok(None);
    }
    Ok(Some(DownFault::Unknown(index)))
}

/// Disables a port to another bridge.
///
/// # Errors
///
/// `Steps` if the bridge has taken the plan's number of steps, `Memory` if an allocation failed.
fn fall(net: &mut Net, plan: &Plan, end: &End) -> Result<(), DriveFault>
    requires plan { net.old.plan ≡ plan.now }
    requires there { is_provider (port_at plan.now end.now.bridge end.now.port) ≡ true }
    ensures plan { OnOk result (net.new.plan ≡ plan.now) }
    ensures done { OnOk result (HaveDone net.old (set_down end.now ∷ []) net.new) }
    ensures err { IfErr result (λ fault. HasBroken (set_down end.now ∷ []) fault net.old net.new) }
{
    let (bridge, port, up) = (end.bridge, end.port, false);
    match net.step(Event::Admin { bridge, port, up }) {
        Ok(_) => Ok(()),
        Err(NetFault::StepLimit) => Err(DriveFault::Steps),
        Err(NetFault::Memory) => Err(DriveFault::Memory),
        Err(NetFault::NoSuch) => unreachable!(),
    }
}

/// Disables a port to another bridge if a text is `BRIDGE:PORT` for it.
///
/// # Errors
///
/// `Steps` if the bridge has taken the plan's number of steps, `Memory` if an allocation failed.
fn fall_if_named(
    alloc: Global,
    net: &mut Net,
    plan: &Plan,
    name: &str,
    end: &End,
) -> Result<(), DriveFault>
    requires plan { net.old.plan ≡ plan.now }
    requires there { is_provider (port_at plan.now end.now.bridge end.now.port) ≡ true }
    ensures plan { OnOk result (net.new.plan ≡ plan.now) }
    ensures done { OnOk result (HaveDone net.old
        (map set_down (filter (λ e. same name.now (end_name plan.now e)) (end.now ∷ []))) net.new) }
    ensures err { IfErr result (λ fault. HasBroken
        (map set_down (filter (λ e. same name.now (end_name plan.now e)) (end.now ∷ []))) fault net.old net.new) }
{
    if is_named(alloc, plan, end, name)? {
        fall(net, plan, end)?;
    }
    Ok(())
}

/// Checks whether a text is the name of the bridge at an end of a link.
fn is_at(plan: &Plan, name: &str, end: &End) -> bool
    ensures { result ≡ is_at plan.now name.now end.now }
{
    name == bridge_name(plan, end.bridge)
}

/// Checks whether a name disables both ends of a link: it is the name of the link, or of a bridge at one of its ends.
fn fails(plan: &Plan, name: &str, link: &LinkPlan) -> bool
    ensures { result ≡ fails plan.now name.now link.now }
{
    name == link.name.as_str() || is_at(plan, name, &link.a) || is_at(plan, name, &link.b)
}

/// Disables the ends of a link that a name disables.
///
/// # Errors
///
/// `Steps` if a bridge has taken the plan's number of steps, `Memory` if an allocation failed.
fn fall_link(
    alloc: Global,
    net: &mut Net,
    plan: &Plan,
    name: &str,
    link: &LinkPlan,
) -> Result<(), DriveFault>
    requires plan { net.old.plan ≡ plan.now }
    requires a { is_provider (port_at plan.now link.now.a.bridge link.now.a.port) ≡ true }
    requires b { is_provider (port_at plan.now link.now.b.bridge link.now.b.port) ≡ true }
    ensures plan { OnOk result (net.new.plan ≡ plan.now) }
    ensures done { OnOk result (HaveDone net.old (map set_down (ends_down plan.now name.now link.now)) net.new) }
    ensures err { IfErr result (λ fault.
        HasBroken (map set_down (ends_down plan.now name.now link.now)) fault net.old net.new) }
{
    if fails(plan, name, link) {
        fall(net, plan, &link.a)?;
        fall(net, plan, &link.b)?;
        return Ok(());
    }
    fall_if_named(alloc, net, plan, name, &link.a)?;
    fall_if_named(alloc, net, plan, name, &link.b)
}

/// Disables the ends of all links that a name disables, in the plan's order.
///
/// # Errors
///
/// `Steps` if a bridge has taken the plan's number of steps, `Memory` if an allocation failed.
fn fall_named(alloc: Global, net: &mut Net, plan: &Plan, name: &str) -> Result<(), DriveFault>
    requires sound { IsSound plan.now }
    requires plan { net.old.plan ≡ plan.now }
    ensures plan { OnOk result (net.new.plan ≡ plan.now) }
    ensures done { OnOk result (HaveDone net.old (map set_down (all_down plan.now name.now)) net.new) }
    ensures err { IfErr result (λ fault.
        HasBroken (map set_down (all_down plan.now name.now)) fault net.old net.new) }
{
    for link in plan.links.as_slice() {
        fall_link(alloc, net, plan, name, link)?;
    }
    Ok(())
}

/// Disables the ends of links that names disable. Fails as [`fall_named`] does, and else as [`disables`] describes.
fn fall_all(
    alloc: Global,
    net: &mut Net,
    plan: &Plan,
    names: &[String],
) -> Result<Option<DownFault>, DriveFault>
    requires sound { IsSound plan.now }
    requires fresh { net.old ≡ fresh_by net.old.is_kept plan.now }
    ensures kept { OnOk result (net.new.is_kept ≡ net.old.is_kept) }
    ensures falls { MatchResult result (λ fault. AnswersFalls plan.now names.now fault net.new)
        (λ fault. HasBroken (downs plan.now names.now) fault net.old net.new) }
{
    for (index, name) in names.iter().enumerate() {
        match judge(alloc, plan, name.as_str(), index)? {
            Some(fault) => return Ok(Some(fault)),
            None => fall_named(alloc, net, plan, name.as_str())?,
        }
    }
    Ok(None)
}

/// Disables the ends of links that names disable, in order, in a network that has taken no step.
///
/// Each of `names` is the name of a link, of a bridge, or of a port to another bridge as `BRIDGE:PORT`, with the local
/// port of the bridge. A link's name disables both of its ends. A bridge's name disables both ends of each of its
/// links, which may be none. `BRIDGE:PORT` disables that end alone, and the neighbour's end stays enabled. Returns the
/// first name that is unknown, or that a link and a bridge have. The names before it have had their effect then.
///
/// # Errors
///
/// `Memory` if an allocation failed, `Steps` if a bridge had to take more steps than the plan allows, and no allocation
/// failed in its steps.
pub fn disables(
    alloc: Global,
    net: &mut Net,
    plan: &Plan,
    names: &[String],
) -> Result<Option<DownFault>, DriveFault>
    requires sound { IsSound plan.now }
    requires fresh { net.old ≡ fresh_by net.old.is_kept plan.now }
    ensures kept { OnOk result (net.new.is_kept ≡ net.old.is_kept) }
    ensures falls { IfOk result (λ fault. AnswersFalls plan.now names.now fault net.new) }
    ensures err { IfErr result (λ fault. HasBroken (downs plan.now names.now) fault net.old net.new) }
    ensures enough { IfErr result (λ fault. fault ≢ DriveFault.Memory → HasEnoughMemory net.new.rec) }
{
    match fall_all(alloc, net, plan, names) {
        Ok(fault) => Ok(fault),
        Err(fault) => Err(fault_in(net, fault)),
    }
}
