//! The customer ports that a service has in both plans.

ghost use Rattle.std.specs.Option.{option_copied};
ghost use Rattle.std.specs.Prelude.{◌≡◌, ◌++◌, map, IfOk, OnOk};
ghost use Rattle.pb_lan.specs.Plans.{IsSound};
ghost use Rattle.pb_cmd_diff.specs.Members.{site_in, member_by, members, swapped, is_disconnected, is_torn};
ghost use Rattle.pb_cmd_diff.specs.Members.{are_disconnected};
ghost use Rattle.pb_cmd_diff.specs.Members.{is_joined, is_bound, are_joined};

use pb_cmd_survive::Site;
use pb_frame::Memory;
use pb_lan::Plan;
use pb_names::{port_name, port_named};
use std::alloc::Global;

/// A customer port of a service in two networks, with the group of ports that it reaches in each.
#[derive(Clone, Copy, PartialEq, Eq, Debug)]
pub struct Member {
    /// Its number in OLD.
    pub port: u8,
    /// The number of its group in OLD.
    pub old: u8,
    /// The number of its group in NEW.
    pub new: u8,
}

/// Returns the port of NEW's service that has the name of a port of OLD, if there is one.
fn site_in<'a>(old: &Plan, new: &Plan, news: &'a [Site], site: &Site) -> Option<&'a Site>
    requires { IsSound new.now }
    ensures { option_copied result ≡ site_in old.now new.now news.now site.now }
{
    let port = port_named(new, port_name(old, site.port));
    for other in news {
        if other.port == port {
            return Some(other);
        }
    }
    None
}

/// Appends a port with its groups in both plans, if both have it.
fn put_member(
    members: &mut Vec<Member>,
    old: &Plan,
    new: &Plan,
    news: &[Site],
    site: &Site,
) -> Result<(), Memory>
    requires { IsSound new.now }
    ensures { OnOk result (members.new.items ≡ members.old.items
        ++ member_by site.now (site_in old.now new.now news.now site.now)) }
{
    if let Some(other) = site_in(old, new, news, site) {
        members.push(Member {
            port: site.port,
            old: site.group,
            new: other.group,
        })?;
    }
    Ok(())
}

/// Returns the ports that a service has in both plans, in the order of OLD.
pub(crate) fn members(
    alloc: Global,
    old: &Plan,
    new: &Plan,
    olds: &[Site],
    news: &[Site],
) -> Result<Vec<Member>, Memory>
    requires { IsSound new.now }
    ensures { IfOk result (λ ms. ms.items ≡ members old.now new.now olds.now news.now) }
{
    let mut members = Vec::new(alloc);
    for site in olds {
        put_member(&mut members, old, new, news, site)?;
    }
    Ok(members)
}

/// Returns the same ports with the plans exchanged.
pub(crate) fn swapped(alloc: Global, members: &[Member]) -> Result<Vec<Member>, Memory>
    ensures { IfOk result (λ ms. ms.items ≡ map swapped members.now) }
{
    let mut all = Vec::with_capacity(alloc, members.len())?;
    for member in members {
        all.push(Member {
            port: member.port,
            old: member.new,
            new: member.old,
        })?;
    }
    Ok(all)
}

/// Checks whether two ports reach each other in OLD, and not in NEW.
fn is_disconnected(one: Member, other: Member) -> bool
    ensures { result ≡ is_disconnected one other }
{
    one.old == other.old && one.new != other.new
}

/// Checks whether some port is disconnected from this one.
pub(crate) fn is_torn(members: &[Member], one: Member) -> bool
    ensures { result ≡ is_torn members.now one }
{
    members.iter().any(|other| is_disconnected(one, *other))
}

/// Checks whether some two ports are disconnected.
pub(crate) fn are_disconnected(members: &[Member]) -> bool
    ensures { result ≡ are_disconnected members.now }
{
    members.iter().any(|one| is_torn(members, *one))
}

/// Checks whether two ports reach each other in NEW, and not in OLD.
fn is_joined(one: Member, other: Member) -> bool
    ensures { result ≡ is_joined one other }
{
    one.new == other.new && one.old != other.old
}

/// Checks whether some port is joined with this one.
fn is_bound(members: &[Member], one: Member) -> bool
    ensures { result ≡ is_bound members.now one }
{
    members.iter().any(|other| is_joined(one, *other))
}

/// Checks whether some two ports are joined.
pub(crate) fn are_joined(members: &[Member]) -> bool
    ensures { result ≡ are_joined members.now }
{
    members.iter().any(|one| is_bound(members, *one))
}
