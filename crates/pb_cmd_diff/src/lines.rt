//! The lines about services and links.

ghost use Rattle.std.specs.Prelude.{◌≡◌, ◌++◌, flat_map, string_bytes, OnOk, IfOk};
ghost use Rattle.pb_lan.specs.Plans.{IsSound};
ghost use Rattle.pb_lan.specs.Numbering.{numbered, numbers_from};
ghost use Rattle.pb_frame.specs.Lists.{first};
ghost use Rattle.pb_cmd_diff.specs.Reports.{case_text, is_together, is_still, leads, mate_text, mates_text, is_next};
ghost use Rattle.pb_cmd_diff.specs.Reports.{next_text, apart_line, disconnected_line, disconnected_lines};
ghost use Rattle.pb_cmd_diff.specs.Reports.{service_head, loop_words};
ghost use Rattle.pb_cmd_diff.specs.Reports.{loop_line};
ghost use Rattle.pb_cmd_diff.specs.Reports.{change_lines, change_at, service_lines, end_words, ends_words};
ghost use Rattle.pb_cmd_diff.specs.Reports.{ends_change, ends_line};

use crate::case::{Case, link_in};
use crate::effect::{Effect, ServiceChange};
use crate::ends::{EndView, LinkEnds};
use crate::member::{Member, is_torn, swapped};
use pb_cmd_survive::put_failure;
use pb_forest::numbered;
use pb_frame::Memory;
use pb_lan::Plan;
use pb_names::{link_name, port_name, role_word, service_name, state_word};
use std::alloc::Global;

/// Appends what is down, by the names of the plan that has all of it.
pub(crate) fn put_case(out: &mut String, old: &Plan, new: &Plan, what: Case) -> Result<(), Memory>
    ensures { OnOk result (string_bytes out.new ≡ string_bytes out.old ++ case_text old.now new.now what) }
{
    if what.is_new {
        return put_failure(out, new, what.new);
    }
    put_failure(out, old, what.old)
}

/// Checks whether two ports are in one group of OLD.
fn is_together(one: Member, other: Member) -> bool
    ensures { result ≡ is_together one other }
{
    one.old == other.old
}

/// Checks whether two ports are in one group of OLD, and of NEW too.
fn is_still(one: Member, other: Member) -> bool
    ensures { result ≡ is_still one other }
{
    one.old == other.old && one.new == other.new
}

/// Checks whether a port is the first one in its group of OLD.
fn leads_group(members: &[Member], one: Member) -> bool
    ensures { result ≡ leads (is_together one) members.now one }
{
    for other in members {
        if is_together(one, *other) {
            return other.port == one.port;
        }
    }
    false
}

/// Checks whether a port is the first one of those that are still with it.
fn leads_rest(members: &[Member], one: Member) -> bool
    ensures { result ≡ leads (is_still one) members.now one }
{
    for other in members {
        if is_still(one, *other) {
            return other.port == one.port;
        }
    }
    false
}

/// Appends the names of a port and of those that are still with it.
fn put_mates(out: &mut String, old: &Plan, members: &[Member], one: Member) -> Result<(), Memory>
    ensures { OnOk result (string_bytes out.new ≡ string_bytes out.old ++ mates_text old.now members.now one) }
{
    for other in members {
        if is_still(one, *other) {
            write!(out, " {}", port_name(old, other.port))?;
        }
    }
    Ok(())
}

/// Checks whether a port is the first one of those that were with this one, are not any more, and are still with it.
fn is_next(members: &[Member], one: Member, other: Member) -> bool
    ensures { result ≡ is_next members.now one other }
{
    is_together(one, other) && !is_still(one, other) && leads_rest(members, other)
}

/// Appends those who were with a port and are not any more, after a bar for each group that they are in now.
fn put_others(out: &mut String, old: &Plan, members: &[Member], one: Member) -> Result<(), Memory>
    ensures { OnOk result (string_bytes out.new ≡ string_bytes out.old
        ++ flat_map (next_text old.now members.now one) members.now) }
{
    for other in members {
        if is_next(members, one, *other) {
            out.push_str(" |")?;
            put_mates(out, old, members, *other)?;
        }
    }
    Ok(())
}

/// Appends the ports that were with a port, with a bar between those that are not together any more.
fn put_apart(
    out: &mut String,
    head: &str,
    old: &Plan,
    members: &[Member],
    one: Member,
) -> Result<(), Memory>
    ensures { OnOk result (string_bytes out.new ≡ string_bytes out.old
        ++ apart_line head.now old.now members.now one) }
{
    out.push_str(head)?;
    put_mates(out, old, members, one)?;
    put_others(out, old, members, one)?;
    out.push_str("\n")?;
    Ok(())
}

/// Appends the line of a group of OLD, if this port is its first one and the group is disconnected.
fn put_disconnected(
    out: &mut String,
    head: &str,
    old: &Plan,
    members: &[Member],
    one: Member,
) -> Result<(), Memory>
    ensures { OnOk result (string_bytes out.new ≡ string_bytes out.old
        ++ disconnected_line head.now old.now members.now one) }
{
    let (first, torn) = (leads_group(members, one), is_torn(members, one));
    if first && torn {
        put_apart(out, head, old, members, one)?;
    }
    Ok(())
}

/// Appends the lines of all groups of OLD that are disconnected.
fn put_all_disconnected(
    out: &mut String,
    head: &str,
    old: &Plan,
    members: &[Member],
) -> Result<(), Memory>
    ensures { OnOk result (string_bytes out.new ≡ string_bytes out.old
        ++ disconnected_lines head.now old.now members.now) }
{
    for one in members {
        put_disconnected(out, head, old, members, *one)?;
    }
    Ok(())
}

/// Returns the name of a service and what is down.
fn service_head(
    alloc: Global,
    old: &Plan,
    new: &Plan,
    what: Case,
    service: u8,
) -> Result<String, Memory>
    ensures { IfOk result (λ head. string_bytes head ≡ service_head old.now new.now what service) }
{
    let mut head = String::new(alloc);
    write!(head, "service {}: ", service_name(old, service))?;
    put_case(&mut head, old, new, what)?;
    head.push_str(": ")?;
    Ok(head)
}

/// Returns whether a service forms a forwarding loop, if that has changed.
fn loop_words(was_forest: bool, is_forest: bool) -> &'static str
    ensures { result.now ≡ loop_words was_forest is_forest }
{
    match (was_forest, is_forest) {
        (true, true) | (false, false) => "",
        (true, false) => "now forms a forwarding loop\n",
        (false, true) => "no longer forms a forwarding loop\n",
    }
}

/// Appends a line if a service forms a forwarding loop in one plan alone.
fn put_loop(out: &mut String, head: &str, was_forest: bool, is_forest: bool) -> Result<(), Memory>
    ensures { OnOk result (string_bytes out.new ≡ string_bytes out.old
        ++ loop_line head.now was_forest is_forest) }
{
    let words = loop_words(was_forest, is_forest);
    if words.is_empty() {
        return Ok(());
    }
    out.push_str(head)?;
    out.push_str(words)?;
    Ok(())
}

/// Appends the lines of groups that are disconnected, after `head` and how.
fn put_disconnected_with(
    alloc: Global,
    out: &mut String,
    head: &str,
    how: &str,
    old: &Plan,
    members: &[Member],
) -> Result<(), Memory>
    ensures { OnOk result (string_bytes out.new ≡ string_bytes out.old
        ++ disconnected_lines (head.now ++ how.now) old.now members.now) }
{
    let whole = format!(in alloc; "{head}{how}")?;
    put_all_disconnected(out, whole.as_str(), old, members)
}

/// Appends the lines of a service, after its name and what is down.
fn put_change(
    alloc: Global,
    out: &mut String,
    head: &str,
    old: &Plan,
    change: &ServiceChange,
) -> Result<(), Memory>
    ensures { OnOk result (string_bytes out.new ≡ string_bytes out.old
        ++ change_lines head.now old.now change.now) }
{
    let members = change.members.as_slice();
    let joined = swapped(alloc, members)?;
    put_disconnected_with(
        alloc,
        out,
        head,
        "no longer reach each other:",
        old,
        members,
    )?;
    put_disconnected_with(
        alloc,
        out,
        head,
        "now reach each other:",
        old,
        joined.as_slice(),
    )?;
    put_loop(out, head, change.was_forest, change.is_forest)?;
    Ok(())
}

/// Appends the lines of the service with this number among those compared, under a failure.
fn put_change_at(
    alloc: Global,
    out: &mut String,
    old: &Plan,
    new: &Plan,
    number: usize,
    effect: &Effect,
) -> Result<(), Memory>
    ensures { OnOk result (string_bytes out.new ≡ string_bytes out.old
        ++ change_at old.now new.now number effect.now) }
{
    match numbered(effect.services.as_slice(), number) {
        None => Ok(()),
        Some(change) => {
            let head = service_head(alloc, old, new, effect.what, change.service)?;
            put_change(alloc, out, head.as_str(), old, change)
        }
    }
}

/// Appends the lines of a service, with nothing down and under each failure.
pub(crate) fn put_service(
    alloc: Global,
    out: &mut String,
    old: &Plan,
    new: &Plan,
    base: &Effect,
    effects: &[Effect],
    number: usize,
) -> Result<(), Memory>
    ensures { OnOk result (string_bytes out.new ≡ string_bytes out.old
        ++ service_lines old.now new.now base.now effects.now number) }
{
    put_change_at(alloc, out, old, new, number, base)?;
    for effect in effects {
        put_change_at(alloc, out, old, new, number, effect)?;
    }
    Ok(())
}

/// Appends role and state of an end of a link, or its state alone if the plan gives it.
fn put_end(out: &mut String, view: EndView) -> Result<(), Memory>
    ensures { OnOk result (string_bytes out.new ≡ string_bytes out.old ++ end_words view) }
{
    match view {
        EndView::Given(state) => out.push_str(state_word(state))?,
        EndView::Computed(role, state) => {
            write!(out, "{} {}", role_word(role), state_word(state))?;
        }
    }
    Ok(())
}

/// Returns roles and states of both ends of a link.
fn ends_words(alloc: Global, ends: LinkEnds) -> Result<String, Memory>
    ensures { IfOk result (λ words. string_bytes words ≡ ends_words ends) }
{
    let mut words = String::from_str(alloc, "a ")?;
    put_end(&mut words, ends.a)?;
    words.push_str(", b ")?;
    put_end(&mut words, ends.b)?;
    Ok(words)
}

/// Appends the line of a link, if its ends differ.
fn put_ends(
    alloc: Global,
    out: &mut String,
    name: &str,
    was: LinkEnds,
    is: LinkEnds,
) -> Result<(), Memory>
    ensures { OnOk result (string_bytes out.new ≡ string_bytes out.old ++ ends_change name.now was is) }
{
    let (before, after) = (ends_words(alloc, was)?, ends_words(alloc, is)?);
    let (before, after) = (before.as_str(), after.as_str());
    if before == after {
        return Ok(());
    }
    writeln!(out, "link {name} with nothing down: {before} -> {after}")?;
    Ok(())
}

/// Appends a line for the link of OLD with this number, if NEW has it and its ends differ.
pub(crate) fn put_link(
    alloc: Global,
    out: &mut String,
    old: &Plan,
    new: &Plan,
    olds: &[LinkEnds],
    news: &[LinkEnds],
    number: u8,
) -> Result<(), Memory>
    requires { IsSound new.now }
    ensures { OnOk result (string_bytes out.new ≡ string_bytes out.old
        ++ ends_line old.now new.now olds.now news.now number) }
{
    let there = link_in(old, new, number);
    match (
        numbered(olds, number as usize),
        numbered(news, there as usize),
    ) {
        (Some(was), Some(is)) => put_ends(alloc, out, link_name(old, number), *was, *is),
        _ => Ok(()),
    }
}
