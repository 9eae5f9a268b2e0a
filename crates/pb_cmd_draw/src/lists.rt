//! The texts of the lists of services at links.

ghost use Rattle.std.specs.Prelude.{◌≡◌, ◌≤◌, ◌++◌, flat_map, string_bytes, OnOk};
ghost use Rattle.pb_cmd_draw.specs.Lists.{next_name, joined_names, rest_words, listed_words, services_words};
ghost use Rattle.pb_cmd_draw.specs.Lists.{end_services, line_text, same_line, list_lines, same_lists};
ghost use Rattle.pb_cmd_draw.specs.Lists.{line_count, shown_names};

use pb_draw_layout::Room;
use pb_frame::{Memory, Seq};
use pb_lan::{End, LinkPlan, Plan};
use pb_names::{bridge_name, service_name};
use std::alloc::Global;

/// The width of a letter of a list.
const LETTER: u32 = 6;

/// The texts between which each line is.
#[derive(Clone, Copy)]
pub(crate) struct Around<'a> {
    /// The text before the line.
    pub before: &'a str,
    /// The text after the line.
    pub after: &'a str,
}

/// Checks whether two ports carry the same services: all, or those with the same numbers.
fn have_same_lists(one: &Option<Seq<u8>>, other: &Option<Seq<u8>>) -> bool
    ensures { result ≡ same_lists one.now other.now }
{
    match one {
        None => match other {
            None => true,
            Some(_) => false,
        },
        Some(one) => match other {
            None => false,
            Some(other) => one.as_slice() == other.as_slice(),
        },
    }
}

/// Returns how many lines show the lists of a link: one if both ends have the same list, none if they have all
/// services, else two.
pub(crate) fn line_count(link: &LinkPlan) -> u32
    ensures exact { result ≡ line_count link.now }
    ensures few { result ≤ 2 }
{
    if !have_same_lists(&link.a.services, &link.b.services) {
        2
    } else if link.a.services.is_none() {
        0
    } else {
        1
    }
}

/// Returns how many names a picture shows of a list of `count` services: all of at most three, else the first two.
fn shown_names(count: usize) -> usize
    ensures exact { result ≡ shown_names count }
    ensures within { result ≤ count }
{
    if count <= 3 { count } else { 2 }
}

/// Appends a name that follows another one.
fn put_next_name(out: &mut String, plan: &Plan, number: u8) -> Result<(), Memory>
    ensures { OnOk result (string_bytes out.new ≡ string_bytes out.old ++ next_name plan.now number) }
{
    let name = service_name(plan, number);
    write!(out, ", {name}")?;
    Ok(())
}

/// Appends the names that follow the first one.
fn put_next_names(out: &mut String, plan: &Plan, numbers: &[u8]) -> Result<(), Memory>
    ensures { OnOk result (string_bytes out.new ≡ string_bytes out.old ++ flat_map (next_name plan.now) numbers.now) }
{
    for number in numbers {
        put_next_name(out, plan, *number)?;
    }
    Ok(())
}

/// Appends the names of the services with these numbers, with commas between.
fn put_joined_names(out: &mut String, plan: &Plan, numbers: &[u8]) -> Result<(), Memory>
    ensures { OnOk result (string_bytes out.new ≡ string_bytes out.old ++ joined_names plan.now numbers.now) }
{
    match numbers {
        [] => Ok(()),
        [number, rest @ ..] => {
            out.push_str(service_name(plan, *number))?;
            put_next_names(out, plan, rest)
        }
    }
}

/// Appends how many names of a list of so many are not shown, if any.
fn put_convergence(out: &mut String, count: usize) -> Result<(), Memory>
    ensures { OnOk result (string_bytes out.new ≡ string_bytes out.old ++ rest_words count) }
{
    let shown = shown_names(count);
    if shown == count {
        return Ok(());
    }
    let rest = count - shown;
    write!(out, " and {rest} more")?;
    Ok(())
}

/// Appends the names of a list that are shown, and how many are not.
fn put_listed(out: &mut String, plan: &Plan, numbers: &[u8]) -> Result<(), Memory>
    ensures { OnOk result (string_bytes out.new ≡ string_bytes out.old ++ listed_words plan.now numbers.now) }
{
    let shown = shown_names(numbers.len());
    put_joined_names(out, plan, &numbers[..shown])?;
    put_convergence(out, numbers.len())
}

/// Appends the services of a port.
fn put_services(out: &mut String, plan: &Plan, services: &Option<Seq<u8>>) -> Result<(), Memory>
    ensures { OnOk result (string_bytes out.new ≡ string_bytes out.old ++ services_words plan.now services.now) }
{
    match services {
        None => out.push_str("all services")?,
        Some(numbers) if numbers.len() == 0 => out.push_str("no service")?,
        Some(numbers) => put_listed(out, plan, numbers.as_slice())?,
    }
    Ok(())
}

/// Appends the services of an end of a link, after the name of its bridge.
fn put_end_services(out: &mut String, plan: &Plan, end: &End) -> Result<(), Memory>
    ensures { OnOk result (string_bytes out.new ≡ string_bytes out.old ++ end_services plan.now end.now) }
{
    out.push_str(bridge_name(plan, end.bridge))?;
    out.push_str(": ")?;
    put_services(out, plan, &end.services)
}

/// Appends the line of an end of a link.
fn put_end_line(out: &mut String, plan: &Plan, around: Around<'_>, end: &End) -> Result<(), Memory>
    ensures { OnOk result (string_bytes out.new ≡ string_bytes out.old
        ++ line_text around.entry.before.now around.entry.after.now (end_services plan.now end.now)) }
{
    out.push_str(around.before)?;
    put_end_services(out, plan, end)?;
    out.push_str(around.after)?;
    Ok(())
}

/// Appends the line of a link whose two ends have the same list, or nothing if they have all services.
fn put_same_line(
    out: &mut String,
    plan: &Plan,
    around: Around<'_>,
    services: &Option<Seq<u8>>,
) -> Result<(), Memory>
    ensures { OnOk result (string_bytes out.new ≡ string_bytes out.old
        ++ same_line around.entry.before.now around.entry.after.now plan.now services.now) }
{
    if services.is_none() {
        return Ok(());
    }
    out.push_str(around.before)?;
    put_services(out, plan, services)?;
    out.push_str(around.after)?;
    Ok(())
}

/// Appends the lines of both ends of a link.
fn put_both_lines(
    out: &mut String,
    plan: &Plan,
    around: Around<'_>,
    link: &LinkPlan,
) -> Result<(), Memory>
    ensures { OnOk result (string_bytes out.new ≡ string_bytes out.old
        ++ line_text around.entry.before.now around.entry.after.now (end_services plan.now link.now.a)
        ++ line_text around.entry.before.now around.entry.after.now (end_services plan.now link.now.b)) }
{
    put_end_line(out, plan, around, &link.a)?;
    put_end_line(out, plan, around, &link.b)
}

/// Appends the lines of a link's lists, each between the two texts: one if both ends have the same list, none if they
/// have all services, else one for each end.
pub(crate) fn put_list_lines(
    out: &mut String,
    plan: &Plan,
    around: Around<'_>,
    link: &LinkPlan,
) -> Result<(), Memory>
    ensures { OnOk result (string_bytes out.new ≡ string_bytes out.old
        ++ list_lines around.entry.before.now around.entry.after.now plan.now link.now) }
{
    if have_same_lists(&link.a.services, &link.b.services) {
        put_same_line(out, plan, around, &link.a.services)
    } else {
        put_both_lines(out, plan, around, link)
    }
}

/// Returns the room for the lists of a link, by the octets of its longest line.
fn room_for(alloc: Global, plan: &Plan, link: &LinkPlan) -> Result<Room, Memory> {
    let around = Around {
        before: "",
        after: "\n",
    };
    let mut text = String::new(alloc);
    put_list_lines(&mut text, plan, around, link)?;
    let mut letters = 0usize;
    for line in text.as_str().lines() {
        letters = letters.max(line.len());
    }
    Ok(Room {
        width: (letters.min(200) as u32).saturating_mul(LETTER),
        lines: line_count(link),
    })
}

/// Returns the room for the lists of each link, or none if the picture does not show them.
pub(crate) fn rooms(alloc: Global, plan: &Plan, lists: bool) -> Result<Vec<Room>, Memory> {
    let mut rooms = Vec::new(alloc);
    if !lists {
        return Ok(rooms);
    }
    for link in plan.links.as_slice() {
        rooms.push(room_for(alloc, plan, link)?)?;
    }
    Ok(rooms)
}
