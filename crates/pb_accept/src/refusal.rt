//! Why an item of the array describes no acceptance.

ghost use Rattle.pb_lan.specs.Plans.{IsSound};

use crate::fault::{AcceptFault, Part};
use crate::named::{bridge_named, link_named, service_named};
use crate::told::{unknown_key, value_at};
use pb_frame::{Memory, Text};
use pb_lan::Plan;
use pb_service::PlanFault;
use std::alloc::Global;
use toml::{Table, Value};

/// The keys of a table, in the order in which they are checked.
static KEYS: [&str; 4] = ["link", "bridge", "links", "service"];

/// A rule that a table breaks, with the key or the name.
#[derive(Clone, Copy)]
enum Wrong<'a> {
    /// The key is missing.
    Missing(&'a str),
    /// The value of the key is of another TOML type.
    Kind(&'a str),
    /// The value of the key is not allowed, or the key contradicts another one.
    Range(&'a str),
    /// The key is unknown.
    Unknown(&'a str),
    /// The plan has no part of this kind with this name.
    NoSuch(Part, &'a str),
}

/// Returns the text at a key, if the table has one.
fn text_at<'a>(row: &'a Table, key: &str) -> Option<&'a str> {
    value_at(row, key)?.as_str()
}

/// Checks whether a value is a list of texts.
fn are_texts(value: &Value) -> bool {
    match value.as_array() {
        Some(items) => items.as_slice().iter().all(|item| item.as_str().is_some()),
        None => false,
    }
}

/// Checks whether a value is of the type of a key: a list of texts for `links`, a text for the others.
fn is_of_kind(key: &str, value: &Value) -> bool {
    if key == "links" {
        are_texts(value)
    } else {
        value.as_str().is_some()
    }
}

/// Returns the first key whose value is of another type.
fn wrong_kind(row: &Table) -> Option<&'static str> {
    for key in KEYS {
        if let Some(value) = value_at(row, key) {
            if !is_of_kind(key, value) {
                return Some(key);
            }
        }
    }
    None
}

/// Returns the rule that a table breaks if it has none of `link`, `bridge` and `links`, or several.
fn wrong_choice(row: &Table) -> Option<Wrong<'static>> {
    let link = value_at(row, "link").is_some();
    let bridge = value_at(row, "bridge").is_some();
    let links = value_at(row, "links").is_some();
    if link && bridge {
        return Some(Wrong::Range("bridge"));
    }
    if links && (link || bridge) {
        return Some(Wrong::Range("links"));
    }
    if link || bridge || links {
        None
    } else {
        Some(Wrong::Missing("link"))
    }
}

/// Returns the two links at the key `links`, if the table has the key.
fn links_at(row: &Table) -> Option<&[Value]> {
    Some(value_at(row, "links")?.as_array()?.as_slice())
}

/// Checks whether a table lists other than two different links.
fn has_wrong_links(row: &Table) -> bool {
    match links_at(row) {
        None => false,
        Some([one, other]) => one.as_str() == other.as_str(),
        Some(_) => true,
    }
}

/// Returns the first link of a list that the plan lacks.
fn unknown_link<'a>(plan: &Plan, links: &'a [Value]) -> Option<&'a str>
    requires { IsSound plan.now }
{
    for link in links {
        if let Some(name) = link.as_str() {
            if link_named(plan, name).is_none() {
                return Some(name);
            }
        }
    }
    None
}

/// Returns the first part that a table names and the plan lacks, with its name.
fn unknown_part<'a>(plan: &Plan, row: &'a Table) -> Option<Wrong<'a>>
    requires { IsSound plan.now }
{
    if let Some(name) = text_at(row, "link") {
        if link_named(plan, name).is_none() {
            return Some(Wrong::NoSuch(Part::Link, name));
        }
    }
    if let Some(name) = text_at(row, "bridge") {
        if bridge_named(plan, name).is_none() {
            return Some(Wrong::NoSuch(Part::Bridge, name));
        }
    }
    if let Some(name) = unknown_link(plan, links_at(row).unwrap_or(&[])) {
        return Some(Wrong::NoSuch(Part::Link, name));
    }
    let name = text_at(row, "service")?;
    match service_named(plan, name) {
        Some(_) => None,
        None => Some(Wrong::NoSuch(Part::Service, name)),
    }
}

/// Returns the first rule that a table breaks. Types come first, then missing keys and values, unknown keys, and names.
fn wrong_of<'a>(plan: &Plan, row: &'a Table) -> Option<Wrong<'a>>
    requires { IsSound plan.now }
{
    if let Some(key) = wrong_kind(row) {
        return Some(Wrong::Kind(key));
    }
    if let Some(wrong) = wrong_choice(row) {
        return Some(wrong);
    }
    if has_wrong_links(row) {
        return Some(Wrong::Range("links"));
    }
    match unknown_key(row) {
        Some(key) => Some(Wrong::Unknown(key)),
        None => unknown_part(plan, row),
    }
}

/// Returns the path of a key of the table with this index, from 0.
fn path_at(alloc: Global, index: usize, key: &str) -> Result<Text, Memory> {
    let path = format!(in alloc; "accept[{index}].{key}")?;
    Ok(Text::from_string(path))
}

/// Returns the fault of a rule that the table with this index breaks.
fn told(alloc: Global, index: usize, wrong: Wrong<'_>) -> Result<AcceptFault, Memory> {
    let fault = match wrong {
        Wrong::Missing(key) => PlanFault::Missing(path_at(alloc, index, key)?),
        Wrong::Kind(key) => PlanFault::Kind(path_at(alloc, index, key)?),
        Wrong::Range(key) => PlanFault::Range(path_at(alloc, index, key)?),
        Wrong::Unknown(key) => PlanFault::Unknown(path_at(alloc, index, key)?),
        Wrong::NoSuch(part, name) => {
            let name = Text::from_string(String::from_str(alloc, name)?);
            return Ok(AcceptFault::NoSuch { index, part, name });
        }
    };
    Ok(AcceptFault::Rule(fault))
}

/// Returns the fault of a key at the top whose value is of another type than an array of tables.
pub(crate) fn no_tables(alloc: Global) -> AcceptFault {
    match String::from_str(alloc, "accept") {
        Ok(key) => AcceptFault::Rule(PlanFault::Kind(Text::from_string(key))),
        Err(_) => AcceptFault::Rule(PlanFault::Memory),
    }
}

/// Returns the fault of an unknown key at the top.
pub(crate) fn unknown(alloc: Global, key: &str) -> AcceptFault {
    match String::from_str(alloc, key) {
        Ok(key) => AcceptFault::Rule(PlanFault::Unknown(Text::from_string(key))),
        Err(_) => AcceptFault::Rule(PlanFault::Memory),
    }
}

/// Returns the fault of the item with this index, which describes no acceptance.
pub(crate) fn refusal_of(alloc: Global, plan: &Plan, item: &Value, index: usize) -> AcceptFault
    requires { IsSound plan.now }
{
    let Some(row) = item.as_table() else {
        return no_tables(alloc);
    };
    let Some(wrong) = wrong_of(plan, row) else {
        return no_tables(alloc);
    };
    match told(alloc, index, wrong) {
        Ok(fault) => fault,
        Err(Memory) => AcceptFault::Rule(PlanFault::Memory),
    }
}
