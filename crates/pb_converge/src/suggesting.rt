//! Suggests a name for one that the plan lacks.

ghost use Rattle.std.specs.Option.{option_map};
ghost use Rattle.std.specs.Prelude.{◌≡◌, ◌++◌, ◌∷◌, [], map, string_bytes, IfOk, OnOk};
ghost use Rattle.pb_lan.specs.Ports.{all_ends, ends_of};
ghost use Rattle.pb_converge.specs.Falls.{end_name};
ghost use Rattle.pb_converge.specs.Suggestions.{all_names, first_within, suggestion};

use pb_frame::Memory;
use pb_lan::{End, LinkPlan, Plan};
use pb_names::bridge_name;
use std::alloc::Global;
use strsim::levenshtein;

/// Appends the names of all links.
fn put_links(alloc: Global, names: &mut Vec<String>, plan: &Plan) -> Result<(), Memory>
    ensures { OnOk result (map string_bytes names.new.items ≡ map string_bytes names.old.items
        ++ map (λ l. l.name) plan.now.links) }
{
    for link in plan.links.as_slice() {
        names.push(String::from_str(alloc, link.name.as_str())?)?;
    }
    Ok(())
}

/// Appends the names of all bridges.
fn put_bridges(alloc: Global, names: &mut Vec<String>, plan: &Plan) -> Result<(), Memory>
    ensures { OnOk result (map string_bytes names.new.items ≡ map string_bytes names.old.items
        ++ map (λ b. b.name) plan.now.bridges) }
{
    for bridge in plan.bridges.as_slice() {
        names.push(String::from_str(alloc, bridge.name.as_str())?)?;
    }
    Ok(())
}

/// Appends the name `BRIDGE:PORT` of an end of a link.
fn put_end(alloc: Global, names: &mut Vec<String>, plan: &Plan, end: &End) -> Result<(), Memory>
    ensures { OnOk result (map string_bytes names.new.items ≡ map string_bytes names.old.items
        ++ end_name plan.now end.now ∷ []) }
{
    let bridge = bridge_name(plan, end.bridge);
    let port = end.port;
    names.push(format!(in alloc; "{bridge}:{port}")?)?;
    Ok(())
}

/// Appends the names of both ends of a link.
fn put_ends(
    alloc: Global,
    names: &mut Vec<String>,
    plan: &Plan,
    link: &LinkPlan,
) -> Result<(), Memory>
    ensures { OnOk result (map string_bytes names.new.items ≡ map string_bytes names.old.items
        ++ map (end_name plan.now) (ends_of link.now)) }
{
    put_end(alloc, names, plan, &link.a)?;
    put_end(alloc, names, plan, &link.b)
}

/// Appends the names of the ends of all links.
fn put_ports(alloc: Global, names: &mut Vec<String>, plan: &Plan) -> Result<(), Memory>
    ensures { OnOk result (map string_bytes names.new.items ≡ map string_bytes names.old.items
        ++ map (end_name plan.now) (all_ends plan.now)) }
{
    for link in plan.links.as_slice() {
        put_ends(alloc, names, plan, link)?;
    }
    Ok(())
}

/// Returns all names that [`disables`](crate::disables) knows: those of links, of bridges and of ends of links.
///
/// # Errors
///
/// `Memory` if an allocation failed.
fn names_of(alloc: Global, plan: &Plan) -> Result<Vec<String>, Memory>
    ensures { IfOk result (λ names. map string_bytes names.items ≡ all_names plan.now) }
{
    let mut names = Vec::new(alloc);
    put_links(alloc, &mut names, plan)?;
    put_bridges(alloc, &mut names, plan)?;
    put_ports(alloc, &mut names, plan)?;
    Ok(names)
}

/// Returns the first of some names that fewer than `limit` edits of a text lead to, if there is one.
///
/// # Errors
///
/// `Memory` if an allocation failed.
fn first_within(
    alloc: Global,
    names: &[String],
    text: &str,
    limit: usize,
) -> Result<Option<String>, Memory>
    ensures { IfOk result (λ near. option_map string_bytes near
        ≡ first_within limit text.now (map string_bytes names.now)) }
{
    for name in names {
        if levenshtein(alloc, text, name.as_str())? < limit {
            return Ok(Some(name.clone()?));
        }
    }
    Ok(None)
}

/// Returns the name that a text probably means: the first one of a link, a bridge or a port `BRIDGE:PORT` that one edit
/// leads to, or else two edits. An edit inserts, removes or replaces a character (the distance of Levenshtein). `None`
/// if no name is so near.
///
/// # Errors
///
/// `Memory` if an allocation failed.
pub fn suggestion(alloc: Global, plan: &Plan, text: &str) -> Result<Option<String>, Memory>
    ensures { IfOk result (λ near. option_map string_bytes near ≡ suggestion plan.now text.now) }
{
    let names = names_of(alloc, plan)?;
    match first_within(alloc, names.as_slice(), text, 2)? {
        Some(near) => Ok(Some(near)),
        None => first_within(alloc, names.as_slice(), text, 3),
    }
}
