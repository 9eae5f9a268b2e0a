//! The links of a document.

ghost use Rattle.std.specs.Prelude.{◌≡◌, ◌≤◌, ◌<◌, ◌⊎◌, ◌++◌, ◌∷◌, [], true, codes, length};
ghost use Rattle.std.specs.Prelude.{map, option_map, Some, None, IfSome, IfNone, IfOk, IfErr, OnOk};
ghost use Rattle.std.specs.List.{AllZip, IsDistinct, flat_map};
ghost use Rattle.toml.specs.Data.{get_member};
ghost use Rattle.toml.specs.View.{items_view, table_view};
ghost use Rattle.pb_frame.specs.Admission.{same};
ghost use Rattle.pb_service.specs.Formats.{link_keys};
ghost use Rattle.pb_service.specs.Told.{rows_of, number_from};
ghost use Rattle.pb_service.specs.Tables.{text_at, items_at, services_told, are_known};
ghost use Rattle.pb_service.specs.Tables.{key_for, is_doubled, doubled_key};
ghost use Rattle.pb_service.specs.Tables.{names_of_end, IsEndOf, IsLinkOf, IsRead};
ghost use Rattle.pb_service.specs.UsedPorts.{is_used, port_of, AreUsedOnce};
ghost use Rattle.pb_service.specs.Refusals.{Refuses, RefusesTable, HasTables, LacksName, LacksListed};
ghost use Rattle.pb_service.specs.Refusals.{IsUnlisted, DoublesKey, LinkListsNone, RefusesLink, names_of, link_ports};
ghost use Rattle.pb_service.specs.declared.fault.PlanFault.TheVariants.{LinkEnd as link_end_fault};
ghost use Rattle.pb_service.specs.declared.fault.PlanFault.TheVariants.{Memory as memory_fault};
ghost use Rattle.pb_service.specs.declared.section.Section.TheVariants.{Bridge as bridge_section, Link as link_section};
ghost use Rattle.pb_service.specs.declared.section.Section.TheVariants.{Service as service_section};

use crate::check::{check_row, is_one_of, no_such, put};
use crate::fault::PlanFault;
use crate::key_fault::KeyFault;
use crate::row::told;
use crate::section::{KeyTable, Section};
use crate::table::{names_of, tables_at};
use crate::told::{
    copy_at, has_key, items_at, naturals_in, number_at, number_of, numbers_of, state_of, text_at,
    value_at,
};
use crate::used::{LocalPort, use_port};
use crate::values::text_in;
use pb_frame::Seq;
use pb_lan::{End, LinkPlan};
use std::alloc::Global;
use toml::{Table, Value};

/// The keys of one end of a link.
#[derive(Clone, Copy)]
struct EndKeys {
    bridge: &'static str,
    port: &'static str,
    cost: &'static str,
    priority: &'static str,
    state: &'static str,
    services: &'static str,
}

/// The keys of end A.
static A: EndKeys = EndKeys {
    bridge: "a",
    port: "a_port",
    cost: "a_cost",
    priority: "a_priority",
    state: "a_state",
    services: "a_services",
};

/// The keys of end B.
static B: EndKeys = EndKeys {
    bridge: "b",
    port: "b_port",
    cost: "b_cost",
    priority: "b_priority",
    state: "b_state",
    services: "b_services",
};

/// Returns the number of the thing that the key names, counted from 1.
///
/// # Errors
///
/// `NoSuch` if none of the names is that one, `Memory` if an allocation failed.
pub(crate) fn named(alloc: Global, row: &Table, key: &str, names: &[&str]) -> Result<u8, PlanFault>
    requires { length names.now < 256 }
    ensures ok { IfOk result (λ n. number_from 1 (map (λ n. n.now) names.now) (text_at (table_view row.now) key.now)
        ≡ Some n) }
    ensures err { IfErr result (λ e.
        (e ≡ memory_fault) ⊎ LacksName (map (λ n. n.now) names.now) (table_view row.now) key.now e) }
{
    let name = text_at(row, key);
    match number_of(names, name) {
        Some(number) => Ok(number),
        None => Err(no_such(alloc, name)),
    }
}

/// Returns the first listed name that isn't one of the known names.
fn unlisted<'a>(names: &[&str], listed: &'a [Value]) -> Option<&'a str>
    ensures none { IfNone result (are_known (map (λ n. n.now) names.now) (items_view listed.now) ≡ true) }
    ensures some { IfSome result (λ name. IsUnlisted (map (λ n. n.now) names.now) (items_view listed.now) name.now) }
{
    for item in listed {
        let name = text_in(item);
        if !is_one_of(names, name) {
            return Some(name);
        }
    }
    None
}

/// Checks that each listed name is one of the known names.
///
/// # Errors
///
/// `NoSuch` for the first that isn't, `Memory` if an allocation failed.
fn check_listed(alloc: Global, names: &[&str], listed: &[Value]) -> Result<(), PlanFault>
    ensures ok { OnOk result (are_known (map (λ n. n.now) names.now) (items_view listed.now) ≡ true) }
    ensures err { IfErr result (λ e.
        (e ≡ memory_fault) ⊎ LacksListed (map (λ n. n.now) names.now) (items_view listed.now) e) }
{
    match unlisted(names, listed) {
        None => Ok(()),
        Some(name) => Err(no_such(alloc, name)),
    }
}

/// Returns the numbers of the services that an end of a link lists. Returns `None` if the table lists none, which means
/// all services.
fn services_at(
    alloc: Global,
    row: &Table,
    key: &str,
    names: &[&str],
) -> Result<Option<Seq<u8>>, PlanFault>
    ensures ok { IfOk result (λ services. services ≡ services_told (map (λ n. n.now) names.now)
        (get_member key.now (table_view row.now))) }
    ensures err { IfErr result (λ e. e ≡ memory_fault) }
{
    match value_at(row, key) {
        None => Ok(None),
        Some(_) => Ok(Some(numbers_of(alloc, names, items_at(row, key))?)),
    }
}

/// Returns the key of an end's value: that for both ends if the table has it, else the end's own.
fn key_for<'a>(row: &Table, both: &'a str, own: &'a str) -> &'a str
    ensures { result.now ≡ key_for (table_view row.now) both.now own.now }
{
    if has_key(row, both) { both } else { own }
}

/// Returns the end of a link that a table describes, at the given bridge.
fn end_of(
    alloc: Global,
    row: &Table,
    keys: &EndKeys,
    bridge: u8,
    services: &[&str],
) -> Result<End, PlanFault>
    ensures ok { IfOk result (IsEndOf (map (λ n. n.now) services.now) (table_view row.now) (names_of_end keys.now)) }
    ensures bridge { IfOk result (λ e. e.bridge ≡ bridge) }
    ensures err { IfErr result (λ e. e ≡ memory_fault) }
{
    Ok(End {
        bridge,
        port: number_at(row, keys.port, 0, 16) as u8,
        cost: number_at(row, key_for(row, "cost", keys.cost), 20_000, 200_000_000) as u32,
        priority: number_at(row, keys.priority, 128, 240) as u8,
        start: state_of(text_at(row, keys.state)),
        services: services_at(
            alloc,
            row,
            key_for(row, "services", keys.services),
            services,
        )?,
    })
}

/// Returns whether a table has a key of an end beside that for both ends.
fn is_doubled(row: &Table, both: &str, own: &str) -> bool
    ensures { result ≡ is_doubled (table_view row.now) both.now own.now }
{
    has_key(row, both) && has_key(row, own)
}

/// Returns the first key of an end that a table has beside that for both ends.
fn doubled_key(row: &Table) -> Option<&'static str>
    ensures { option_map (λ k. k.now) result ≡ doubled_key (table_view row.now) }
{
    if is_doubled(row, "cost", "a_cost") {
        Some("a_cost")
    } else if is_doubled(row, "cost", "b_cost") {
        Some("b_cost")
    } else if is_doubled(row, "services", "a_services") {
        Some("a_services")
    } else if is_doubled(row, "services", "b_services") {
        Some("b_services")
    } else {
        None
    }
}

/// Checks that a link has no key of an end beside that for both ends.
///
/// # Errors
///
/// `Range` for the first such key, `Memory` if an allocation failed.
fn check_apart(alloc: Global, row: &Table, index: usize) -> Result<(), PlanFault>
    ensures ok { OnOk result (doubled_key (table_view row.now) ≡ None) }
    ensures err { IfErr result (DoublesKey index (table_view row.now)) }
{
    match doubled_key(row) {
        None => Ok(()),
        Some(key) => {
            let key_table = KeyTable::Row(Section::Link, index);
            Err(told(alloc, key_table, key, KeyFault::Range))
        }
    }
}

/// Checks that each service that a link lists exists.
///
/// # Errors
///
/// `NoSuch` for the first that doesn't, `Memory` if an allocation failed.
fn check_services(alloc: Global, row: &Table, services: &[&str]) -> Result<(), PlanFault>
    ensures both { OnOk result (are_known (map (λ n. n.now) services.now)
        (items_at (table_view row.now) (codes "services")) ≡ true) }
    ensures a { OnOk result (are_known (map (λ n. n.now) services.now)
        (items_at (table_view row.now) (codes "a_services")) ≡ true) }
    ensures b { OnOk result (are_known (map (λ n. n.now) services.now)
        (items_at (table_view row.now) (codes "b_services")) ≡ true) }
    ensures err { IfErr result (λ e. (e ≡ memory_fault)
        ⊎ LinkListsNone (map (λ n. n.now) services.now) (table_view row.now) e) }
{
    check_listed(alloc, services, items_at(row, "services"))?;
    check_listed(alloc, services, items_at(row, A.services))?;
    check_listed(alloc, services, items_at(row, B.services))
}

/// Returns the link that a table describes.
///
/// # Errors
///
/// `Range` for a key of an end beside that for both ends, `NoSuch` if no bridge or service has a name given, `Memory`
/// if an allocation failed.
fn link_of(
    alloc: Global,
    row: &Table,
    bridges: &[&str],
    services: &[&str],
    index: usize,
) -> Result<LinkPlan, PlanFault>
    requires { length bridges.now < 256 }
    ensures ok { IfOk result (IsLinkOf (map (λ n. n.now) bridges.now) (map (λ n. n.now) services.now)
        (table_view row.now)) }
    ensures err { IfErr result (RefusesLink (map (λ n. n.now) bridges.now) (map (λ n. n.now) services.now) index
        (table_view row.now)) }
{
    check_apart(alloc, row, index)?;
    let a = named(alloc, row, A.bridge, bridges)?;
    let b = named(alloc, row, B.bridge, bridges)?;
    check_services(alloc, row, services)?;
    Ok(LinkPlan {
        name: copy_at(alloc, row, "name")?,
        a: end_of(alloc, row, &A, a, services)?,
        b: end_of(alloc, row, &B, b, services)?,
        lost_ab: naturals_in(alloc, items_at(row, "lost_ab"))?,
        lost_ba: naturals_in(alloc, items_at(row, "lost_ba"))?,
    })
}

/// Appends the two local ports of a link to those in use.
///
/// # Errors
///
/// `LinkEnd` if one is in use already or if both are the same, `Memory` if an allocation failed.
fn use_ends(used: &mut Vec<LocalPort>, link: &LinkPlan) -> Result<(), PlanFault>
    ensures ok { OnOk result (used.new.items ≡ used.old.items ++ port_of link.now.a ∷ port_of link.now.b ∷ []) }
    ensures once { OnOk result (AreUsedOnce used.old.items → AreUsedOnce used.new.items) }
    ensures err { IfErr result (λ e. (e ≡ memory_fault) ⊎ ((e ≡ link_end_fault)
        × ((is_used used.old.items (port_of link.now.a) ≡ true)
        ⊎ (is_used (used.old.items ++ port_of link.now.a ∷ []) (port_of link.now.b) ≡ true)))) }
{
    let (a, b) = (&link.a, &link.b);
    use_port(
        used,
        LocalPort {
            bridge: a.bridge,
            port: a.port,
        },
    )?;
    use_port(
        used,
        LocalPort {
            bridge: b.bridge,
            port: b.port,
        },
    )?;
    Ok(())
}

/// The links of a document, and the local ports at which they end.
#[derive(Drop)]
pub(crate) struct Links {
    pub links: Vec<LinkPlan>,
    pub used: Vec<LocalPort>,
}

/// Reads the links of a document.
///
/// # Errors
///
/// The first rule that a table breaks. `LinkEnd` if a local port is used twice, `Memory` if an allocation failed.
pub(crate) fn read_links(alloc: Global, document: &Table) -> Result<Links, PlanFault>
    requires { HasTables (table_view document.now) bridge_section }
    ensures ok { IfOk result (λ r. AllZip (IsRead (IsLinkOf (names_of (table_view document.now) bridge_section)
        (names_of (table_view document.now) service_section)) link_keys)
        (rows_of (table_view document.now) link_section) r.links.items) }
    ensures used { IfOk result (λ r. r.used.items ≡ flat_map
        (link_ports (names_of (table_view document.now) bridge_section))
        (rows_of (table_view document.now) link_section)) }
    ensures names { OnOk result (IsDistinct same (names_of (table_view document.now) link_section)) }
    ensures once { IfOk result (λ r. AreUsedOnce r.used.items) }
    ensures tables { OnOk result (HasTables (table_view document.now) link_section) }
    ensures err { IfErr result (Refuses (table_view document.now)) }
{
    let (rows, names) = tables_at(alloc, document, Section::Link)?;
    let rows = rows.as_slice();
    let names = names.as_slice();
    let bridge_names = names_of(alloc, document, Section::Bridge)?;
    let bridges = bridge_names.as_slice();
    let service_names = names_of(alloc, document, Section::Service)?;
    let services = service_names.as_slice();
    let mut used = Vec::new(alloc);
    let mut links = Vec::new(alloc);
    for (index, row) in rows.iter().enumerate() {
        check_row(alloc, Section::Link, row, names, index)?;
        let link = link_of(alloc, row, bridges, services, index)?;
        use_ends(&mut used, &link)?;
        put(&mut links, link)?;
    }
    Ok(Links { links, used })
}
