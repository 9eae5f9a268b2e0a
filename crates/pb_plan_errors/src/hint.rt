//! The hints of errors.

ghost use Rattle.std.specs.Prelude.{◌≡◌, map, option_map, string_bytes, IfOk, IfSome};
ghost use Rattle.toml.specs.View.{table_view};
ghost use Rattle.pb_plan_errors.specs.Hints.{meant, has_it, TellsLine, TellsOther, IsHint};
ghost use Rattle.pb_plan_errors.specs.Hints.{is_for_kind, kinds_with, unknown_hint};
ghost use Rattle.pb_plan_errors.specs.Hints.{key_for_both, is_for_both, both_hint, range_hint};
ghost use Rattle.pb_plan_errors.specs.Rules.{keys_of};

use crate::finding::Finding;
use crate::marking::line_of;
use crate::message::table_of_key;
use crate::names::{name_at, named_by, names_of};
use crate::path::word_and_key;
use crate::row::has_key;
use crate::rule::{Rule, rules_of};
use pb_diagnostics::{Site, nearest};
use pb_frame::Memory;
use pb_service::PlanFault;
use std::alloc::Global;
use toml::Table;

/// Returns the hint that another name was meant, if one of the names is near.
fn meant(alloc: Global, names: &[&str], text: &str) -> Result<Option<String>, Memory>
    ensures { IfOk result (λ hint. option_map string_bytes hint ≡ meant text.now (map (λ n. n.now) names.now)) }
{
    match nearest(alloc, names, text)? {
        Some(near) => Ok(Some(format!(in alloc; "did you mean \"{near}\"?")?)),
        None => Ok(None),
    }
}

/// Returns the keys of some rules.
fn keys_of(alloc: Global, rules: &[Rule]) -> Result<Vec<&'static str>, Memory>
    ensures { IfOk result (λ keys. map (λ k. k.now) keys.items ≡ map (λ r. r.key.now) rules.now) }
{
    let mut keys = Vec::new(alloc);
    for rule in rules {
        keys.push(rule.key)?;
    }
    Ok(keys)
}

/// Returns the hint that another key was meant, if a key of the table is near.
fn meant_key(alloc: Global, word: &str, key: &str) -> Result<Option<String>, Memory>
    ensures { IfOk result (λ hint. option_map string_bytes hint ≡ meant key.now (keys_of word.now)) }
{
    let keys = keys_of(alloc, rules_of(word))?;
    meant(alloc, keys.as_slice(), key)
}

/// Returns the kinds of customer ports that have a key which the others lack.
fn kinds_with(key: &str) -> Option<&'static str>
    ensures { option_map (λ kinds. kinds.now) result ≡ kinds_with key.now }
{
    if key == "in" {
        Some("\"memory\"")
    } else if key == "read" || key == "replay" || key == "speed" {
        Some("\"capture\" or \"replay\"")
    } else if key == "write" || key == "stamp" {
        Some("\"capture\" or \"record\"")
    } else if key == "path" {
        Some("\"socket\" without listen")
    } else if key == "listen" || (key == "stay" || key == "framing") {
        Some("\"socket\"")
    } else if key == "local" || (key == "remote" || key == "encap") {
        Some("\"udp\"")
    } else if key == "vni" {
        Some("\"udp\" with encap \"vxlan\"")
    } else {
        None
    }
}

/// Returns the hint that a key of a customer port is for these kinds.
fn is_for_kind(alloc: Global, key: &str, kinds: &str) -> Result<String, Memory>
    ensures { IfOk result (λ h. string_bytes h ≡ is_for_kind key.now kinds.now) }
{
    Ok(format!(in alloc; "{key} is for kind {kinds}")?)
}

/// Returns the hint for an unknown key of a table: the kinds of customer ports that have it, or else the nearest key.
fn unknown_hint(alloc: Global, word: &str, key: &str) -> Result<Option<String>, Memory>
    ensures { IfOk result (λ hint. option_map string_bytes hint ≡ unknown_hint word.now key.now) }
{
    match kinds_with(key) {
        Some(kinds) if word == "port" => Ok(Some(is_for_kind(alloc, key, kinds)?)),
        _ => meant_key(alloc, word, key),
    }
}

/// Returns the hint that a table has the value, at a line.
fn has_it(alloc: Global, word: &str, name: &str, line: usize) -> Result<String, Memory>
    ensures { IfOk result (λ h. string_bytes h ≡ has_it word.now name.now line) }
{
    Ok(format!(in alloc; "{word} \"{name}\" has it at line {line}")?)
}

/// Returns the hint with the line of the other key.
fn other_line(
    alloc: Global,
    file: &[u8],
    document: &Table,
    word: &str,
    index: usize,
    key: &str,
) -> Result<Option<String>, Memory>
    ensures { IfOk result (λ hint. IfSome hint (λ h.
        TellsLine file.now (table_view document.now) (Site.RowKey word.entry index key.entry) (string_bytes h))) }
{
    match line_of(alloc, file, Site::RowKey(word, index, key))? {
        Some(line) => Ok(Some(has_it(alloc, word, name_at(document, word, index), line)?)),
        None => Ok(None),
    }
}

/// Returns the hint with the line of a key of another table.
fn site_hint(
    alloc: Global,
    file: &[u8],
    document: &Table,
    site: Site<'_>,
) -> Result<Option<String>, Memory>
    ensures { IfOk result (λ hint. IfSome hint (λ h.
        TellsLine file.now (table_view document.now) site.entry (string_bytes h))) }
{
    match site {
        Site::RowKey(word, index, key) => other_line(alloc, file, document, word, index, key),
        Site::Key(_) | Site::TableKey(_, _) | Site::Row(_, _) => Ok(None),
    }
}

/// Returns the hint with the line of the other key of a finding, if it has one.
fn other_hint(
    alloc: Global,
    file: &[u8],
    document: &Table,
    other: Option<Site<'_>>,
) -> Result<Option<String>, Memory>
    ensures { IfOk result (TellsOther file.now (table_view document.now) other.entry) }
{
    match other {
        Some(site) => site_hint(alloc, file, document, site),
        None => Ok(None),
    }
}

/// Returns the key for both ends of a link that is in place of a key of one end.
fn key_for_both(key: &str) -> Option<&'static str>
    ensures { option_map (λ both. both.now) result ≡ key_for_both key.now }
{
    if key == "a_cost" || key == "b_cost" {
        Some("cost")
    } else if key == "a_services" || key == "b_services" {
        Some("services")
    } else {
        None
    }
}

/// Returns the hint that a key is for both ends of a link, beside a key of one end.
fn is_for_both(alloc: Global, both: &str, key: &str) -> Result<String, Memory>
    ensures { IfOk result (λ h. string_bytes h ≡ is_for_both both.now key.now) }
{
    Ok(format!(in alloc; "{both} is for both ends; remove {key} or {both}")?)
}

/// Returns the hint that a table has a key for both ends beside a key of one end, if it has one.
fn both_hint(alloc: Global, row: &Table, key: &str) -> Result<Option<String>, Memory>
    ensures { IfOk result (λ hint. option_map string_bytes hint ≡ both_hint (table_view row.now) key.now) }
{
    match key_for_both(key) {
        Some(both) if has_key(row, both) => Ok(Some(is_for_both(alloc, both, key)?)),
        _ => Ok(None),
    }
}

/// Returns the hint for a value that is not allowed: that another key is for both ends, if the table has one.
fn range_hint(alloc: Global, document: &Table, site: Site<'_>) -> Result<Option<String>, Memory>
    ensures { IfOk result (λ hint. option_map string_bytes hint
        ≡ range_hint (table_view document.now) site.entry) }
{
    let (_, key) = word_and_key(site);
    match table_of_key(document, site) {
        Some(row) => both_hint(alloc, row, key),
        None => Ok(None),
    }
}

/// Returns the hint of an error, if there is one: the nearest name or key, the kinds of ports that have the key, the
/// line of the other use, or the key for both ends of a link.
///
/// # Errors
///
/// `Memory` if an allocation failed.
pub(crate) fn hint_of(
    alloc: Global,
    file: &[u8],
    document: &Table,
    fault: &PlanFault,
    finding: &Finding<'_>,
) -> Result<Option<String>, Memory>
    ensures { IfOk result (IsHint file.now (table_view document.now) fault.now finding.now) }
{
    let (word, key) = word_and_key(finding.about);
    match fault {
        PlanFault::Unknown(_) => unknown_hint(alloc, word, key),
        PlanFault::NoSuch(name) => {
            let names = names_of(alloc, document, named_by(key))?;
            meant(alloc, names.as_slice(), name.as_str())
        }
        PlanFault::Twice(_) | PlanFault::LinkEnd => {
            other_hint(alloc, file, document, finding.other)
        }
        PlanFault::Range(_) => range_hint(alloc, document, finding.about),
        PlanFault::Missing(_)
        | PlanFault::Kind(_)
        | PlanFault::TooMany
        | PlanFault::Utf8
        | PlanFault::Toml
        | PlanFault::Memory => Ok(None),
    }
}
