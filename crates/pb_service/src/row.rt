//! Checks of a table against the rules of its keys.

ghost use Rattle.std.specs.Prelude.{◌≡◌, ◌⊎◌, option_map, option_copied, find, not};
ghost use Rattle.std.specs.Prelude.{OnOk, IfOk, IfErr, IfNone, IfSome, None, string_bytes};
ghost use Rattle.std.specs.BTreeMap.{keys};
ghost use Rattle.toml.specs.Data.{get_member};
ghost use Rattle.toml.specs.View.{view, table_view};
ghost use Rattle.pb_service.specs.Sections.{path_at};
ghost use Rattle.pb_service.specs.Formats.{top_keys};
ghost use Rattle.pb_service.specs.Refusals.{Refuses};
ghost use Rattle.pb_service.specs.Keys.{rule_of, rules_of, names_of, IsTaken, IsRefused, IsAccepted};
ghost use Rattle.pb_service.specs.Keys.{RefusesRow, first_unknown, is_known, fault_of};
ghost use Rattle.pb_service.specs.declared.fault.PlanFault.TheVariants.{Unknown as unknown_fault};
ghost use Rattle.pb_service.specs.declared.fault.PlanFault.TheVariants.{Memory as memory_fault};

use crate::fault::PlanFault;
use crate::key_fault::KeyFault;
use crate::rule::Key;
use crate::section::{KeyTable, path_at};
use crate::told::value_at;
use crate::values::{is_allowed, is_of_kind};
use pb_frame::Text;
use std::alloc::{AllocError, Global};
use toml::{Table, Value};

/// Returns the rule that the value at a key breaks, if it breaks one. `None` for the value means that the key is
/// missing.
///
/// # Errors
///
/// `AllocError` if an allocation failed.
fn refusal(alloc: Global, key: &Key, value: Option<&Value>) -> Result<Option<KeyFault>, AllocError>
    ensures none { IfOk result (λ found.
        IfNone found (IsTaken (rule_of key.now) (option_map (λ v. view v.now) value.entry))) }
    ensures some { IfOk result (λ found. IfSome found (λ fault.
        IsRefused (rule_of key.now) (option_map (λ v. view v.now) value.entry) fault)) }
{
    let Some(value) = value else {
        return Ok(if key.needed {
            Some(KeyFault::Missing)
        } else {
            None
        });
    };
    if is_allowed(alloc, key.rule, value)? {
        return Ok(None);
    }
    Ok(Some(if is_of_kind(key.rule, value) {
        KeyFault::Range
    } else {
        KeyFault::Kind
    }))
}

/// Returns the fault of a key, with its path.
pub(crate) fn told(alloc: Global, key_table: KeyTable, key: &str, fault: KeyFault) -> PlanFault
    ensures { (result ≡ memory_fault) ⊎ (result ≡ fault_of fault (path_at key_table key.now)) }
{
    match path_at(alloc, key_table, key) {
        Ok(path) => told_at(path, fault),
        Err(_) => PlanFault::Memory,
    }
}

/// Returns the fault of a key at a given path.
fn told_at(path: Text, fault: KeyFault) -> PlanFault
    ensures { result ≡ fault_of fault path }
{
    match fault {
        KeyFault::Missing => PlanFault::Missing(path),
        KeyFault::Kind => PlanFault::Kind(path),
        KeyFault::Range => PlanFault::Range(path),
    }
}

/// Returns the first key of a table that isn't known.
fn unknown_key<'a>(table: &'a Table, known: &[Key]) -> Option<&'a str>
    ensures { option_map (λ k. k.now) result ≡ first_unknown (names_of (rules_of known.now)) (table_view table.now) }
{
    match unknown_entry(table, known) {
        None => None,
        Some(key) => Some(key.as_str()),
    }
}

/// Returns the first key of a table that isn't known, as the table's own string.
fn unknown_entry<'a>(table: &'a Table, known: &[Key]) -> Option<&'a String>
    ensures { option_copied result ≡ find (λ key. not (is_known (names_of (rules_of known.now)) (string_bytes key)))
        (keys table.now) }
{
    table.keys().find(|key| !is_known(known, key.as_str()))
}

/// Returns whether one of the known keys has this name.
fn is_known(known: &[Key], key: &str) -> bool
    ensures { result ≡ is_known (names_of (rules_of known.now)) key.now }
{
    for k in known {
        if key == k.name {
            return true;
        }
    }
    false
}

/// Checks a table against the rules of its keys, in their order, and then for unknown keys.
///
/// # Errors
///
/// `Missing`, `Kind` or `Range` for the first key whose rule is broken, else `Unknown` for the first unknown key.
/// `Memory` if an allocation failed.
pub(crate) fn check_keys(
    alloc: Global,
    key_table: KeyTable,
    keys: &[Key],
    row: &Table,
) -> Result<(), PlanFault>
    ensures ok { OnOk result (IsAccepted (rules_of keys.now) (table_view row.now)) }
    ensures err { IfErr result (RefusesRow (rules_of keys.now) key_table (table_view row.now)) }
{
    for key in keys {
        let found = refusal(alloc, key, value_at(row, key.name))?;
        if let Some(fault) = found {
            return Err(told(alloc, key_table, key.name, fault));
        }
    }
    match unknown_key(row, keys) {
        None => Ok(()),
        Some(key) => Err(PlanFault::Unknown(path_at(alloc, key_table, key)?)),
    }
}

/// Checks that the document has only known keys at the top.
///
/// # Errors
///
/// `Unknown` for the first other key, `Memory` if an allocation failed.
pub(crate) fn check_top(alloc: Global, document: &Table) -> Result<(), PlanFault>
    ensures ok { OnOk result (first_unknown top_keys (table_view document.now) ≡ None) }
    ensures err { IfErr result (Refuses (table_view document.now)) }
{
    match unknown_top(document) {
        None => Ok(()),
        Some(key) => Err(unknown(alloc, key)),
    }
}

/// Returns the fault of an unknown key at the top.
fn unknown(alloc: Global, key: &str) -> PlanFault
    ensures { (result ≡ memory_fault) ⊎ (result ≡ unknown_fault key.now) }
{
    match String::from_str(alloc, key) {
        Ok(key) => PlanFault::Unknown(Text::from_string(key)),
        Err(_) => PlanFault::Memory,
    }
}

/// Returns the first unknown key at the top.
fn unknown_top(document: &Table) -> Option<&str>
    ensures { option_map (λ k. k.now) result ≡ first_unknown top_keys (table_view document.now) }
{
    match unknown_top_entry(document) {
        None => None,
        Some(key) => Some(key.as_str()),
    }
}

/// Returns the first unknown key at the top, as the document's own string.
fn unknown_top_entry(document: &Table) -> Option<&String>
    ensures { option_copied result ≡ find (λ key. not (is_known top_keys (string_bytes key))) (keys document.now) }
{
    document.keys().find(|key| !is_top_key(key.as_str()))
}

/// Returns whether a document may have this key at the top.
fn is_top_key(key: &str) -> bool
    ensures { result ≡ is_known top_keys key.now }
{
    key == "network"
        || (key == "bridge"
            || (key == "link"
                || (key == "service"
                    || (key == "port" || (key == "event" || (key == "tap" || key == "accept"))))))
}
