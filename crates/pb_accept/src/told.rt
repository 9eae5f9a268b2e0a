//! The keys of a table, and their values.

ghost use Rattle.std.specs.Prelude.{◌≡◌, option_map, option_copied, find, not, string_bytes};
ghost use Rattle.std.specs.BTreeMap.{keys};
ghost use Rattle.toml.specs.Data.{get_member};
ghost use Rattle.toml.specs.View.{view, table_view};
ghost use Rattle.pb_service.specs.Keys.{first_unknown, is_known};
ghost use Rattle.pb_accept.specs.Acceptances.{accept_keys, top_keys};

use toml::{Table, Value};

/// Returns the value at a key, if the table has the key.
pub(crate) fn value_at<'a>(table: &'a Table, key: &str) -> Option<&'a Value>
    ensures { option_map (λ v. view v.now) result ≡ get_member key.now (table_view table.now) }
{
    table.get(key)
}

/// Checks whether a table of an acceptance may have this key.
fn is_accept_key(key: &str) -> bool
    ensures { result ≡ is_known accept_keys key.now }
{
    key == "link" || (key == "bridge" || (key == "links" || key == "service"))
}

/// Checks whether a file of acceptances may have this key at the top.
fn is_top_key(key: &str) -> bool
    ensures { result ≡ is_known top_keys key.now }
{
    key == "accept"
}

/// Returns the first unknown key of a table of an acceptance, as the table's own string.
fn unknown_entry(row: &Table) -> Option<&String>
    ensures { option_copied result ≡ find (λ key. not (is_known accept_keys (string_bytes key))) (keys row.now) }
{
    row.keys().find(|key| !is_accept_key(key.as_str()))
}

/// Returns the first unknown key of a table of an acceptance.
pub(crate) fn unknown_key(row: &Table) -> Option<&str>
    ensures { option_map (λ k. k.now) result ≡ first_unknown accept_keys (table_view row.now) }
{
    match unknown_entry(row) {
        None => None,
        Some(key) => Some(key.as_str()),
    }
}

/// Returns the first unknown key at the top, as the document's own string.
fn unknown_top_entry(document: &Table) -> Option<&String>
    ensures { option_copied result ≡ find (λ key. not (is_known top_keys (string_bytes key))) (keys document.now) }
{
    document.keys().find(|key| !is_top_key(key.as_str()))
}

/// Returns the first unknown key at the top of a file of acceptances.
pub(crate) fn unknown_top(document: &Table) -> Option<&str>
    ensures { option_map (λ k. k.now) result ≡ first_unknown top_keys (table_view document.now) }
{
    match unknown_top_entry(document) {
        None => None,
        Some(key) => Some(key.as_str()),
    }
}
