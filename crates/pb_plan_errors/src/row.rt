//! The values of a table.

ghost use Rattle.std.specs.Prelude.{◌≡◌, option_map};
ghost use Rattle.toml.specs.Data.{get_member};
ghost use Rattle.toml.specs.View.{view, items_view, table_view};
ghost use Rattle.pb_plan_errors.specs.Rows.{integer_at};
ghost use Rattle.pb_service.specs.Tables.{text_at, items_at};
ghost use Rattle.pb_service.specs.Told.{has_key};
ghost use Rattle.pb_service.specs.Values.{text_in};

use pb_frame::Memory;
use pb_lan::is_name;
use std::alloc::Global;
use std::collections::BTreeSet;
use toml::{Table, Value};

/// Returns the value at a key, if there is one.
fn value_at<'a>(table: &'a Table, key: &str) -> Option<&'a Value>
    ensures { option_map (λ v. view v.now) result ≡ get_member key.now (table_view table.now) }
{
    table.get(key)
}

/// Returns whether a table has the key.
pub(crate) fn has_key(row: &Table, key: &str) -> bool
    ensures { result ≡ has_key (table_view row.now) key.now }
{
    match value_at(row, key) {
        Some(_) => true,
        None => false,
    }
}

/// Returns the text of a value, or the empty text if it isn't a text.
fn text_in(value: &Value) -> &str
    ensures { result.now ≡ text_in (view value.now) }
{
    match value.as_str() {
        Some(text) => text,
        None => "",
    }
}

/// Returns the text at a key, or the empty text if there is none.
pub(crate) fn text_at<'a>(row: &'a Table, key: &str) -> &'a str
    ensures { result.now ≡ text_at (table_view row.now) key.now }
{
    match value_at(row, key) {
        Some(value) => text_in(value),
        None => "",
    }
}

/// Returns the integer at a key, or 0 if there is none.
pub(crate) fn integer_at(row: &Table, key: &str) -> i64
    ensures { result ≡ integer_at (table_view row.now) key.now }
{
    match value_at(row, key) {
        Some(value) => value.as_integer().unwrap_or(0),
        None => 0,
    }
}

/// Returns the items of the array at a key, or no items if there is none.
pub(crate) fn items_at<'a>(row: &'a Table, key: &str) -> &'a [Value]
    ensures { items_view result.now ≡ items_at (table_view row.now) key.now }
{
    match value_at(row, key) {
        Some(value) => match value.as_array() {
            Some(items) => items.as_slice(),
            None => &[],
        },
        None => &[],
    }
}

/// Checks whether the items are different names.
///
/// # Errors
///
/// `Memory` if an allocation failed.
pub(crate) fn are_names(alloc: Global, items: &[Value]) -> Result<bool, Memory> {
    let mut seen = BTreeSet::new(alloc);
    for item in items {
        let name = text_in(item);
        if !is_name(name.as_bytes()) {
            return Ok(false);
        }
        match seen.insert(name) {
            Ok(true) => {}
            Ok(false) => return Ok(false),
            Err(_) => return Err(Memory),
        }
    }
    Ok(true)
}
