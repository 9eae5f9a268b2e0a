//! The names of the tables of an array.

ghost use Rattle.std.specs.Prelude.{◌≡◌, map, IfOk};
ghost use Rattle.toml.specs.View.{table_view};
ghost use Rattle.pb_plan_errors.specs.Rows.{name_at, names_at, is_named, named_by};

use crate::row::{items_at, text_at};
use pb_diagnostics::row_at;
use pb_frame::Memory;
use std::alloc::Global;
use toml::Table;

/// Returns the name of a table of an array, or the empty text if it has none.
pub(crate) fn name_at<'a>(document: &'a Table, word: &str, index: usize) -> &'a str
    ensures { result.now ≡ name_at (table_view document.now) word.now index }
{
    match row_at(document, word, index) {
        Some(row) => text_at(row, "name"),
        None => "",
    }
}

/// Returns the names of the tables of an array, in their order.
///
/// # Errors
///
/// `Memory` if an allocation failed.
pub(crate) fn names_of<'a>(
    alloc: Global,
    document: &'a Table,
    word: &str,
) -> Result<Vec<&'a str>, Memory>
    ensures { IfOk result (λ names. map (λ n. n.now) names.items ≡ names_at (table_view document.now) word.now) }
{
    let mut names = Vec::new(alloc);
    let items = items_at(document, word);
    for item in items {
        if let Some(row) = item.as_table() {
            names.push(text_at(row, "name"))?;
        }
    }
    Ok(names)
}

/// Returns whether a table of an array has this name.
pub(crate) fn is_named(document: &Table, word: &str, name: &str) -> bool
    ensures { result ≡ is_named (table_view document.now) word.now name.now }
{
    let items = items_at(document, word);
    for item in items {
        if let Some(row) = item.as_table() {
            if name == text_at(row, "name") {
                return true;
            }
        }
    }
    false
}

/// Returns the array of tables whose names a key takes.
pub(crate) fn named_by(key: &str) -> &'static str
    ensures { result.now ≡ named_by key.now }
{
    if key == "a" || (key == "b" || key == "bridge") {
        "bridge"
    } else if key == "link" || key == "links" {
        "link"
    } else {
        "service"
    }
}
