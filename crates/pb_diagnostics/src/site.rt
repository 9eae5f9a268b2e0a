//! Keys and tables of a TOML document.

ghost use Rattle.std.specs.Prelude.{◌≡◌, Some, option_map, option_copied, is_some};
ghost use Rattle.std.specs.Option.{option_and_then};
ghost use Rattle.toml.specs.Data.{as_table, get_member};
ghost use Rattle.toml.specs.View.{view, table_view};
ghost use Rattle.pb_diagnostics.specs.Sites.{has_site, table_at, row_at};

use toml::{Table, Value};

/// A key or a table of a TOML document. Tables of an array are counted from 0.
#[derive(Clone, Copy)]
pub enum Site<'a> {
    /// A key at the top.
    Key(&'a str),
    /// A key of a table: the key of the table, and the key in it.
    TableKey(&'a str, &'a str),
    /// A table of an array of tables, by the key of the array.
    Row(&'a str, usize),
    /// A key of a table of an array of tables.
    RowKey(&'a str, usize, &'a str),
}

/// Returns the value at a key.
fn value_at<'a>(table: &'a Table, key: &str) -> Option<&'a Value>
    ensures { option_map (λ v. view v.now) result ≡ get_member key.now (table_view table.now) }
{
    table.get(key)
}

/// Returns whether a table has a key.
fn has_key(table: &Table, key: &str) -> bool
    ensures { result ≡ is_some (get_member key.now (table_view table.now)) }
{
    value_at(table, key).is_some()
}

/// Returns the table at a key of a document, if there is one.
pub fn table_at<'a>(document: &'a Table, word: &str) -> Option<&'a Table>
    ensures { option_map (λ t. table_view t.now) result ≡ table_at (table_view document.now) word.now }
{
    match value_at(document, word) {
        Some(value) => value.as_table(),
        None => None,
    }
}

/// Returns a table of an array of tables of a document, counted from 0, if there is one.
pub fn row_at<'a>(document: &'a Table, word: &str, index: usize) -> Option<&'a Table>
    ensures { option_map (λ t. table_view t.now) result ≡ row_at (table_view document.now) word.now index }
{
    let Some(rows) = value_at(document, word) else {
        return None;
    };
    match rows.get(index) {
        Some(row) => row.as_table(),
        None => None,
    }
}

/// Returns whether a document has a key or a table.
pub fn has_site(document: &Table, site: Site<'_>) -> bool
    ensures { result ≡ has_site (table_view document.now) site.entry }
{
    match site {
        Site::Key(key) => has_key(document, key),
        Site::TableKey(word, key) => match table_at(document, word) {
            Some(table) => has_key(table, key),
            None => false,
        },
        Site::Row(word, index) => row_at(document, word, index).is_some(),
        Site::RowKey(word, index, key) => match row_at(document, word, index) {
            Some(row) => has_key(row, key),
            None => false,
        },
    }
}
