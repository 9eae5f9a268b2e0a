//! The arrays of tables of a document.

ghost use Rattle.std.specs.Prelude.{◌≡◌, ◌⊎◌, length, map, is_some, IfOk, IfErr, OnOk};
ghost use Rattle.toml.specs.Data.{as_table, get_member};
ghost use Rattle.toml.specs.View.{view, items_view, table_view};
ghost use Rattle.pb_service.specs.Sections.{word_of};
ghost use Rattle.pb_service.specs.Values.{all_items, is_list};
ghost use Rattle.pb_service.specs.Told.{rows_of, tables_in, names_in};
ghost use Rattle.pb_service.specs.Refusals.{Refuses, HasTables, is_array_of_tables, names_of};
ghost use Rattle.pb_service.specs.declared.fault.PlanFault.TheVariants.{Kind as kind_fault, Memory as memory_fault};

use crate::fault::PlanFault;
use crate::section::{Section, most_of, word_of};
use crate::told::{items_at, text_at, value_at};
use pb_frame::Text;
use std::alloc::Global;
use toml::{Table, Value};

/// Returns the tables of an array. Items that aren't tables are left out.
pub(crate) fn tables_of<'a>(
    alloc: Global,
    document: &'a Table,
    section: Section,
) -> Result<Vec<&'a Table>, PlanFault>
    ensures ok { IfOk result (λ tables. map (λ t. table_view t.now) tables.items
        ≡ rows_of (table_view document.now) section) }
    ensures err { IfErr result (λ e. e ≡ memory_fault) }
{
    let items = items_at(document, word_of(section));
    tables_in(alloc, items)
}

/// Returns the tables among the items. Other items are left out.
fn tables_in<'a>(alloc: Global, items: &'a [Value]) -> Result<Vec<&'a Table>, PlanFault>
    ensures ok { IfOk result (λ tables. map (λ t. table_view t.now) tables.items ≡ tables_in (items_view items.now)) }
    ensures err { IfErr result (λ e. e ≡ memory_fault) }
{
    let mut tables = Vec::with_capacity(alloc, items.len())?;
    for item in items {
        if let Some(table) = item.as_table() {
            tables.push(table)?;
        }
    }
    Ok(tables)
}

/// Returns whether each item is a table.
fn are_tables(items: &[Value]) -> bool
    ensures { result ≡ all_items (λ d. is_some (as_table d)) (items_view items.now) }
{
    for item in items {
        if !item.is_table() {
            return false;
        }
    }
    true
}

/// Returns whether the value is an array of tables.
fn is_array_of_tables(value: &Value) -> bool
    ensures { result ≡ is_list (all_items (λ d. is_some (as_table d))) (view value.now) }
{
    match value.as_array() {
        Some(items) => are_tables(items.as_slice()),
        None => false,
    }
}

/// Returns the fault of a value that isn't an array of tables.
fn no_tables(alloc: Global, section: Section) -> PlanFault
    ensures { (result ≡ memory_fault) ⊎ (result ≡ kind_fault (word_of section)) }
{
    match String::from_str(alloc, word_of(section)) {
        Ok(word) => PlanFault::Kind(Text::from_string(word)),
        Err(_) => PlanFault::Memory,
    }
}

/// Returns the tables of an array, after a check that it is an array of tables and not too long.
///
/// # Errors
///
/// `Kind` if the value at the key isn't an array of tables, `TooMany` if it has too many, `Memory` if an allocation
/// failed.
pub(crate) fn rows_of<'a>(
    alloc: Global,
    document: &'a Table,
    section: Section,
) -> Result<Vec<&'a Table>, PlanFault>
    ensures ok { IfOk result (λ rows. map (λ t. table_view t.now) rows.items
        ≡ rows_of (table_view document.now) section) }
    ensures tables { OnOk result (HasTables (table_view document.now) section) }
    ensures err { IfErr result (Refuses (table_view document.now)) }
{
    if !has_tables(document, section) {
        return Err(no_tables(alloc, section));
    }
    let rows = tables_of(alloc, document, section)?;
    if rows.as_slice().len() > most_of(section) {
        return Err(PlanFault::TooMany);
    }
    Ok(rows)
}

/// Returns whether the document has an array of tables at the key, or nothing.
fn has_tables(document: &Table, section: Section) -> bool
    ensures { result ≡ is_array_of_tables (get_member (word_of section) (table_view document.now)) }
{
    match value_at(document, word_of(section)) {
        None => true,
        Some(value) => is_array_of_tables(value),
    }
}

/// Returns the name of each table, or the empty text if it has none.
pub(crate) fn names_in<'a>(alloc: Global, rows: &[&'a Table]) -> Result<Vec<&'a str>, PlanFault>
    ensures ok { IfOk result (λ names. map (λ n. n.now) names.items ≡ names_in (map (λ t. table_view t.now) rows.now)) }
    ensures len { IfOk result (λ names. length names.items ≡ length rows.now) }
    ensures err { IfErr result (λ e. e ≡ memory_fault) }
{
    let mut names = Vec::with_capacity(alloc, rows.len())?;
    for row in rows {
        names.push(text_at(row, "name"))?;
    }
    Ok(names)
}

/// Returns the names of the tables of an array.
pub(crate) fn names_of<'a>(
    alloc: Global,
    document: &'a Table,
    section: Section,
) -> Result<Vec<&'a str>, PlanFault>
    ensures ok { IfOk result (λ names. map (λ n. n.now) names.items ≡ names_of (table_view document.now) section) }
    ensures err { IfErr result (λ e. e ≡ memory_fault) }
{
    let rows = tables_of(alloc, document, section)?;
    names_in(alloc, &rows)
}

/// Returns the tables of an array and their names, with the checks and faults of [`rows_of`].
pub(crate) fn tables_at<'a>(
    alloc: Global,
    document: &'a Table,
    section: Section,
) -> Result<(Vec<&'a Table>, Vec<&'a str>), PlanFault>
    ensures ok { IfOk result (λ r. map (λ t. table_view t.now) r.0.items ≡ rows_of (table_view document.now) section) }
    ensures names { IfOk result (λ r. map (λ n. n.now) r.1.items ≡ names_of (table_view document.now) section) }
    ensures len { IfOk result (λ r. length r.1.items ≡ length r.0.items) }
    ensures tables { OnOk result (HasTables (table_view document.now) section) }
    ensures err { IfErr result (Refuses (table_view document.now)) }
{
    let rows = rows_of(alloc, document, section)?;
    let names = names_in(alloc, &rows)?;
    Ok((rows, names))
}
