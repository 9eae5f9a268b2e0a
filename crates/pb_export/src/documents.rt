//! The JSON document of a report.

ghost use Rattle.std.specs.Prelude.{◌≡◌, [], map, option_map, IfOk, OnOk};
ghost use Rattle.std.specs.List.{list_any};
ghost use Rattle.serde_json.specs.Data.{null, object, no_members};
ghost use Rattle.serde_json.specs.View.{view, members_view};
ghost use Rattle.pb_export.specs.Documents.{document_of, first_data, first_item, is_bare, inner_items, is_at, is_in};
ghost use Rattle.pb_export.specs.Documents.{item_data};
ghost use Rattle.pb_export.specs.Documents.{list_data, list_entry, objects_of, put_some, row_data, some_list};
ghost use Rattle.pb_export.specs.Documents.{values_of, with_fields, with_inner, with_lists, with_top};

use crate::rows::{Filled, Row};
use crate::templates::{Form, ListForm, ListShape};
use crate::values::field_value;
use serde_json::{Map, Value, put};
use std::alloc::{AllocError, Global};

/// Puts a member into a map, if there is a value.
fn put_value(
    alloc: Global,
    map: &mut Map<String, Value>,
    key: &str,
    value: Option<Value>,
) -> Result<(), AllocError>
    ensures { OnOk result (members_view map.new.entries
        ≡ put_some key.now (option_map view value) (members_view map.old.entries)) }
{
    match value {
        Some(value) => put(map, alloc, key, value),
        None => Ok(()),
    }
}

/// Puts the values of slots into a map, each under its key.
fn put_fields(
    alloc: Global,
    map: &mut Map<String, Value>,
    fields: &[Filled<'_>],
) -> Result<(), AllocError>
    ensures { OnOk result (members_view map.new.entries ≡ with_fields fields.now (members_view map.old.entries)) }
{
    for filled in fields {
        let value = field_value(alloc, &filled.field)?;
        put_value(alloc, map, filled.slot.key, value)?;
    }
    Ok(())
}

/// Returns the value of a row's first slot, or null if it has none.
fn first_value(alloc: Global, fields: &[Filled<'_>]) -> Result<Value, AllocError>
    ensures { IfOk result (λ v. view v ≡ first_data fields.now) }
{
    let [filled, ..] = fields else {
        return Ok(Value::Null);
    };
    match field_value(alloc, &filled.field)? {
        Some(value) => Ok(value),
        None => Ok(Value::Null),
    }
}

/// Checks whether the first slot has no key.
fn is_bare(fields: &[Filled<'_>]) -> bool
    ensures { result ≡ is_bare fields.now }
{
    match fields {
        [filled, ..] => filled.slot.key.is_empty(),
        [] => false,
    }
}

/// Returns the values of slots as an object.
fn object_value(alloc: Global, fields: &[Filled<'_>]) -> Result<Value, AllocError>
    ensures { IfOk result (λ v. view v ≡ object (with_fields fields.now no_members)) }
{
    let mut map = Map::new(alloc);
    put_fields(alloc, &mut map, fields)?;
    Ok(Value::Object(map))
}

/// Returns a row of a list inside an object: an object too, or its first value if that has no key.
fn row_value(alloc: Global, row: &Row<'_>) -> Result<Value, AllocError>
    ensures { IfOk result (λ v. view v ≡ row_data row.now) }
{
    let fields = row.fields.as_slice();
    if is_bare(fields) {
        first_value(alloc, fields)
    } else {
        object_value(alloc, fields)
    }
}

/// Checks whether a row belongs to the list of a key.
pub(crate) fn is_at(key: &str, row: &Row<'_>) -> bool
    ensures { result ≡ is_at key.now row.now }
{
    row.template.home == key
}

/// Checks whether a row belongs to one of several lists.
fn is_in(keys: &[&str], row: &Row<'_>) -> bool
    ensures { result ≡ is_in keys.now row.now }
{
    for key in keys {
        if is_at(key, row) {
            return true;
        }
    }
    false
}

/// Returns a list inside an object, from the rows after the object's own.
fn inner_value(
    alloc: Global,
    key: &str,
    keys: &[&str],
    rows: &[Row<'_>],
) -> Result<Value, AllocError>
    ensures { IfOk result (λ v. view v ≡ list_data (inner_items key.now keys.now rows.now)) }
{
    let mut items = Vec::new(alloc);
    for row in rows {
        if !is_in(keys, row) {
            return Ok(Value::Array(items));
        }
        if is_at(key, row) {
            items.push(row_value(alloc, row)?)?;
        }
    }
    Ok(Value::Array(items))
}

/// Puts the lists inside an object into its map, from the rows after the object's own.
fn put_inner(
    alloc: Global,
    map: &mut Map<String, Value>,
    keys: &[&str],
    rows: &[Row<'_>],
) -> Result<(), AllocError>
    ensures { OnOk result (members_view map.new.entries
        ≡ with_inner keys.now keys.now rows.now (members_view map.old.entries)) }
{
    for key in keys {
        let inner = inner_value(alloc, key, keys, rows)?;
        put(map, alloc, key, inner)?;
    }
    Ok(())
}

/// Returns a row of a list as an object, with the lists inside it.
fn item_value(
    alloc: Global,
    list: &ListForm,
    row: &Row<'_>,
    later: &[Row<'_>],
) -> Result<Value, AllocError>
    ensures { IfOk result (λ v. view v ≡ item_data list.now row.now later.now) }
{
    let mut map = Map::new(alloc);
    put_fields(alloc, &mut map, row.fields.as_slice())?;
    put_inner(alloc, &mut map, list.inner, later)?;
    Ok(Value::Object(map))
}

/// Returns an object for each row of a list.
fn object_values(alloc: Global, list: &ListForm, rows: &[Row<'_>]) -> Result<Vec<Value>, AllocError>
    ensures { IfOk result (λ values. map view values.items ≡ objects_of list.now rows.now) }
{
    let mut items = Vec::new(alloc);
    for (i, row) in rows.iter().enumerate() {
        if is_at(list.key, row) {
            items.push(item_value(alloc, list, row, &rows[i + 1..])?)?;
        }
    }
    Ok(items)
}

/// Returns the object of the first row of a list, if there is one.
fn single_value(
    alloc: Global,
    list: &ListForm,
    rows: &[Row<'_>],
) -> Result<Option<Value>, AllocError>
    ensures { IfOk result (λ o. option_map view o ≡ first_item (objects_of list.now rows.now)) }
{
    for (i, row) in rows.iter().enumerate() {
        if is_at(list.key, row) {
            return Ok(Some(item_value(alloc, list, row, &rows[i + 1..])?));
        }
    }
    Ok(None)
}

/// Returns the value of the first slot of each row of a list.
fn first_values(alloc: Global, key: &str, rows: &[Row<'_>]) -> Result<Vec<Value>, AllocError>
    ensures { IfOk result (λ values. map view values.items ≡ values_of key.now rows.now) }
{
    let mut items = Vec::new(alloc);
    for row in rows {
        if is_at(key, row) {
            items.push(first_value(alloc, row.fields.as_slice())?)?;
        }
    }
    Ok(items)
}

/// Returns an array of values, if there are any.
fn some_values(values: Vec<Value>) -> Option<Value>
    ensures { option_map view result ≡ some_list (map view values.items) }
{
    if values.is_empty() {
        None
    } else {
        Some(Value::Array(values))
    }
}

/// Returns the document's value at the key of a list, or `None` if the key is left out.
fn list_value(alloc: Global, list: &ListForm, rows: &[Row<'_>]) -> Result<Option<Value>, AllocError>
    ensures { IfOk result (λ o. option_map view o ≡ list_entry list.now.shape list.now rows.now) }
{
    match list.shape {
        ListShape::Objects => Ok(Some(Value::Array(object_values(alloc, list, rows)?))),
        ListShape::Values => Ok(Some(Value::Array(first_values(alloc, list.key, rows)?))),
        ListShape::Leftovers => Ok(some_values(first_values(alloc, list.key, rows)?)),
        ListShape::Single => single_value(alloc, list, rows),
    }
}

/// Puts the values of the rows that belong to no list into a document.
fn put_top(alloc: Global, map: &mut Map<String, Value>, rows: &[Row<'_>]) -> Result<(), AllocError>
    ensures { OnOk result (members_view map.new.entries ≡ with_top rows.now (members_view map.old.entries)) }
{
    for row in rows {
        if is_at("", row) {
            put_fields(alloc, map, row.fields.as_slice())?;
        }
    }
    Ok(())
}

/// Puts the lists into a document.
fn put_lists(
    alloc: Global,
    map: &mut Map<String, Value>,
    lists: &[ListForm],
    rows: &[Row<'_>],
) -> Result<(), AllocError>
    ensures { OnOk result (members_view map.new.entries
        ≡ with_lists lists.now rows.now (members_view map.old.entries)) }
{
    for list in lists {
        let value = list_value(alloc, list, rows)?;
        put_value(alloc, map, list.key, value)?;
    }
    Ok(())
}

/// Returns the document of a report's rows. `AllocError` comes if an allocation failed.
pub(crate) fn document(alloc: Global, form: &Form, rows: &[Row<'_>]) -> Result<Value, AllocError>
    ensures { IfOk result (λ v. view v ≡ document_of form.now rows.now) }
{
    let mut map = Map::new(alloc);
    put_top(alloc, &mut map, rows)?;
    put_lists(alloc, &mut map, form.lists, rows)?;
    Ok(Value::Object(map))
}
