//! Repairs what a fault is about, so that the next fault of a document can be found.

use crate::finding::{finding_of, most_of};
use crate::row::{has_key, integer_at, items_at, text_at};
use crate::spare::{spare_address, spare_name, spare_port, spare_vid};
use pb_diagnostics::{Site, row_at};
use pb_frame::Memory;
use pb_service::PlanFault;
use std::alloc::Global;
use toml::{Table, Value};

/// Puts a value at a key of a table.
fn set(alloc: Global, table: &mut Table, key: &str, value: Value) -> Result<(), Memory> {
    table.insert(String::from_str(alloc, key)?, value)?;
    Ok(())
}

/// Returns a table of an array.
fn row_of<'a>(document: &'a mut Table, word: &str, index: usize) -> Option<&'a mut Table> {
    let rows = document.get_mut(word)?;
    match rows.get_mut(index) {
        Some(Value::Table(row)) => Some(row),
        _ => None,
    }
}

/// Appends a table to an array. Returns whether there was room for it.
fn append(alloc: Global, document: &mut Table, word: &str, row: Table) -> Result<bool, Memory> {
    if items_at(document, word).len() >= most_of(word) {
        return Ok(false);
    }
    if document.get(word).is_none() {
        set(alloc, document, word, Value::Array(Vec::new(alloc)))?;
    }
    if let Some(Value::Array(rows)) = document.get_mut(word) {
        rows.push(Value::Table(row))?;
        return Ok(true);
    }
    Ok(false)
}

/// Appends a bridge of its own. Returns its name, or `None` if there are too many bridges.
fn spare_bridge(alloc: Global, document: &mut Table) -> Result<Option<Value>, Memory> {
    let name = spare_name(alloc, document, "bridge")?;
    let address = spare_address(alloc, document)?;
    let mut row = Table::new(alloc);
    set(
        alloc,
        &mut row,
        "name",
        Value::string(alloc, name.as_str())?,
    )?;
    set(alloc, &mut row, "address", Value::String(address))?;
    if append(alloc, document, "bridge", row)? {
        return Ok(Some(Value::String(name)));
    }
    Ok(None)
}

/// Appends a service of its own. Returns its name, or `None` if there are too many services.
fn spare_service(alloc: Global, document: &mut Table) -> Result<Option<Value>, Memory> {
    let name = spare_name(alloc, document, "service")?;
    let vid = spare_vid(document);
    let mut row = Table::new(alloc);
    set(
        alloc,
        &mut row,
        "name",
        Value::string(alloc, name.as_str())?,
    )?;
    set(alloc, &mut row, "vid", Value::Integer(vid))?;
    if append(alloc, document, "service", row)? {
        return Ok(Some(Value::String(name)));
    }
    Ok(None)
}

/// Returns a local port that is free at the bridge of a table.
fn free_port(
    alloc: Global,
    document: &Table,
    (word, index, bridge): (&str, usize, &str),
) -> Result<Option<Value>, Memory> {
    let name = match row_at(document, word, index) {
        Some(row) => text_at(row, bridge),
        None => "",
    };
    Ok(Some(Value::Integer(spare_port(alloc, document, name)?)))
}

/// Returns the kind of a customer port by the other keys of its table.
fn fitting_kind(row: &Table) -> &'static str {
    let (reads, writes) = (has_key(row, "read"), has_key(row, "write"));
    if reads && writes {
        "capture"
    } else if writes {
        "record"
    } else if reads {
        "replay"
    } else if has_key(row, "path") || has_key(row, "listen") {
        "socket"
    } else if has_key(row, "local") || has_key(row, "remote") {
        "udp"
    } else {
        "memory"
    }
}

/// Returns what precedes the frames of a customer port's datagrams, by the other keys of its table.
fn fitting_encap(row: &Table) -> &'static str {
    if has_key(row, "vni") { "vxlan" } else { "none" }
}

/// Returns a socket address of the family of that at a key of a table, or of IPv4.
fn fitting_address(row: &Table, beside: &str) -> &'static str {
    if text_at(row, beside).starts_with('[') {
        "[::1]:1"
    } else {
        "127.0.0.1:1"
    }
}

/// Returns the value of a key of a customer port at an index that fits the other keys of its table.
fn fitting_value(
    alloc: Global,
    document: &Table,
    index: usize,
    key: &str,
) -> Result<Option<Value>, Memory> {
    let Some(row) = row_at(document, "port", index) else {
        return Ok(None);
    };
    let fitting = match key {
        "kind" => fitting_kind(row),
        "encap" => fitting_encap(row),
        "local" => fitting_address(row, "remote"),
        _ => fitting_address(row, "local"),
    };
    Ok(Some(Value::string(alloc, fitting)?))
}

/// Returns a value that is right for a key without a default, or for a key on which the other keys of a port depend.
/// Returns `None` for another key.
fn right_value(
    alloc: Global,
    document: &mut Table,
    word: &str,
    index: usize,
    key: &str,
) -> Result<Option<Value>, Memory> {
    match key {
        "name" => Ok(Some(Value::String(spare_name(alloc, document, word)?))),
        "address" => Ok(Some(Value::String(spare_address(alloc, document)?))),
        "vid" => Ok(Some(Value::Integer(spare_vid(document)))),
        "a" | "b" | "bridge" => spare_bridge(alloc, document),
        "service" => spare_service(alloc, document),
        "a_port" => free_port(alloc, document, (word, index, "a")),
        "b_port" => free_port(alloc, document, (word, index, "b")),
        "port" => free_port(alloc, document, (word, index, "bridge")),
        "at" | "vni" => Ok(Some(Value::Integer(0))),
        "up" => Ok(Some(Value::Boolean(true))),
        "kind" | "encap" | "local" | "remote" => fitting_value(alloc, document, index, key),
        "read" | "write" | "path" | "listen" => Ok(Some(Value::string(alloc, "x")?)),
        _ => Ok(None),
    }
}

/// Moves an event to the first end of a link. Without a link all events are removed.
fn move_event(alloc: Global, document: &mut Table, index: usize) -> Result<(), Memory> {
    let Some(link) = row_at(document, "link", 0) else {
        document.remove("event");
        return Ok(());
    };
    let bridge = Value::string(alloc, text_at(link, "a"))?;
    let port = Value::Integer(integer_at(link, "a_port"));
    if let Some(row) = row_of(document, "event", index) {
        set(alloc, row, "bridge", bridge)?;
        set(alloc, row, "port", port)?;
    }
    Ok(())
}

/// Moves a tap to the first link. Without a link all taps are removed.
fn move_tap(alloc: Global, document: &mut Table, index: usize) -> Result<(), Memory> {
    let Some(link) = row_at(document, "link", 0) else {
        document.remove("tap");
        return Ok(());
    };
    let name = Value::string(alloc, text_at(link, "name"))?;
    if let Some(row) = row_of(document, "tap", index) {
        set(alloc, row, "link", name)?;
    }
    Ok(())
}

/// Removes a text from the list at a key of a table.
fn unlist(row: &mut Table, key: &str, text: &str) {
    if let Some(Value::Array(items)) = row.get_mut(key) {
        if let Some(place) = items
            .as_slice()
            .iter()
            .position(|item| item.as_str() == Some(text))
        {
            items.remove(place);
        }
    }
}

/// Removes a key of a table. The speed of a replay goes with it, unless the key is unknown.
fn remove_key(row: &mut Table, fault: &PlanFault, key: &str) {
    row.remove(key);
    if key == "replay" && !matches!(fault, PlanFault::Unknown(_)) {
        row.remove("speed");
    }
}

/// Repairs a key of a table: it gets a right value if it has no default or other keys depend on it, and is removed
/// otherwise. A name that nothing has is removed from a list.
fn repair_key(
    alloc: Global,
    document: &mut Table,
    fault: &PlanFault,
    word: &str,
    index: usize,
    key: &str,
) -> Result<bool, Memory> {
    if word == "event" && (key == "bridge" || key == "port") {
        move_event(alloc, document, index)?;
        return Ok(true);
    }
    if word == "tap" && key == "link" {
        move_tap(alloc, document, index)?;
        return Ok(true);
    }
    let value = match fault {
        PlanFault::Unknown(_) => None,
        _ => right_value(alloc, document, word, index, key)?,
    };
    let Some(row) = row_of(document, word, index) else {
        return Ok(false);
    };
    match (fault, value) {
        (_, Some(value)) => set(alloc, row, key, value)?,
        (PlanFault::NoSuch(name), None) => unlist(row, key, name.as_str()),
        (_, None) => remove_key(row, fault, key),
    }
    Ok(true)
}

/// Removes the tables of an array from an index on.
fn cut(document: &mut Table, word: &str, index: usize) {
    if let Some(Value::Array(rows)) = document.get_mut(word) {
        rows.truncate(index);
    }
}

/// Repairs what a fault of a document is about. Returns whether it was repaired.
///
/// # Errors
///
/// `Memory` if an allocation failed.
pub(crate) fn repair(
    alloc: Global,
    document: &mut Table,
    fault: &PlanFault,
) -> Result<bool, Memory> {
    let Some(finding) = finding_of(alloc, document, fault)? else {
        return Ok(false);
    };
    match finding.about {
        Site::Key(key) => {
            document.remove(key);
            Ok(true)
        }
        Site::TableKey(word, key) => {
            if let Some(Value::Table(table)) = document.get_mut(word) {
                table.remove(key);
            }
            Ok(true)
        }
        Site::Row(word, index) => {
            cut(document, word, index);
            Ok(true)
        }
        Site::RowKey(word, index, key) => repair_key(alloc, document, fault, word, index, key),
    }
}
