//! The messages of errors.

ghost use Rattle.std.specs.Prelude.{◌≡◌, ◌++◌, List, ℕ, string_bytes, option_map, OnOk};
ghost use Rattle.toml.specs.View.{table_view};
ghost use Rattle.pb_plan_errors.specs.Messages.{named, placed, is_not, row_subject, subject, shared_port, shared};
ghost use Rattle.pb_plan_errors.specs.Messages.{table_of_key, IsWrong, IsMessage};
ghost use Rattle.pb_plan_errors.specs.Paths.{key_of};
ghost use Rattle.pb_plan_errors.specs.Rows.{name_at};

use crate::ends::bridge_key;
use crate::finding::most_of;
use crate::names::{name_at, named_by};
use crate::path::word_and_key;
use crate::row::{are_names, integer_at, items_at, text_at};
use crate::rule::rule_of;
use pb_diagnostics::{Site, row_at, table_at};
use pb_frame::Memory;
use pb_lan::is_name;
use pb_service::PlanFault;
use std::alloc::Global;
use std::net::SocketAddr;
use std::str::FromStr;
use toml::Table;

/// Appends the kind and the name of a table.
fn put_named(out: &mut String, word: &str, name: &str) -> Result<(), Memory>
    ensures { OnOk result (string_bytes out.new ≡ string_bytes out.old ++ named word.now name.now) }
{
    write!(out, "{word} \"{name}\": ")?;
    Ok(())
}

/// Appends the kind and the index of a table, counted from 0.
fn put_placed(out: &mut String, word: &str, index: usize) -> Result<(), Memory>
    ensures { OnOk result (string_bytes out.new ≡ string_bytes out.old ++ placed word.now index) }
{
    write!(out, "{word}[{index}]: ")?;
    Ok(())
}

/// Appends a table of an array: by its name if it has one, else by its index.
fn put_row(out: &mut String, document: &Table, word: &str, index: usize) -> Result<(), Memory>
    ensures { OnOk result (string_bytes out.new ≡ string_bytes out.old
        ++ row_subject word.now index (name_at (table_view document.now) word.now index)) }
{
    let name = name_at(document, word, index);
    if is_name(name.as_bytes()) {
        put_named(out, word, name)
    } else {
        put_placed(out, word, index)
    }
}

/// Appends the table that an error is about. Nothing for a key at the top.
fn put_subject(out: &mut String, document: &Table, site: Site<'_>) -> Result<(), Memory>
    ensures { OnOk result (string_bytes out.new ≡ string_bytes out.old
        ++ subject (table_view document.now) site.entry) }
{
    match site {
        Site::Key(_) | Site::Row(_, _) => Ok(()),
        Site::TableKey(word, _) => {
            write!(out, "{word}: ")?;
            Ok(())
        }
        Site::RowKey(word, index, _) => put_row(out, document, word, index),
    }
}

/// Appends that the value of a key is not what it must be. `value` is the text of the value in the file, or the empty
/// text.
fn put_is_not(out: &mut String, key: &str, value: &str, wanted: &str) -> Result<(), Memory>
    ensures { OnOk result (string_bytes out.new ≡ string_bytes out.old ++ is_not key.now value.now wanted.now) }
{
    if value.is_empty() {
        write!(out, "{key} is not {wanted}")?;
    } else {
        write!(out, "{key} {value} is not {wanted}")?;
    }
    Ok(())
}

/// Returns the table of a key, if it is there.
pub(crate) fn table_of_key<'a>(document: &'a Table, site: Site<'_>) -> Option<&'a Table>
    ensures { option_map (λ t. table_view t.now) result ≡ table_of_key (table_view document.now) site.entry }
{
    match site {
        Site::Key(_) | Site::Row(_, _) => None,
        Site::TableKey(word, _) => table_at(document, word),
        Site::RowKey(word, index, _) => row_at(document, word, index),
    }
}

/// Returns whether the text is a socket address whose port is not 0.
fn is_socket_address(text: &str) -> bool {
    match SocketAddr::from_str(text) {
        Ok(address) => address.port() != 0,
        Err(_) => false,
    }
}

/// Returns what a number or a text contradicts, if it would be allowed by itself.
fn conflict_of(word: &str, key: &str, row: &Table) -> Option<&'static str> {
    let number = integer_at(row, key);
    match (word, key) {
        ("network", "tick_ms") if 0 <= number && number <= 60_000 => {
            Some("allowed beside tick_every")
        }
        ("network", "hold") if 0 <= number && number <= 1_000_000 => {
            Some("allowed without tick_ms or tick_every")
        }
        ("network", "prompt") => Some("allowed without spanning = \"rstp\""),
        ("link", "a_cost" | "b_cost") if 1 <= number && number <= 200_000_000 => {
            Some("allowed beside cost")
        }
        ("event", "port") if 1 <= number && number <= 16 => Some("an end of a link"),
        ("port" | "tap", "stamp") if text_at(row, key) == "time" => Some("allowed without tick_ms"),
        ("port", "replay") if text_at(row, key) == "times" => Some("allowed without tick_ms"),
        ("port", "remote") if is_socket_address(text_at(row, key)) => Some(
            "of the family of local",
        ),
        ("port", "speed") if 1 <= number && number <= 1_000 => Some("allowed without replay"),
        _ => None,
    }
}

/// Checks whether the value of a key is a list of services of one end of a link that would be allowed by itself.
fn is_services(alloc: Global, word: &str, key: &str, row: &Table) -> Result<bool, Memory> {
    if word == "link" && (key == "a_services" || key == "b_services") {
        are_names(alloc, items_at(row, key))
    } else {
        Ok(false)
    }
}

/// Returns what the value of a key must be.
fn range_of(alloc: Global, document: &Table, site: Site<'_>) -> Result<&'static str, Memory> {
    let (word, key) = word_and_key(site);
    if let Some(row) = table_of_key(document, site) {
        if let Some(conflict) = conflict_of(word, key, row) {
            return Ok(conflict);
        }
        if is_services(alloc, word, key, row)? {
            return Ok("allowed beside services");
        }
    }
    match rule_of(word, key) {
        Some(rule) => Ok(rule.range),
        None => Ok("allowed"),
    }
}

/// Returns the TOML type that the value of a key must have.
fn kind_of(site: Site<'_>) -> &'static str {
    let (word, key) = word_and_key(site);
    match rule_of(word, key) {
        Some(rule) => rule.kind,
        None => "allowed",
    }
}

/// Appends that a local port is used twice.
fn put_shared_port(out: &mut String, port: i64, bridge: &str) -> Result<(), Memory>
    ensures { OnOk result (string_bytes out.new ≡ string_bytes out.old ++ shared_port port bridge.now) }
{
    write!(out, "port {port} of bridge \"{bridge}\" is used twice")?;
    Ok(())
}

/// Appends that the local port of a key is used twice.
fn put_shared(out: &mut String, document: &Table, site: Site<'_>) -> Result<(), Memory>
    ensures { OnOk result (string_bytes out.new ≡ string_bytes out.old
        ++ shared (table_of_key (table_view document.now) site.entry) (key_of site.entry)) }
{
    let Some(row) = table_of_key(document, site) else {
        return Ok(());
    };
    let (_, key) = word_and_key(site);
    put_shared_port(out, integer_at(row, key), text_at(row, bridge_key(key)))
}

/// Appends what is wrong at a key or table, without the table. `value` is the text of the value in the file, or the
/// empty text.
fn put_wrong(
    alloc: Global,
    out: &mut String,
    document: &Table,
    fault: &PlanFault,
    site: Site<'_>,
    value: &str,
) -> Result<(), Memory>
    ensures { OnOk result ((text : List ℕ) × (string_bytes out.new ≡ string_bytes out.old ++ text)
        × IsWrong (table_view document.now) fault.now site.entry value.now text) }
{
    let (word, key) = word_and_key(site);
    match fault {
        PlanFault::Missing(_) => write!(out, "{key} is missing")?,
        PlanFault::Kind(_) => put_is_not(out, key, value, kind_of(site))?,
        PlanFault::Range(_) => {
            let wanted = range_of(alloc, document, site)?;
            put_is_not(out, key, value, wanted)?;
        }
        PlanFault::Unknown(_) => write!(out, "unknown key {key}")?,
        PlanFault::Twice(name) => {
            let name = name.as_str();
            write!(out, "another {word} has the {key} {name}")?;
        }
        PlanFault::NoSuch(name) => {
            let part = named_by(key);
            let name = name.as_str();
            write!(out, "no {part} is named \"{name}\"")?;
        }
        PlanFault::LinkEnd => put_shared(out, document, site)?,
        PlanFault::TooMany => {
            let most = most_of(word);
            write!(out, "more than {most} tables [[{word}]]")?;
        }
        PlanFault::Utf8 | PlanFault::Toml | PlanFault::Memory => {}
    }
    Ok(())
}

/// Appends the message for a fault at a key or table. `value` is the text of the value in the file, or the empty text.
///
/// # Errors
///
/// `Memory` if an allocation failed.
pub(crate) fn put_message(
    alloc: Global,
    out: &mut String,
    document: &Table,
    fault: &PlanFault,
    site: Site<'_>,
    value: &str,
) -> Result<(), Memory>
    ensures { OnOk result ((text : List ℕ) × (string_bytes out.new ≡ string_bytes out.old ++ text)
        × IsMessage (table_view document.now) fault.now site.entry value.now text) }
{
    put_subject(out, document, site)?;
    put_wrong(alloc, out, document, fault, site, value)
}
