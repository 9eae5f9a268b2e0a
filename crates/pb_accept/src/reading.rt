//! Reading the acceptances of a file.

ghost use Rattle.std.specs.Prelude.{◌≡◌, ◌⊎◌, Some, None, option_map, IfOk, IfErr};
ghost use Rattle.std.specs.Str.{IsUtf8};
ghost use Rattle.toml.specs.View.{view, items_view, table_view};
ghost use Rattle.toml.specs.Parse.{parse_document};
ghost use Rattle.pb_lan.specs.Plans.{IsSound};
ghost use Rattle.pb_accept.specs.Acceptances.{entries_told, list_told, document_told, alone_told};
ghost use Rattle.pb_accept.specs.Acceptances.{plan_file_told, accept_file_told, IsRefused};

use crate::acceptance::Acceptance;
use crate::fault::AcceptFault;
use crate::refusal::{no_tables, refusal_of, unknown};
use crate::row::entry_told;
use crate::told::{unknown_top, value_at};
use pb_lan::Plan;
use pb_service::PlanFault;
use std::alloc::Global;
use toml::{Table, Value};

/// Returns the acceptances that the items of a list describe.
fn entries_told(alloc: Global, plan: &Plan, items: &[Value]) -> Result<Vec<Acceptance>, AcceptFault>
    requires { IsSound plan.now }
    ensures ok { IfOk result (λ entries. entries_told plan.now (items_view items.now) ≡ Some entries.items) }
    ensures err { IfErr result (IsRefused (entries_told plan.now (items_view items.now))) }
{
    let mut entries = Vec::new(alloc);
    for (index, item) in items.iter().enumerate() {
        match entry_told(plan, item) {
            Some(entry) => entries.push(entry)?,
            None => return Err(refusal_of(alloc, plan, item, index)),
        }
    }
    Ok(entries)
}

/// Returns the acceptances at the key `accept`.
fn list_told(
    alloc: Global,
    plan: &Plan,
    list: Option<&Value>,
) -> Result<Vec<Acceptance>, AcceptFault>
    requires { IsSound plan.now }
    ensures ok { IfOk result (λ entries.
        list_told plan.now (option_map (λ v. view v.now) list.entry) ≡ Some entries.items) }
    ensures err { IfErr result (IsRefused (list_told plan.now (option_map (λ v. view v.now) list.entry))) }
{
    let Some(value) = list else {
        return Ok(Vec::new(alloc));
    };
    match value.as_array() {
        Some(items) => entries_told(alloc, plan, items.as_slice()),
        None => Err(no_tables(alloc)),
    }
}

/// Returns the acceptances of a document.
fn document_told(
    alloc: Global,
    plan: &Plan,
    document: &Table,
) -> Result<Vec<Acceptance>, AcceptFault>
    requires { IsSound plan.now }
    ensures ok { IfOk result (λ entries. document_told plan.now (table_view document.now) ≡ Some entries.items) }
    ensures err { IfErr result (IsRefused (document_told plan.now (table_view document.now))) }
{
    list_told(alloc, plan, value_at(document, "accept"))
}

/// Returns the acceptances of a document that has nothing else.
fn alone_told(alloc: Global, plan: &Plan, document: &Table) -> Result<Vec<Acceptance>, AcceptFault>
    requires { IsSound plan.now }
    ensures ok { IfOk result (λ entries. alone_told plan.now (table_view document.now) ≡ Some entries.items) }
    ensures err { IfErr result (IsRefused (alone_told plan.now (table_view document.now))) }
{
    match unknown_top(document) {
        Some(key) => Err(unknown(alloc, key)),
        None => document_told(alloc, plan, document),
    }
}

/// Returns the text of a file.
fn text_of(file: &[u8]) -> Result<&str, AcceptFault>
    ensures ok { IfOk result (λ text. text.now ≡ file.now) }
    ensures err { IfErr result (λ _. IsUtf8 file.now → ⊥) }
{
    match std::str::from_utf8(file) {
        Ok(text) => Ok(text),
        Err(_) => Err(AcceptFault::Rule(PlanFault::Utf8)),
    }
}

/// Returns the document of a text.
fn document_of(alloc: Global, text: &str) -> Result<Table, AcceptFault>
    ensures ok { IfOk result (λ document. parse_document text.now ≡ Some (table_view document)) }
    ensures err { IfErr result (IsRefused (parse_document text.now)) }
{
    match toml::table_from_str(alloc, text) {
        Ok(document) => Ok(document),
        Err(e) if e.is_memory() => Err(AcceptFault::Rule(PlanFault::Memory)),
        Err(_) => Err(AcceptFault::Rule(PlanFault::Toml)),
    }
}

/// Reads the acceptances of a plan file: its tables `accept`, in the order of the file. `plan` is the plan of the file.
///
/// Each table has exactly one of the keys `link` and `bridge`, with the name of a link or of a bridge, and `links`,
/// with the names of two different links. It may have the key `service`, with the name of a service.
///
/// # Errors
///
/// The first rule that a table breaks. Its keys are checked in the order `link`, `bridge`, `links`, `service`, then
/// unknown keys, then names. `Rule(Utf8)`, `Rule(Toml)` and `Rule(Memory)` are those of
/// [`read_plan`](pb_service::read_plan).
pub fn read_acceptances(
    alloc: Global,
    plan: &Plan,
    file: &[u8],
) -> Result<Vec<Acceptance>, AcceptFault>
    requires { IsSound plan.now }
    ensures ok { IfOk result (λ entries. plan_file_told plan.now file.now ≡ Some entries.items) }
    ensures err { IfErr result (λ e. (IsUtf8 file.now → ⊥) ⊎ IsRefused (plan_file_told plan.now file.now) e) }
{
    let document = document_of(alloc, text_of(file)?)?;
    document_told(alloc, plan, &document)
}

/// Reads a file that has acceptances of a plan alone, as [`read_acceptances`] reads those of a plan file.
///
/// # Errors
///
/// Those of [`read_acceptances`], and `Rule(Unknown)` for the first key at the top that is not `accept`, which is
/// checked first.
pub fn read_accept_file(
    alloc: Global,
    plan: &Plan,
    file: &[u8],
) -> Result<Vec<Acceptance>, AcceptFault>
    requires { IsSound plan.now }
    ensures ok { IfOk result (λ entries. accept_file_told plan.now file.now ≡ Some entries.items) }
    ensures err { IfErr result (λ e. (IsUtf8 file.now → ⊥) ⊎ IsRefused (accept_file_told plan.now file.now) e) }
{
    let document = document_of(alloc, text_of(file)?)?;
    alone_told(alloc, plan, &document)
}
