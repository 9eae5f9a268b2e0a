//! All errors of a plan file.

ghost use Rattle.std.specs.Prelude.{◌≡◌, ◌≤◌, length, IfOk, IfSome, OnOk};
ghost use Rattle.toml.specs.Parse.{parse_document};
ghost use Rattle.toml.specs.View.{table_view};
ghost use Rattle.pb_plan_errors.specs.Errors.{AreErrors, HasErrors};
ghost use Rattle.pb_plan_errors.specs.Repairs.{IsRefused, IsSame};

use crate::error::{document_error, fault_of, plan_error};
use crate::repair::repair;
use pb_diagnostics::{Diagnostic, Excerpt};
use pb_frame::Memory;
use pb_service::PlanFault;
use std::alloc::Global;
use toml::Table;

/// The most errors that are reported.
pub const MOST_ERRORS: usize = 50;

/// A document, and the first rule that it breaks.
#[derive(Drop)]
struct Refused {
    /// The document.
    document: Table,
    /// The rule that it breaks.
    fault: PlanFault,
}

/// Returns a document, and the first rule that it breaks. `None` if the text is a plan or no document.
fn read(alloc: Global, text: &[u8]) -> Result<Option<Refused>, Memory>
    ensures refused { IfOk result (λ o. IfSome o IsRefused) }
    ensures same { IfOk result (λ o. IfSome o (λ r. parse_document text.now ≡ Some (table_view r.document))) }
{
    let document = match toml::table_from_slice(alloc, text) {
        Ok(document) => document,
        Err(e) if e.is_memory() => return Err(Memory),
        Err(_) => return Ok(None),
    };
    match fault_of(alloc, text)? {
        Some(fault) => Ok(Some(Refused { document, fault })),
        None => Ok(None),
    }
}

/// Returns a document, read again from its text, and the first rule that it breaks. `None` if it is a plan or has no
/// text.
fn read_again(alloc: Global, document: &Table) -> Result<Option<Refused>, Memory>
    ensures refused { IfOk result (λ o. IfSome o IsRefused) }
    ensures same { IfOk result (λ o. IfSome o (λ r. IsSame (table_view document.now) (table_view r.document))) }
{
    match toml::table_to_string(alloc, document) {
        Ok(text) => read(alloc, text.as_bytes()),
        Err(toml::ser::Error::OutOfMemory) => Err(Memory),
        Err(_) => Ok(None),
    }
}

/// Returns line and column of an excerpt, or 0 and 0.
fn line_and_column(excerpt: Option<&Excerpt>) -> (usize, usize) {
    match excerpt {
        Some(excerpt) => (excerpt.line, excerpt.column),
        None => (0, 0),
    }
}

/// Returns whether the last of some errors is another one.
fn is_again(errors: &[Diagnostic], error: &Diagnostic) -> bool {
    let Some(last) = errors.last() else {
        return false;
    };
    line_and_column(last.excerpt.as_ref()) == line_and_column(error.excerpt.as_ref())
        && last.message.as_str() == error.message.as_str()
}

/// Returns the first error of a document after the rule that it breaks is repaired, and that document. `None` if it
/// can't be repaired, or breaks no rule then.
fn next_of(alloc: Global, refused: Refused) -> Result<Option<Refused>, Memory>
    ensures { IfOk result (λ o. IfSome o IsRefused) }
{
    let Refused {
        mut document,
        fault,
    } = refused;
    if repair(alloc, &mut document, &fault)? {
        read_again(alloc, &document)
    } else {
        Ok(None)
    }
}

/// Appends the errors after the first: each is the first one of the document in which those before it are repaired.
fn put_later(
    alloc: Global,
    errors: &mut Vec<Diagnostic>,
    file: &[u8],
    refused: Refused,
) -> Result<(), Memory>
    requires few { length errors.old.items ≤ 1 }
    requires first { HasErrors file.now errors.old.items }
    ensures few { OnOk result (length errors.new.items ≤ 50) }
    ensures errors { OnOk result (HasErrors file.now errors.new.items) }
{
    let mut refused = refused;
    for _round in 1..MOST_ERRORS {
        let Some(next) = next_of(alloc, refused)? else {
            return Ok(());
        };
        let error = document_error(alloc, file, &next.document, &next.fault)?;
        if is_again(errors.as_slice(), &error) {
            return Ok(());
        }
        errors.push(error)?;
        refused = next;
    }
    Ok(())
}

/// Returns the errors of a plan file, at most 50, in the order in which its parts are checked.
///
/// The first one is that of [`plan_error`](crate::plan_error). Each later one is the first one of the document in which
/// those before it are repaired: a key with a default, and a key that is unknown, is removed; another key gets a right
/// value that nothing uses; tables too many are removed. A file that isn't a TOML document has one error.
///
/// # Errors
///
/// `Memory` if an allocation failed.
pub fn plan_errors(alloc: Global, file: &[u8]) -> Result<Vec<Diagnostic>, Memory>
    ensures few { IfOk result (λ errors. length errors.items ≤ 50) }
    ensures errors { IfOk result (λ errors. AreErrors file.now errors.items) }
{
    let mut errors = Vec::new(alloc);
    let Some(error) = plan_error(alloc, file)? else {
        return Ok(errors);
    };
    errors.push(error)?;
    if let Some(refused) = read(alloc, file)? {
        put_later(alloc, &mut errors, file, refused)?;
    }
    Ok(errors)
}
