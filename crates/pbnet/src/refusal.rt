//! The errors of a plan file that is refused.

use pb_diagnostics::{Diagnostic, put_diagnostic};
use pb_frame::Memory;
use pb_plan_errors::{fault_error, plan_error, plan_errors};
use pb_printable::put_printable;
use pb_service::PlanFault;
use std::alloc::Global;

/// Returns the errors of a plan file: the first one, or all of them.
///
/// # Errors
///
/// `Memory` if an allocation failed.
fn errors_of(alloc: Global, file: &[u8], all: bool) -> Result<Vec<Diagnostic>, Memory> {
    if all {
        return plan_errors(alloc, file);
    }
    let mut errors = Vec::new(alloc);
    if let Some(error) = plan_error(alloc, file)? {
        errors.push(error)?;
    }
    Ok(errors)
}

/// Returns the printed errors of a plan file: the first one, or all of them.
fn text_of(alloc: Global, path: &str, file: &[u8], all: bool) -> Result<String, Memory> {
    let mut text = String::new(alloc);
    for error in errors_of(alloc, file, all)?.as_slice() {
        put_diagnostic(&mut text, path, error)?;
    }
    Ok(text)
}

/// Prints the errors of a plan file on standard error: the first one, or all of them. Prints nothing if an allocation
/// failed.
pub(crate) fn print_errors(rt: &(impl Eprint + AllocGlobal), path: &str, file: &[u8], all: bool) {
    if let Ok(text) = text_of(rt.alloc(), path, file, all) {
        let _ = eprint!(rt; "{text}");
    }
}

/// Returns the printed error for a fault of a plan file.
fn fault_text(alloc: Global, path: &str, file: &[u8], fault: &PlanFault) -> Result<String, Memory> {
    let mut text = String::new(alloc);
    put_diagnostic(&mut text, path, &fault_error(alloc, file, fault)?)?;
    Ok(text)
}

/// Prints the error for a fault of a plan file on standard error. Prints nothing if an allocation failed.
pub(crate) fn print_fault(
    rt: &(impl Eprint + AllocGlobal),
    path: &str,
    file: &[u8],
    fault: &PlanFault,
) {
    if let Ok(text) = fault_text(rt.alloc(), path, file, fault) {
        let _ = eprint!(rt; "{text}");
    }
}

/// Appends the line from which a document has an error: line and column, path, message and hint, with tabs between the
/// texts.
fn put_row(rows: &mut String, path: &str, error: &Diagnostic) -> Result<(), Memory> {
    rows.push_str("error: ")?;
    if let Some(excerpt) = &error.excerpt {
        let line = excerpt.line;
        let column = excerpt.column;
        write!(rows, "{line}:{column}: ")?;
    }
    put_printable(rows, path)?;
    let message = error.message.as_str();
    write!(rows, "\t{message}")?;
    if let Some(hint) = &error.hint {
        write!(rows, "\t{hint}")?;
    }
    rows.push_str("\n")?;
    Ok(())
}

/// Appends the lines from which a document has the errors of a plan file: the first one, or all of them.
///
/// # Errors
///
/// `Memory` if an allocation failed.
pub(crate) fn put_error_rows(
    alloc: Global,
    rows: &mut String,
    path: &str,
    file: &[u8],
    all: bool,
) -> Result<(), Memory> {
    for error in errors_of(alloc, file, all)?.as_slice() {
        put_row(rows, path, error)?;
    }
    Ok(())
}
