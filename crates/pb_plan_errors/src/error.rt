//! The error of a plan file.

ghost use Rattle.std.specs.Prelude.{◌≡◌, ◌≢◌, ◌⊎◌, ◌-◌, [], codes, take, drop, string_bytes};
ghost use Rattle.std.specs.Prelude.{IfOk, OnOk, MatchOption, option_copied, option_map};
ghost use Rattle.toml.specs.View.{table_view};
ghost use Rattle.pb_plan_errors.specs.Errors.{IsExcerptOf, IsMarkedText, IsFoundError, IsBare, IsDocumentError};
ghost use Rattle.pb_plan_errors.specs.Errors.{IsTextError, IsErrorIn, IsFaultError, IsFaultOf, IsFirstError};
ghost use Rattle.pb_plan_errors.specs.Findings.{IsFinding};
ghost use Rattle.pb_plan_errors.specs.Hints.{IsPrintedHint};
ghost use Rattle.pb_plan_errors.specs.Messages.{IsPrintedMessage};
ghost use Rattle.pb_printable.specs.Printable.{printable};
ghost use Rattle.pb_service.specs.PlanFiles.{IsPlanFile};
ghost use Rattle.pb_service.specs.declared.fault.PlanFault.TheVariants.{Memory as lack};

use crate::finding::{Finding, finding_of};
use crate::hint::hint_of;
use crate::marking::mark_at;
use crate::message::put_message;
use pb_diagnostics::{Diagnostic, Excerpt, Mark, Part, Site, excerpt_of};
use pb_frame::Memory;
use pb_printable::put_printable;
use pb_service::{PlanFault, read_plan};
use std::alloc::Global;
use toml::Table;

/// Returns the error at some octets of a file.
fn error_at(alloc: Global, file: &[u8], mark: &Mark, text: &str) -> Result<Diagnostic, Memory>
    ensures { IfOk result (λ e. IsTextError file.now e × (string_bytes e.message ≡ text.now)) }
{
    Ok(Diagnostic {
        excerpt: Some(excerpt_of(alloc, file, mark)?),
        message: String::from_str(alloc, text)?,
        hint: None,
    })
}

/// Returns the error of a file that isn't UTF-8.
fn utf8_error(alloc: Global, file: &[u8]) -> Result<Diagnostic, Memory>
    ensures { IfOk result (λ e. IsTextError file.now e × (string_bytes e.message ≡ codes "not UTF-8")) }
{
    let from = match std::str::from_utf8(file) {
        Ok(_) => 0,
        Err(e) => e.valid_up_to(),
    };
    error_at(alloc, file, &Mark { from, to: from }, "not UTF-8")
}

/// Returns the error of a text that isn't TOML, with the reason of the TOML reader.
fn toml_error(alloc: Global, file: &[u8]) -> Result<Diagnostic, Memory>
    ensures { IfOk result (IsTextError file.now) }
{
    match toml::table_from_slice(alloc, file) {
        Ok(_) => error_at(alloc, file, &Mark { from: 0, to: 0 }, "not TOML"),
        Err(e) => match e.span() {
            None => Err(Memory),
            Some(span) => {
                let mark = Mark {
                    from: span.start,
                    to: span.end,
                };
                error_at(alloc, file, &mark, e.message())
            }
        },
    }
}

/// Returns the error of a file that isn't a TOML document.
fn text_error(alloc: Global, file: &[u8]) -> Result<Diagnostic, Memory>
    ensures { IfOk result (IsTextError file.now) }
{
    match std::str::from_utf8(file) {
        Ok(_) => toml_error(alloc, file),
        Err(_) => utf8_error(alloc, file),
    }
}

/// Returns the text if it is no array and no inline table, and else the empty text.
fn plain_value(text: &str) -> &str
    ensures { (result.now ≡ []) ⊎ (result.now ≡ text.now) }
{
    match text.as_bytes() {
        [b'[' | b'{', ..] => "",
        _ => text,
    }
}

/// Returns some octets of a file if they are the text of a value that is no array and no inline table, and else the
/// empty text.
fn text_at<'a>(file: &'a [u8], mark: &Mark) -> &'a str
    ensures { (result.now ≡ []) ⊎ (result.now ≡ take (mark.now.to - mark.now.from) (drop mark.now.from file.now)) }
{
    if mark.from > mark.to || mark.to > file.len() {
        return "";
    }
    match std::str::from_utf8(&file[mark.from..mark.to]) {
        Ok(text) => plain_value(text),
        Err(_) => "",
    }
}

/// Returns the text of a finding's value if it is no array and no inline table, and else the empty text.
fn value_text<'a>(file: &'a [u8], part: Part, mark: Option<&Mark>) -> &'a str
    ensures { IsMarkedText file.now (option_copied mark.entry) result.now }
{
    match mark {
        Some(mark) => match part {
            Part::Value => text_at(file, mark),
            _ => "",
        },
        None => "",
    }
}

/// Returns the excerpt for some octets, if there are some.
fn excerpt_at(alloc: Global, file: &[u8], mark: Option<&Mark>) -> Result<Option<Excerpt>, Memory>
    ensures { IfOk result (IsExcerptOf file.now (option_copied mark.entry)) }
{
    match mark {
        None => Ok(None),
        Some(mark) => Ok(Some(excerpt_of(alloc, file, mark)?)),
    }
}

/// Returns a text with its control characters escaped: keys, names and values of a file may have some.
fn printable(alloc: Global, text: &str) -> Result<String, Memory>
    ensures { IfOk result (λ printed. string_bytes printed ≡ printable text.now) }
{
    let mut printed = String::new(alloc);
    put_printable(&mut printed, text)?;
    Ok(printed)
}

/// Returns the printed message for a fault at a key or table of a document.
fn message_of(
    alloc: Global,
    document: &Table,
    fault: &PlanFault,
    site: Site<'_>,
    value: &str,
) -> Result<String, Memory>
    ensures { IfOk result (λ message.
        IsPrintedMessage (table_view document.now) fault.now site.entry value.now (string_bytes message)) }
{
    let mut message = String::new(alloc);
    put_message(alloc, &mut message, document, fault, site, value)?;
    printable(alloc, message.as_str())
}

/// Returns the printed hint for a fault, if it has one.
fn printed_hint(
    alloc: Global,
    file: &[u8],
    document: &Table,
    fault: &PlanFault,
    finding: &Finding<'_>,
) -> Result<Option<String>, Memory>
    ensures { IfOk result (λ hint.
        IsPrintedHint file.now (table_view document.now) fault.now finding.now (option_map string_bytes hint)) }
{
    match hint_of(alloc, file, document, fault, finding)? {
        Some(hint) => Ok(Some(printable(alloc, hint.as_str())?)),
        None => Ok(None),
    }
}

/// Returns the error for a fault at a key or table of a document.
fn found_error(
    alloc: Global,
    file: &[u8],
    document: &Table,
    fault: &PlanFault,
    finding: &Finding<'_>,
) -> Result<Diagnostic, Memory>
    requires { IsFinding (table_view document.now) fault.now finding.now }
    ensures { IfOk result (IsFoundError file.now (table_view document.now) fault.now) }
{
    let mark = mark_at(alloc, file, finding.shown, finding.part)?;
    let value = value_text(file, finding.part, mark.as_ref());
    Ok(Diagnostic {
        excerpt: excerpt_at(alloc, file, mark.as_ref())?,
        message: message_of(alloc, document, fault, finding.about, value)?,
        hint: printed_hint(alloc, file, document, fault, finding)?,
    })
}

/// Returns an error with the printed text of a fault alone.
fn bare_error(alloc: Global, fault: &PlanFault) -> Result<Diagnostic, Memory>
    ensures { IfOk result IsBare }
{
    let text = format!(in alloc; "{fault}")?;
    Ok(Diagnostic {
        excerpt: None,
        message: printable(alloc, text.as_str())?,
        hint: None,
    })
}

/// Returns the error for a fault of a document.
pub(crate) fn document_error(
    alloc: Global,
    file: &[u8],
    document: &Table,
    fault: &PlanFault,
) -> Result<Diagnostic, Memory>
    ensures { IfOk result (IsDocumentError file.now (table_view document.now) fault.now) }
{
    match finding_of(alloc, document, fault)? {
        Some(finding) => found_error(alloc, file, document, fault, &finding),
        None => bare_error(alloc, fault),
    }
}

/// Returns the error for a fault of a document in a file, if the file is one.
fn error_in(alloc: Global, file: &[u8], fault: &PlanFault) -> Result<Diagnostic, Memory>
    ensures { IfOk result (IsErrorIn file.now fault.now) }
{
    match toml::table_from_slice(alloc, file) {
        Ok(document) => document_error(alloc, file, &document, fault),
        Err(e) if e.is_memory() => Err(Memory),
        Err(_) => bare_error(alloc, fault),
    }
}

/// Returns the error for a fault of a plan file.
///
/// Its excerpt is the line of the key or table in the file, if there is one. If the file isn't a document, it is the
/// line at which reading stopped.
///
/// # Errors
///
/// `Memory` if an allocation failed, or if the fault is `Memory`.
pub fn fault_error(alloc: Global, file: &[u8], fault: &PlanFault) -> Result<Diagnostic, Memory>
    ensures { IfOk result (IsFaultError file.now fault.now) }
{
    match fault {
        PlanFault::Utf8 => utf8_error(alloc, file),
        PlanFault::Toml => toml_error(alloc, file),
        PlanFault::Memory => Err(Memory),
        _ => error_in(alloc, file, fault),
    }
}

/// Checks that a file was not refused because an allocation failed.
///
/// # Errors
///
/// `Memory` if an allocation failed while the file was read.
fn check_memory(fault: &PlanFault) -> Result<(), Memory>
    ensures { OnOk result (fault.now ≢ lack) }
{
    match fault {
        PlanFault::Memory => Err(Memory),
        _ => Ok(()),
    }
}

/// Returns the first fault of a plan file. `None` if the file is a plan.
///
/// # Errors
///
/// `Memory` if an allocation failed.
pub(crate) fn fault_of(alloc: Global, file: &[u8]) -> Result<Option<PlanFault>, Memory>
    ensures { IfOk result (λ o. MatchOption o (IsPlanFile file.now) (IsFaultOf file.now)) }
{
    match read_plan(alloc, file) {
        Ok(_) => Ok(None),
        Err(fault) => {
            check_memory(&fault)?;
            Ok(Some(fault))
        }
    }
}

/// Returns the error of a plan file: its first fault with excerpt, message and hint. `None` if the file is a plan.
///
/// # Errors
///
/// `Memory` if an allocation failed.
pub fn plan_error(alloc: Global, file: &[u8]) -> Result<Option<Diagnostic>, Memory>
    ensures { IfOk result (λ o. MatchOption o (IsPlanFile file.now) (IsFirstError file.now)) }
{
    let document = match toml::table_from_slice(alloc, file) {
        Ok(document) => document,
        Err(e) if e.is_memory() => return Err(Memory),
        Err(_) => return Ok(Some(text_error(alloc, file)?)),
    };
    match fault_of(alloc, file)? {
        Some(fault) => Ok(Some(document_error(alloc, file, &document, &fault)?)),
        None => Ok(None),
    }
}
