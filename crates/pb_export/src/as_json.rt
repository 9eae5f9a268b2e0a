//! A report as JSON.

ghost use Rattle.std.specs.Prelude.{List, string_bytes, IfOk};
ghost use Rattle.pb_export.specs.Documents.{report_members};
ghost use Rattle.pb_export.specs.Heads.{IsHeaded};
ghost use Rattle.pb_export.specs.Rows.{AreRows};
ghost use Rattle.pb_export.specs.declared.rows.Row.{Row};

use crate::documents::document;
use crate::faults::FormatFault;
use crate::heads::{Head, head_of};
use crate::parts::behind;
use crate::reading::read_report;
use crate::templates::Form;
use std::alloc::Global;

/// Returns a report of a form as JSON (RFC 8259): an indented object with the members of `head` first, and then its
/// keys in alphabetical order.
///
/// The form's templates read the lines of the report, and the rows give back the whole report. The members after the
/// head follow from the rows (`report_members`): a row that belongs to no list gives members of the document, and each
/// list has its rows. Numbers are JSON numbers, yes and no are true and false. Without the head, the text is the JSON
/// of these members alone.
///
/// # Errors
///
/// `Unread` if the last line has no end, a line fits none of the form's templates, or the report gives no member.
/// `Memory` if an allocation failed.
pub fn json_of(
    alloc: Global,
    form: &Form,
    head: &Head<'_>,
    text: &str,
) -> Result<String, FormatFault>
    ensures { IfOk result (λ json. (rows : List Row) × AreRows form.now.templates.now text.now rows
        × IsHeaded head.now (report_members form.now rows) (string_bytes json)) }
{
    let rows = read_report(alloc, form.templates, text)?;
    let value = document(alloc, form, rows.as_slice())?;
    let report = value.to_string_pretty(alloc)?;
    let Some(rest) = behind(report.as_str(), "{\n  \"") else {
        return Err(FormatFault::Unread);
    };
    let mut json = head_of(alloc, head)?;
    json.push_str("  \"")?;
    json.push_str(rest)?;
    Ok(json)
}
