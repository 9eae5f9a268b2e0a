//! Templates read lines.

ghost use Rattle.std.specs.Prelude.{◌≡◌, ◌↔◌, ◌++◌, ◌∷◌, [], ℕ, List, map};
ghost use Rattle.std.specs.Prelude.{Contains, All, IfOk, IfSome, IsSome, MatchOption};
ghost use Rattle.pb_export.specs.Fitting.{Lacks, EndsAt, IsAfterEnding, IsAfterChoice, IsAfterSingle, IsAfterWords};
ghost use Rattle.pb_export.specs.Fitting.{IsAfterNumbers, IsAfterGroups, IsAfterValue, FitSlots, FitsTemplate};
ghost use Rattle.pb_export.specs.Rows.{field_text, fields_text, filled_text, report_text, row_text, Fits, IsFilled};
ghost use Rattle.pb_export.specs.Rows.{IsEnding, AreFilled, IsRow, IsRowOf, AreRows};

use crate::faults::FormatFault;
use crate::parts::{around, before, behind, depth_at, number_at};
use crate::rows::{Field, Filled, Row};
use crate::templates::{Choice, Kind, Said, Slot, Template};
use crate::words::{groups_in, numbers_at, words_in};
use std::alloc::{AllocError, Global};

/// Returns the first choice with which a text begins, and the text after it.
fn choice_at<'a>(choices: &[Choice], text: &'a str) -> Option<(Choice, &'a str)>
    ensures text { IfSome result (λ parts. text.now ≡ parts.0.text.now ++ parts.1.now) }
    ensures among { IfSome result (λ parts. Contains choices.now parts.0) }
    ensures first { EndsAt (IsAfterChoice choices.now text.now) result }
{
    for choice in choices {
        if let Some(rest) = behind(text, choice.text) {
            return Some((*choice, rest));
        }
    }
    None
}

/// Returns the ending of a noun with which a text begins, and the text after it.
fn ending_at(text: &str) -> (Choice, &str)
    ensures text { text.now ≡ result.0.text.now ++ result.1.now }
    ensures ending { IsEnding result.0 }
    ensures whole { IsAfterEnding text.now result.1.now }
{
    let says = Said::Nothing;
    match behind(text, "s") {
        Some(rest) => (Choice { text: "s", says }, rest),
        None => (Choice { text: "", says }, text),
    }
}

/// Returns the value of a slot that needs no allocation, and the text after it.
fn plain_field<'a>(slot: &Slot, text: &'a str) -> Option<(Field<'a>, &'a str)>
    ensures text { IfSome result (λ parts. text.now ≡ field_text parts.0 ++ parts.1.now) }
    ensures fits { IfSome result (λ parts. Fits slot.now.kind parts.0) }
    ensures whole { EndsAt (IsAfterSingle slot.now.kind slot.now.until.now text.now) result }
{
    match slot.kind {
        Kind::Text => {
            let (front, rest) = before(text, slot.until)?;
            Some((Field::Text(front), rest))
        }
        Kind::Number => {
            let (number, rest) = number_at(text)?;
            Some((Field::Number(number), rest))
        }
        Kind::Depth => {
            let (depth, rest) = depth_at(text);
            Some((Field::Depth(depth), rest))
        }
        Kind::Plural => {
            let (choice, rest) = ending_at(text);
            Some((Field::Chosen(choice), rest))
        }
        Kind::OneOf(choices) => {
            let (choice, rest) = choice_at(choices, text)?;
            Some((Field::Chosen(choice), rest))
        }
        Kind::Words | Kind::Numbers | Kind::Groups => None,
    }
}

/// Returns words, each after a space, up to the first `until`, and the text from there on.
fn words_field<'a>(
    alloc: Global,
    text: &'a str,
    until: &str,
) -> Result<Option<(Field<'a>, &'a str)>, AllocError>
    ensures field { IfOk result (λ o. IfSome o (λ parts. (text.now ≡ field_text parts.0 ++ parts.1.now)
        × Fits Kind.Words parts.0)) }
    ensures whole { IfOk result (EndsAt (IsAfterWords until.now text.now)) }
{
    let Some((front, rest)) = before(text, until) else {
        return Ok(None);
    };
    match words_in(alloc, front)? {
        Some(words) => Ok(Some((Field::Words(words), rest))),
        None => Ok(None),
    }
}

/// Returns numbers, each after a space, and the text after them.
fn numbers_field<'a>(
    alloc: Global,
    text: &'a str,
) -> Result<Option<(Field<'a>, &'a str)>, AllocError>
    ensures field { IfOk result (λ o. IfSome o (λ parts. (text.now ≡ field_text parts.0 ++ parts.1.now)
        × Fits Kind.Numbers parts.0)) }
    ensures whole { IfOk result (EndsAt (IsAfterNumbers text.now)) }
{
    let (numbers, rest) = numbers_at(alloc, text)?;
    Ok(Some((Field::Numbers(numbers), rest)))
}

/// Returns groups of words, up to the end of a line.
fn groups_field<'a>(
    alloc: Global,
    text: &'a str,
) -> Result<Option<(Field<'a>, &'a str)>, AllocError>
    ensures field { IfOk result (λ o. IfSome o (λ parts. (text.now ≡ field_text parts.0 ++ parts.1.now)
        × Fits Kind.Groups parts.0)) }
    ensures whole { IfOk result (EndsAt (IsAfterGroups text.now)) }
{
    match groups_in(alloc, text)? {
        Some((groups, last)) => Ok(Some((Field::Groups(groups, last), ""))),
        None => Ok(None),
    }
}

/// Returns the value of a slot at the start of a text, and the text after it. Returns `None` if no value of the slot's
/// kind is there.
fn field_at<'a>(
    alloc: Global,
    slot: &Slot,
    text: &'a str,
) -> Result<Option<(Field<'a>, &'a str)>, AllocError>
    ensures field { IfOk result (λ o. IfSome o (λ parts. (text.now ≡ field_text parts.0 ++ parts.1.now)
        × Fits slot.now.kind parts.0)) }
    ensures whole { IfOk result (EndsAt (IsAfterValue slot.now.kind slot.now.until.now text.now)) }
{
    match slot.kind {
        Kind::Words => words_field(alloc, text, slot.until),
        Kind::Numbers => numbers_field(alloc, text),
        Kind::Groups => groups_field(alloc, text),
        Kind::Text | Kind::Number | Kind::Depth | Kind::Plural | Kind::OneOf(_) => {
            Ok(plain_field(slot, text))
        }
    }
}

/// Returns a slot with its value at the start of a text, and the text after the slot's fixed text.
fn filled_at<'a>(
    alloc: Global,
    slot: &Slot,
    text: &'a str,
) -> Result<Option<(Filled<'a>, &'a str)>, AllocError>
    ensures filled { IfOk result (λ o. IfSome o (λ parts. IsFilled slot.now parts.0
        × (text.now ≡ filled_text parts.0 ++ parts.1.now))) }
    ensures whole { IfOk result
        (EndsAt (λ rest. IsAfterValue slot.now.kind slot.now.until.now text.now (slot.now.until.now ++ rest))) }
{
    let Some((field, rest)) = field_at(alloc, slot, text)? else {
        return Ok(None);
    };
    match behind(rest, slot.until) {
        Some(rest) => Ok(Some((Filled { slot: *slot, field }, rest))),
        None => Ok(None),
    }
}

/// Returns slots with their values in a text. Returns `None` if the text doesn't fit them.
fn fields_of<'a>(
    alloc: Global,
    slots: &[Slot],
    text: &'a str,
) -> Result<Option<Vec<Filled<'a>>>, AllocError>
    ensures filled { IfOk result (λ o. IfSome o (λ fields. AreFilled slots.now fields.items
        × (text.now ≡ fields_text fields.items))) }
    ensures whole { IfOk result (λ o. IsSome o ↔ FitSlots slots.now text.now) }
{
    let mut fields = Vec::with_capacity(alloc, slots.len())?;
    let mut rest = text;
    for slot in slots {
        let Some((filled, later)) = filled_at(alloc, slot, rest)? else {
            return Ok(None);
        };
        fields.push(filled)?;
        rest = later;
    }
    if rest.is_empty() {
        Ok(Some(fields))
    } else {
        Ok(None)
    }
}

/// Returns a line as a row of a template. Returns `None` if the line doesn't fit it.
fn row_by<'a>(
    alloc: Global,
    template: &Template,
    line: &'a str,
) -> Result<Option<Row<'a>>, AllocError>
    ensures row { IfOk result (λ o. IfSome o (IsRow template.now line.now)) }
    ensures whole { IfOk result (λ o. IsSome o ↔ FitsTemplate template.now line.now) }
{
    let Some(rest) = behind(line, template.lead) else {
        return Ok(None);
    };
    match fields_of(alloc, template.slots, rest)? {
        Some(fields) => Ok(Some(Row {
            template: *template,
            fields,
        })),
        None => Ok(None),
    }
}

/// Returns a line as a row of the first template that it fits. Returns `None` if it fits none.
fn row_of<'a>(
    alloc: Global,
    templates: &[Template],
    line: &'a str,
) -> Result<Option<Row<'a>>, AllocError>
    requires { Lacks (10 ∷ []) line.now }
    ensures { IfOk result (λ o. MatchOption o (All (λ t. ¬ (FitsTemplate t line.now)) templates.now)
        (λ row. IsRowOf templates.now row × (line.now ≡ row_text row))) }
{
    for template in templates {
        if let Some(row) = row_by(alloc, template, line)? {
            return Ok(Some(row));
        }
    }
    Ok(None)
}

/// Returns a report as rows, line by line, each of the first template that the line fits. The rows give back the text.
///
/// # Errors
///
/// `Unread` if a line fits none of the templates or the last line has no end. `Memory` if an allocation failed.
pub fn read_report<'a>(
    alloc: Global,
    templates: &[Template],
    text: &'a str,
) -> Result<Vec<Row<'a>>, FormatFault>
    ensures { IfOk result (λ rows. AreRows templates.now text.now rows.items) }
{
    let mut rows = Vec::new(alloc);
    let mut rest = text;
    'lines: while let Some((line, later)) = around(rest, "\n") {
        let Some(row) = row_of(alloc, templates, line)? else {
            return Err(FormatFault::Unread);
        };
        rows.push(row)?;
        rest = later;
    }
    if rest.is_empty() {
        Ok(rows)
    } else {
        Err(FormatFault::Unread)
    }
}
