//! A report as CSV.

ghost use Rattle.std.specs.Prelude.{◌≡◌, ◌++◌, List, map, string_bytes, IfOk, OnOk};
ghost use Rattle.csv.specs.Writing.{row_text as csv_line};
ghost use Rattle.pb_export.specs.Rows.{AreRows};
ghost use Rattle.pb_export.specs.Tables.{cell_at, cell_text, field_cell, line_of, lines_of, rows_text, said_cell};
ghost use Rattle.pb_export.specs.Tables.{table_text, writer};
ghost use Rattle.pb_export.specs.declared.rows.Row.{Row};

use crate::documents::is_at;
use crate::faults::FormatFault;
use crate::reading::read_report;
use crate::rows::{Field, Filled, Row};
use crate::templates::{Form, Said};
use csv::{Error, Terminator, WriterBuilder};
use std::alloc::{AllocError, Global};

/// A cell of a table.
#[derive(Clone, Copy)]
pub enum Cell {
    /// This text.
    Fixed(&'static str),
    /// The value of the slot with this key, or nothing if there is no such slot.
    Held(&'static str),
}

/// A line of a table.
#[derive(Clone, Copy)]
pub struct CellRow {
    /// The list whose rows have such a line.
    pub home: &'static str,
    /// Its cells.
    pub cells: &'static [Cell],
}

/// The form of a table.
#[derive(Clone, Copy)]
pub struct Table {
    /// The titles of its columns.
    pub titles: &'static [&'static str],
    /// The lines of rows.
    pub lines: &'static [CellRow],
}

/// Returns the meaning of a fixed text as a cell.
fn said_cell(says: Said) -> &'static str
    ensures { result.now ≡ said_cell says }
{
    match says {
        Said::Word(word) => word,
        Said::Yes => "yes",
        Said::No => "no",
        Said::Nothing => "",
    }
}

/// Returns the value of a slot as a cell, which is empty for a list.
fn field_cell(alloc: Global, field: &Field<'_>) -> Result<String, AllocError>
    ensures { IfOk result (λ s. string_bytes s ≡ field_cell field.now) }
{
    match field {
        Field::Text(text) => String::from_str(alloc, text),
        Field::Number(number) | Field::Depth(number) => number.to_string(alloc),
        Field::Chosen(choice) => String::from_str(alloc, said_cell(choice.says)),
        Field::Words(_) | Field::Numbers(_) | Field::Groups(_, _) => Ok(String::new(alloc)),
    }
}

/// Returns the cell of the slot with a key, or an empty cell if there is none.
fn cell_at(alloc: Global, key: &str, fields: &[Filled<'_>]) -> Result<String, AllocError>
    ensures { IfOk result (λ s. string_bytes s ≡ cell_at key.now fields.now) }
{
    for filled in fields {
        if filled.slot.key == key {
            return field_cell(alloc, &filled.field);
        }
    }
    Ok(String::new(alloc))
}

/// Returns a cell of a row.
fn cell_text(alloc: Global, row: &Row<'_>, cell: &Cell) -> Result<String, AllocError>
    ensures { IfOk result (λ s. string_bytes s ≡ cell_text row.now cell.now) }
{
    match cell {
        Cell::Fixed(text) => String::from_str(alloc, text),
        Cell::Held(key) => cell_at(alloc, key, row.fields.as_slice()),
    }
}

/// Returns the cells of a row.
fn cells_of(alloc: Global, row: &Row<'_>, cells: &[Cell]) -> Result<Vec<String>, AllocError>
    ensures { IfOk result (λ texts. map string_bytes texts.items ≡ map (cell_text row.now) cells.now) }
{
    let mut texts = Vec::with_capacity(alloc, cells.len())?;
    for cell in cells {
        texts.push(cell_text(alloc, row, cell)?)?;
    }
    Ok(texts)
}

/// Returns a line of a table with these cells.
fn line_with(alloc: Global, cells: &[&[u8]]) -> Result<Vec<u8>, Error>
    ensures { IfOk result (λ line. line.items ≡ csv_line writer (map (λ c. c.now) cells.now)) }
{
    let mut writer = WriterBuilder::new()
        .terminator(Terminator::CRLF)
        .from_writer(Vec::new(alloc));
    writer.write_fields(cells)?;
    match writer.into_inner() {
        Ok(line) => Ok(line),
        Err(e) => Err(e.into_error()),
    }
}

/// Appends a line with these cells to a table.
fn put_line(alloc: Global, out: &mut Vec<u8>, cells: &[&[u8]]) -> Result<(), FormatFault>
    ensures { OnOk result (out.new.items ≡ out.old.items ++ csv_line writer (map (λ c. c.now) cells.now)) }
{
    let Ok(line) = line_with(alloc, cells) else {
        return Err(FormatFault::Memory);
    };
    out.extend_from_slice(line.as_slice())?;
    Ok(())
}

/// Returns the octets of texts.
fn octets_of(alloc: Global, texts: &[String]) -> Result<Vec<&[u8]>, AllocError>
    ensures { IfOk result (λ octets. map (λ o. o.now) octets.items ≡ map string_bytes texts.now) }
{
    let mut octets = Vec::with_capacity(alloc, texts.len())?;
    for text in texts {
        octets.push(text.as_bytes())?;
    }
    Ok(octets)
}

/// Appends the titles of a table.
fn put_titles(alloc: Global, out: &mut Vec<u8>, titles: &[&str]) -> Result<(), FormatFault>
    ensures { OnOk result (out.new.items ≡ out.old.items ++ csv_line writer (map (λ t. t.now) titles.now)) }
{
    let mut octets = Vec::with_capacity(alloc, titles.len())?;
    for title in titles {
        octets.push(title.as_bytes())?;
    }
    put_line(alloc, out, octets.as_slice())
}

/// Appends the line of a row in one of a table's forms, if the row belongs to its list.
fn put_row(
    alloc: Global,
    out: &mut Vec<u8>,
    row: &Row<'_>,
    form: &CellRow,
) -> Result<(), FormatFault>
    ensures { OnOk result (out.new.items ≡ out.old.items ++ line_of row.now form.now) }
{
    if !is_at(form.home, row) {
        return Ok(());
    }
    let cells = cells_of(alloc, row, form.cells)?;
    let octets = octets_of(alloc, cells.as_slice())?;
    put_line(alloc, out, octets.as_slice())
}

/// Appends the lines of a row.
fn put_lines(
    alloc: Global,
    out: &mut Vec<u8>,
    forms: &[CellRow],
    row: &Row<'_>,
) -> Result<(), FormatFault>
    ensures { OnOk result (out.new.items ≡ out.old.items ++ lines_of forms.now row.now) }
{
    for form in forms {
        put_row(alloc, out, row, form)?;
    }
    Ok(())
}

/// Appends the lines of several rows.
fn put_rows(
    alloc: Global,
    out: &mut Vec<u8>,
    forms: &[CellRow],
    rows: &[Row<'_>],
) -> Result<(), FormatFault>
    ensures { OnOk result (out.new.items ≡ out.old.items ++ rows_text forms.now rows.now) }
{
    for row in rows {
        put_lines(alloc, out, forms, row)?;
    }
    Ok(())
}

/// Returns a report of a form as CSV (RFC 4180): a line of titles, then for each row of the report, in its order, the
/// lines that its list has in the table. Rows of other lists have none, and a list inside a row has no cell.
///
/// # Errors
///
/// `Unread` if the last line has no end or a line fits none of the form's templates. `Memory` if an allocation failed.
pub fn csv_of(alloc: Global, form: &Form, table: &Table, text: &str) -> Result<Vec<u8>, FormatFault>
    ensures { IfOk result (λ csv. (rows : List Row) × AreRows form.now.templates.now text.now rows
        × (csv.items ≡ table_text table.now rows)) }
{
    let rows = read_report(alloc, form.templates, text)?;
    let mut out = Vec::new(alloc);
    put_titles(alloc, &mut out, table.titles)?;
    put_rows(alloc, &mut out, table.lines, rows.as_slice())?;
    Ok(out)
}
