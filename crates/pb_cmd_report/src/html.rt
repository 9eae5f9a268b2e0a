//! Texts and cells in HTML.

ghost use Rattle.std.specs.Prelude.{◌≡◌, ◌++◌, string_bytes, OnOk};
ghost use Rattle.pb_cmd_report.specs.Html.{shown, escaped, cell_of, number_cell};

use pb_frame::Memory;

/// Appends a character, or the entity of one that has a meaning in HTML.
fn put_character(out: &mut String, c: char) -> Result<(), Memory>
    ensures { OnOk result (string_bytes out.new ≡ string_bytes out.old ++ shown c) }
{
    match c {
        '&' => out.push_str("&amp;")?,
        '<' => out.push_str("&lt;")?,
        '>' => out.push_str("&gt;")?,
        '"' => out.push_str("&quot;")?,
        _ => out.push(c)?,
    }
    Ok(())
}

/// Appends a text with the characters that have a meaning in HTML as entities, also for a quoted attribute.
pub(crate) fn put_escaped(out: &mut String, text: &str) -> Result<(), Memory>
    ensures { OnOk result (string_bytes out.new ≡ string_bytes out.old ++ escaped text.now) }
{
    for c in text.chars() {
        put_character(out, c)?;
    }
    Ok(())
}

/// Appends a cell of a table with a text.
pub(crate) fn put_cell(out: &mut String, text: &str) -> Result<(), Memory>
    ensures { OnOk result (string_bytes out.new ≡ string_bytes out.old ++ cell_of text.now) }
{
    out.push_str("<td>")?;
    put_escaped(out, text)?;
    out.push_str("</td>")?;
    Ok(())
}

/// Appends a cell of a table with a number.
pub(crate) fn put_number_cell(out: &mut String, number: u32) -> Result<(), Memory>
    ensures { OnOk result (string_bytes out.new ≡ string_bytes out.old ++ number_cell number) }
{
    write!(out, "<td>{number}</td>")?;
    Ok(())
}
