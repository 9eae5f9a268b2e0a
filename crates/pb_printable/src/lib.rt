//! Texts of a file, printed with their control characters escaped, so that they stay on one line.
//!
//! It builds on pb_frame for a failed allocation alone. Begin with [`put_printable`].
#![tactic(auto)]

ghost use Rattle.std.specs.Prelude.{◌≡◌, ◌++◌, IsTrue, string_bytes, OnOk};
ghost use Rattle.std.specs.Char.{is_control};
ghost use Rattle.pb_printable.specs.Printable.{escape, printed, printable, IsOneLine, HasNoControl};

use pb_frame::Memory;

/// Appends the escape of a control character.
fn put_escape(out: &mut String, control: char) -> Result<(), Memory>
    requires { IsTrue (is_control control) }
    ensures { OnOk result (string_bytes out.new ≡ string_bytes out.old ++ escape control) }
{
    match control {
        '\n' => out.push_str("\\n")?,
        '\r' => out.push_str("\\r")?,
        '\t' => out.push_str("\\t")?,
        _ => {
            let code = control as u32;
            write!(out, "\\u00{code:02x}")?;
        }
    }
    Ok(())
}

/// Appends a character, or its escape if it is a control character.
fn put_character(out: &mut String, c: char) -> Result<(), Memory>
    ensures { OnOk result (string_bytes out.new ≡ string_bytes out.old ++ printed c) }
{
    if c.is_control() {
        return put_escape(out, c);
    }
    out.push(c)?;
    Ok(())
}

/// Appends a text with each control character escaped: LF as `\n`, CR as `\r`, TAB as `\t`, and every other one below
/// U+0020, U+007F and U+0080 to U+009F as `\u` and four lower-case hexadecimal digits. All else is appended as it is,
/// also a backslash.
///
/// # Errors
///
/// `Memory` if an allocation failed. A part of the text may have been appended then.
pub fn put_printable(out: &mut String, text: &str) -> Result<(), Memory>
    ensures { OnOk result (string_bytes out.new ≡ string_bytes out.old ++ printable text.now) }
{
    for c in text.chars() {
        put_character(out, c)?;
    }
    Ok(())
}

/// Shows that a printed text has no control character, and no control octet of ASCII: it is a part of one line.
pub fn printable_is_one_line(text: &str)
    ensures octets { IsOneLine (printable text.now) }
    ensures characters { HasNoControl (printable text.now) }
{
    let _text = text;
}

/// Shows that a text without control characters is printed as it is.
pub fn printable_keeps_other_texts(text: &str)
    ensures { HasNoControl text.now → printable text.now ≡ text.now }
{
    let _text = text;
}
