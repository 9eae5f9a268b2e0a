//! The printed form of an error.

ghost use Rattle.std.specs.Prelude.{◌≡◌, ◌++◌, string_bytes, option_copied, OnOk};
ghost use Rattle.std.specs.List.{flat_map};
ghost use Rattle.pb_printable.specs.Printable.{printable, IsOneLine};
ghost use Rattle.pb_diagnostics.specs.Texts.{pad, carets, location, excerpt_text, hint_line, diagnostic_text};
ghost use Rattle.pb_diagnostics.specs.PrintedLines.{ArePrintedLines};

use crate::excerpt::{Excerpt, is_first_octet};
use pb_printable::put_printable;
use std::alloc::AllocError;

/// An error in a file.
#[derive(Drop)]
pub struct Diagnostic {
    /// The line and the octets that are wrong, if it has some.
    pub excerpt: Option<Excerpt>,
    /// What is wrong.
    pub message: String,
    /// What was probably meant, or where the other part is.
    pub hint: Option<String>,
}

/// Appends a text with its control characters escaped.
fn put_text(out: &mut String, text: &str) -> Result<(), AllocError>
    ensures { OnOk result (string_bytes out.new ≡ string_bytes out.old ++ printable text.now) }
{
    match put_printable(out, text) {
        Ok(()) => Ok(()),
        Err(_) => Err(AllocError),
    }
}

/// Returns a space for each character that is printed for an octet: for those of the escape of a control character of
/// ASCII, or for the first octet of any other character.
fn padding_of(octet: u8) -> &'static str
    ensures { result.now ≡ pad octet }
{
    match octet {
        b'\t' | b'\n' | b'\r' => "  ",
        0..=31 | 127 => "      ",
        _ if is_first_octet(octet) => " ",
        _ => "",
    }
}

/// Appends as many spaces as a text has characters when it is printed.
fn put_padding(out: &mut String, text: &[u8]) -> Result<(), AllocError>
    ensures { OnOk result (string_bytes out.new ≡ string_bytes out.old ++ flat_map pad text.now) }
{
    for octet in text {
        out.push_str(padding_of(*octet))?;
    }
    Ok(())
}

/// Appends so many carets.
#[tactic(auto, using(crate::proofs::CaretLemmas::one_more))]
fn put_carets(out: &mut String, count: usize) -> Result<(), AllocError>
    ensures { OnOk result (string_bytes out.new ≡ string_bytes out.old ++ carets count) }
{
    for _put in 0..count {
        out.push_str("^")?;
    }
    Ok(())
}

/// Appends the path of a file with line and column, if there are some.
#[tactic(auto, using(crate::proofs::PrintedLemmas::location_printed, crate::proofs::PrintedLemmas::path_printed))]
fn put_location(out: &mut String, path: &str, excerpt: Option<&Excerpt>) -> Result<(), AllocError>
    ensures text { OnOk result (string_bytes out.new ≡ string_bytes out.old
        ++ location path.now (option_copied excerpt.entry)) }
    ensures printed { OnOk result (IsOneLine (location path.now (option_copied excerpt.entry))) }
{
    put_text(out, path)?;
    match excerpt {
        Some(excerpt) => {
            let line = excerpt.line;
            let column = excerpt.column;
            write!(out, ":{line}:{column}: ")?;
        }
        None => out.push_str(": ")?,
    }
    Ok(())
}

/// Appends the line of an excerpt, with carets under its octets. Nothing if the line has no text.
fn put_excerpt(out: &mut String, excerpt: &Excerpt) -> Result<(), AllocError>
    ensures { OnOk result (string_bytes out.new ≡ string_bytes out.old ++ excerpt_text excerpt.now) }
{
    let text = excerpt.text.as_str();
    if text.is_empty() {
        return Ok(());
    }
    out.push_str("    ")?;
    put_text(out, text)?;
    out.push_str("\n    ")?;
    let before = excerpt.column.saturating_sub(1).min(text.len());
    put_padding(out, &text.as_bytes()[..before])?;
    put_carets(out, excerpt.width)?;
    out.push_str("\n")?;
    Ok(())
}

/// Appends the line of a hint.
fn put_hint(out: &mut String, hint: &str) -> Result<(), AllocError>
    ensures { OnOk result (string_bytes out.new ≡ string_bytes out.old ++ hint_line hint.now) }
{
    out.push_str("hint: ")?;
    put_text(out, hint)?;
    out.push_str("\n")?;
    Ok(())
}

/// Appends the text of an error in the file at a path.
///
/// The first line is `PATH:LINE:COLUMN: MESSAGE`. The next ones are the line of the file, and carets under its octets;
/// both are indented by four spaces. The last one is `hint: HINT`, if there is a hint. Control characters of all these
/// are escaped: each is one line.
///
/// # Errors
///
/// `AllocError` if an allocation failed.
#[tactic(auto, using(crate::proofs::PrintedLemmas::diagnostic_lines))]
pub fn put_diagnostic(
    out: &mut String,
    path: &str,
    diagnostic: &Diagnostic,
) -> Result<(), AllocError>
    ensures text { OnOk result (string_bytes out.new ≡ string_bytes out.old
        ++ diagnostic_text path.now diagnostic.now) }
    ensures lines { OnOk result (ArePrintedLines (diagnostic_text path.now diagnostic.now)) }
{
    put_location(out, path, diagnostic.excerpt.as_ref())?;
    put_text(out, diagnostic.message.as_str())?;
    out.push_str("\n")?;
    if let Some(excerpt) = &diagnostic.excerpt {
        put_excerpt(out, excerpt)?;
    }
    if let Some(hint) = &diagnostic.hint {
        put_hint(out, hint.as_str())?;
    }
    Ok(())
}
