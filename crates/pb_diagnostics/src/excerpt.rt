//! One line of a text, and the octets of it that are meant.

ghost use Rattle.std.specs.Prelude.{◌≡◌, ◌≤◌, ◌==◌, count_by, length, max, slice_range, IfOk};
ghost use Rattle.std.specs.Str.{IsUtf8};
ghost use Rattle.pb_diagnostics.specs.Lines.{first_line};
ghost use Rattle.pb_diagnostics.specs.Excerpts.{is_first_octet, characters, last_length, line_at, start_in, end_in};
ghost use Rattle.pb_diagnostics.specs.Excerpts.{IsExcerpt};

use crate::line::first_line;
use crate::mark::Mark;
use std::alloc::{AllocError, Global};

/// One line of a text, and the octets of it that are meant.
#[derive(Drop)]
pub struct Excerpt {
    /// The line, counted from 1.
    pub line: usize,
    /// The first octet in its line, counted from 1.
    pub column: usize,
    /// The number of characters, at least 1.
    pub width: usize,
    /// The text of the line, without blanks at its end. It is empty if the line isn't UTF-8.
    pub text: String,
}

/// Returns the number of line feeds in a text.
fn ended_lines(text: &[u8]) -> usize
    ensures { result ≡ count_by (λ b. b == 10) text.now }
{
    text.iter().filter(|b| **b == b'\n').count()
}

/// Returns the length of the last line of a text, in octets.
fn last_length(text: &[u8]) -> usize
    ensures { result ≡ last_length text.now }
{
    text.iter().rev().take_while(|b| **b != b'\n').count()
}

/// Returns whether an octet is the first one of a character in UTF-8.
pub(crate) fn is_first_octet(octet: u8) -> bool
    ensures { result ≡ is_first_octet octet }
{
    octet < 128 || octet >= 192
}

/// Returns the number of characters of a text.
fn characters(text: &[u8]) -> usize
    ensures { result ≡ characters text.now }
{
    text.iter().filter(|b| is_first_octet(**b)).count()
}

/// Returns the text of a line, or the empty text if it isn't UTF-8.
fn text_of(line: &[u8]) -> &str
    ensures { IsUtf8 line.now → result.now ≡ line.now }
{
    match std::str::from_utf8(line) {
        Ok(text) => text,
        Err(_) => "",
    }
}

/// Returns where marked octets begin in a file.
fn start_in(file: &[u8], mark: &Mark) -> usize
    ensures value { result ≡ start_in file.now mark.now }
    ensures within { result ≤ length file.now }
{
    mark.from.min(file.len())
}

/// Returns where marked octets end in a file.
fn end_in(file: &[u8], mark: &Mark) -> usize
    ensures value { result ≡ end_in file.now mark.now }
    ensures within { result ≤ length file.now }
    ensures order { start_in file.now mark.now ≤ result }
{
    mark.to.min(file.len()).max(start_in(file, mark))
}

/// Returns the line of the octet at an index.
fn line_at(file: &[u8], at: usize) -> &[u8]
    requires { at ≤ length file.now }
    ensures { result.now ≡ line_at file.now at }
{
    first_line(&file[at.saturating_sub(last_length(&file[..at]))..])
}

/// Returns the number of marked characters of the first marked line, at least 1.
fn width_of(file: &[u8], mark: &Mark) -> usize
    ensures { result ≡ max (characters (first_line
        (slice_range file.now (start_in file.now mark.now) (end_in file.now mark.now)))) 1 }
{
    characters(first_line(&file[start_in(file, mark)..end_in(file, mark)])).max(1)
}

/// Returns the line of a file that has some octets, and which characters of it they are.
///
/// # Errors
///
/// `AllocError` if an allocation failed.
pub fn excerpt_of(alloc: Global, file: &[u8], mark: &Mark) -> Result<Excerpt, AllocError>
    ensures { IfOk result (IsExcerpt file.now mark.now) }
{
    let from = start_in(file, mark);
    let before = &file[..from];
    Ok(Excerpt {
        line: ended_lines(before) + 1,
        column: last_length(before) + 1,
        width: width_of(file, mark),
        text: String::from_str(alloc, text_of(line_at(file, from)))?,
    })
}
