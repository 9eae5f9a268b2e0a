//! The octets of a key, a value or a header.

ghost use Rattle.std.specs.Prelude.{◌≡◌, ◌+◌, ◌≤◌, length, take, drop, IfOk, IsSome, IsTrue};
ghost use Rattle.toml.specs.Parse.{parse_value};
ghost use Rattle.pb_diagnostics.specs.Lines.{first_line, whole_columns, key_columns};
ghost use Rattle.pb_diagnostics.specs.Marks.{IsMark, AreColumns, IsEndOfValue};

use crate::line::{code_length, first_line, indent, is_header, is_rest, position_of};
use crate::statement::Statement;
use std::alloc::{AllocError, Global};
use toml::Value;

/// A part of the first line of a statement.
#[derive(Clone, Copy, PartialEq, Eq)]
pub enum Part {
    /// All but blanks and a comment.
    Whole,
    /// The key.
    Key,
    /// The value.
    Value,
}

/// Some octets of a file.
#[derive(Clone, Copy)]
pub struct Mark {
    /// The number of octets before them.
    pub from: usize,
    /// The number of octets up to their end.
    pub to: usize,
}

/// Returns the beginning and the end of a line without blanks and without what follows a number sign.
fn whole_columns(line: &[u8]) -> (usize, usize)
    ensures value { result ≡ whole_columns line.now }
    ensures within { (result.0 ≤ length line.now) × (result.1 ≤ length line.now) }
{
    (indent(line), code_length(&line[..position_of(line, b'#')]))
}

/// Returns the beginning and the end of the key of a line.
fn key_columns(line: &[u8]) -> (usize, usize)
    ensures value { result ≡ key_columns line.now }
    ensures within { (result.0 ≤ length line.now) × (result.1 ≤ length line.now) }
{
    (indent(line), code_length(&line[..position_of(line, b'=')]))
}

/// Returns whether a text is a TOML value.
///
/// # Errors
///
/// `AllocError` if an allocation failed.
fn is_value(alloc: Global, text: &[u8]) -> Result<bool, AllocError>
    ensures { IfOk result (λ is. IsTrue is → IsSome (parse_value text.now)) }
{
    let Ok(text) = std::str::from_utf8(text) else {
        return Ok(false);
    };
    match Value::from_str(alloc, text) {
        Ok(_) => Ok(true),
        Err(e) if e.is_memory() => Err(AllocError),
        Err(_) => Ok(false),
    }
}

/// Returns the end of the value that begins at an octet of a line. It is the end of the line's code if the value goes
/// on after this line.
///
/// # Errors
///
/// `AllocError` if an allocation failed.
fn end_of_value(alloc: Global, line: &[u8], from: usize) -> Result<usize, AllocError>
    requires { from ≤ length line.now }
    ensures value { IfOk result (IsEndOfValue line.now from) }
    ensures within { IfOk result (λ end. end ≤ length line.now) }
{
    for end in from + 1..=line.len() {
        if is_rest(&line[end..]) && is_value(alloc, &line[from..end])? {
            return Ok(end);
        }
    }
    Ok(code_length(line))
}

/// Returns the beginning and the end of a part of a line.
///
/// # Errors
///
/// `AllocError` if an allocation failed.
fn columns_of(alloc: Global, line: &[u8], part: Part) -> Result<(usize, usize), AllocError>
    ensures value { IfOk result (AreColumns part line.now) }
    ensures within { IfOk result (λ p. (p.0 ≤ length line.now) × (p.1 ≤ length line.now)) }
{
    let equals = position_of(line, b'=');
    if is_header(line) || equals == line.len() {
        return Ok(whole_columns(line));
    }
    match part {
        Part::Whole => Ok(whole_columns(line)),
        Part::Key => Ok(key_columns(line)),
        Part::Value => {
            let from = equals + 1 + indent(&line[equals + 1..]);
            Ok((from, end_of_value(alloc, line, from)?))
        }
    }
}

/// Returns the octets of a part of a statement's first line.
///
/// A key ends before its equals sign, and a value begins after it. All of the line is marked if it is a header.
///
/// # Errors
///
/// `AllocError` if an allocation failed.
pub fn mark_of(
    alloc: Global,
    file: &[u8],
    statement: &Statement,
    part: Part,
) -> Result<Mark, AllocError>
    ensures { IfOk result (IsMark file.now statement.now part) }
{
    let start = statement.from.min(file.len());
    let line = first_line(&file[start..]);
    let (from, to) = columns_of(alloc, line, part)?;
    Ok(Mark {
        from: start + from,
        to: start + to,
    })
}
