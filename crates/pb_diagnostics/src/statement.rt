//! The lines of a TOML text that give a key its value, or begin a table.

ghost use Rattle.std.specs.Prelude.{◌≡◌, ◌≤◌, ◌<◌, length, take, IfOk, IfSome, IfNone};
ghost use Rattle.pb_diagnostics.specs.Statements.{IsReading, IsStatement, IsWhole, LacksSite};

use crate::site::{Site, has_site};
use std::alloc::{AllocError, Global};

/// The lines of a text that give a key its value, or begin a table.
#[derive(Clone, Copy)]
pub struct Statement {
    /// The number of octets before the first of these lines.
    pub from: usize,
    /// The number of octets up to the end of the last one.
    pub to: usize,
}

/// What the beginning of a text is.
#[derive(Clone, Copy)]
enum Reading {
    /// No TOML document: a value over several lines has not ended.
    Broken,
    /// A document without the key or table.
    Lacks,
    /// A document with it.
    Has,
}

/// Returns what a text is: a document with a key or table, one without it, or no document.
///
/// # Errors
///
/// `AllocError` if an allocation failed.
fn reading_of(alloc: Global, text: &[u8], site: Site<'_>) -> Result<Reading, AllocError>
    ensures { IfOk result (IsReading text.now site.entry) }
{
    match toml::table_from_slice(alloc, text) {
        Ok(document) => {
            if has_site(&document, site) {
                Ok(Reading::Has)
            } else {
                Ok(Reading::Lacks)
            }
        }
        Err(e) if e.is_memory() => Err(AllocError),
        Err(_) => Ok(Reading::Broken),
    }
}

/// Returns the numbers of octets up to the end of each line, after 0.
///
/// # Errors
///
/// `AllocError` if an allocation failed.
fn line_ends(alloc: Global, file: &[u8]) -> Result<Vec<usize>, AllocError> {
    let mut ends = Vec::new(alloc);
    ends.push(0)?;
    for (index, octet) in file.iter().enumerate() {
        if *octet == b'\n' {
            ends.push(index + 1)?;
        }
    }
    ends.push(file.len())?;
    Ok(ends)
}

/// Returns the first so many octets of a file, or the whole file if it has fewer.
fn beginning(file: &[u8], count: usize) -> &[u8]
    ensures { result.now ≡ take count file.now }
{
    &file[..count.min(file.len())]
}

/// Returns the first of some numbers at which the beginning of a file is a document, as its index, and whether that
/// document has the key or table.
///
/// # Errors
///
/// `AllocError` if an allocation failed.
fn first_whole(
    alloc: Global,
    file: &[u8],
    ends: &[usize],
    range: (usize, usize),
    site: Site<'_>,
) -> Result<Option<(usize, bool)>, AllocError>
    requires { range.1 ≤ length ends.now }
    ensures within { IfOk result (λ o. IfSome o (λ p. p.0 < range.1)) }
    ensures whole { IfOk result (λ o. IfSome o (λ p. IsWhole file.now ends.now site.entry p.0 p.1)) }
{
    let (from, below) = range;
    for index in from..below {
        match reading_of(alloc, beginning(file, ends[index]), site)? {
            Reading::Broken => {}
            Reading::Lacks => return Ok(Some((index, false))),
            Reading::Has => return Ok(Some((index, true))),
        }
    }
    Ok(None)
}

/// Returns the lines of a TOML document that give a key its value, or begin a table.
///
/// The text before them is a document that lacks the key or table, and the text up to their end is a document that has
/// it. `None` if the file isn't a TOML document, or has no such key or table.
///
/// # Errors
///
/// `AllocError` if an allocation failed.
pub fn statement_of(
    alloc: Global,
    file: &[u8],
    site: Site<'_>,
) -> Result<Option<Statement>, AllocError>
    ensures found { IfOk result (λ o. IfSome o (IsStatement file.now site.entry)) }
    ensures none { IfOk result (λ o. IfNone o (LacksSite file.now site.entry)) }
{
    let Reading::Has = reading_of(alloc, file, site)? else {
        return Ok(None);
    };
    let ends = line_ends(alloc, file)?;
    let ends = ends.as_slice();
    let mut low = 0;
    let mut from = 0;
    let mut gap = ends.len();
    let mut to = file.len();
    for _round in 0..ends.len() {
        if gap.saturating_sub(low) <= 1 {
            break;
        }
        let middle = low + (gap - low) / 2;
        match first_whole(alloc, file, ends, (middle, gap), site)? {
            None => gap = middle,
            Some((index, true)) => {
                to = ends[index];
                gap = middle;
            }
            Some((index, false)) => {
                from = ends[index];
                low = index;
            }
        }
    }
    Ok(Some(Statement { from, to }))
}
