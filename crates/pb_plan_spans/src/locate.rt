//! The place at which a plan file breaks a rule.

ghost use Rattle.std.specs.Prelude.{◌≡◌, IfOk};
ghost use Rattle.pb_plan_spans.specs.Lines.{table_line};
ghost use Rattle.pb_plan_spans.specs.Spots.{key_spot, IsUtf8Spot, IsTomlSpot, IsSpotOf, TellsSpot};

use crate::header::{header_line, is_plain};
use crate::place::{is_value, place_in};
use crate::spot::{Spot, line_spot, octet_spot};
use pb_frame::{Memory, Text};
use pb_service::{PlanFault, read_plan};
use std::alloc::Global;

/// Returns the place of the first octet that isn't UTF-8.
fn utf8_spot(file: &[u8]) -> Option<Spot>
    ensures { IsUtf8Spot file.now result }
{
    match std::str::from_utf8(file) {
        Ok(_) => None,
        Err(e) => Some(octet_spot(file, e.valid_up_to())),
    }
}

/// Returns the place at which the TOML reader stops. Returns `None` too if an allocation failed.
fn toml_spot(alloc: Global, file: &[u8]) -> Option<Spot>
    ensures { IsTomlSpot file.now result }
{
    let text = std::str::from_utf8(file).ok()?;
    match toml::table_from_str(alloc, text) {
        Ok(_) => None,
        Err(e) => {
            let span = e.span()?;
            Some(octet_spot(file, span.start))
        }
    }
}

/// Returns the line of a file, from 1, with the header of a table, as `[network]` or `[[bridge]]`, after so many
/// earlier headers of the same word. Returns `None` if the file has too few such headers, or has texts of several lines
/// or quoted keys.
pub fn table_line(file: &[u8], word: &[u8], earlier: usize) -> Option<usize>
    ensures { result ≡ table_line file.now word.now earlier }
{
    if !is_plain(file) {
        return None;
    }
    header_line(file, word, earlier)
}

/// Returns the line of the header of a key's table, by the path of the key.
fn key_spot(file: &[u8], path: &Text) -> Option<Spot>
    ensures { result ≡ key_spot file.now path.now }
{
    if !is_plain(file) {
        return None;
    }
    let (word, others) = place_in(path.as_str().as_bytes());
    if is_value(word) {
        return None;
    }
    header_line(file, word, others).map(line_spot)
}

/// Returns the place of a fault in a plan file, as [`read_plan`] reports it.
///
/// - `Utf8`: the first octet that isn't UTF-8.
/// - `Toml`: the octet at which the TOML reader stops.
/// - `Missing`, `Kind`, `Range`, `Unknown`: the line that is the header of the key's table, as `[network]` or
///   `[[bridge]]`, apart from blanks and a comment. For a key at the top it is the first such line with the key itself.
///
/// Returns `None` for all other faults. It also returns `None` for a key if the place is uncertain: the file has too
/// few such headers, as with inline tables and dotted keys, it has texts of several lines or quoted keys, or the key
/// could be a value. It returns `None` for `Toml` if an allocation failed.
pub fn spot_of(alloc: Global, file: &[u8], fault: &PlanFault) -> Option<Spot>
    ensures { IsSpotOf file.now fault.now result }
{
    match fault {
        PlanFault::Utf8 => utf8_spot(file),
        PlanFault::Toml => toml_spot(alloc, file),
        PlanFault::Missing(path)
        | PlanFault::Kind(path)
        | PlanFault::Range(path)
        | PlanFault::Unknown(path) => key_spot(file, path),
        PlanFault::Twice(_)
        | PlanFault::NoSuch(_)
        | PlanFault::LinkEnd
        | PlanFault::TooMany
        | PlanFault::Memory => None,
    }
}

/// Reads a plan file and returns the place of its first fault, as [`spot_of`] finds it. Returns `None` if the file is a
/// plan.
///
/// # Errors
///
/// `Memory` if an allocation failed while the file was read.
pub fn refused_at(alloc: Global, file: &[u8]) -> Result<Option<Spot>, Memory>
    ensures { IfOk result (TellsSpot file.now) }
{
    match read_plan(alloc, file) {
        Ok(_) => Ok(None),
        Err(PlanFault::Memory) => Err(Memory),
        Err(fault) => Ok(spot_of(alloc, file, &fault)),
    }
}
