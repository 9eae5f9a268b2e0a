//! Names, addresses, VIDs and local ports that a document doesn't use.

use crate::ends::uses_of;
use crate::names::is_named;
use crate::row::{integer_at, items_at, text_at};
use pb_frame::Memory;
use std::alloc::Global;
use toml::Table;

/// The number of names and addresses that are tried. A document has fewer tables in an array.
const TRIED: u32 = 1000;

/// Returns a name that no table of an array has.
///
/// # Errors
///
/// `Memory` if an allocation failed.
pub(crate) fn spare_name(alloc: Global, document: &Table, word: &str) -> Result<String, Memory> {
    for number in 0..TRIED {
        let name = format!(in alloc; "spare-{number}")?;
        if !is_named(document, word, name.as_str()) {
            return Ok(name);
        }
    }
    Ok(String::from_str(alloc, "spare")?)
}

/// Returns whether a bridge has this address.
fn is_address(document: &Table, address: &str) -> bool {
    for item in items_at(document, "bridge") {
        if let Some(row) = item.as_table() {
            if text_at(row, "address").eq_ignore_ascii_case(address) {
                return true;
            }
        }
    }
    false
}

/// Returns an address that no bridge has.
///
/// # Errors
///
/// `Memory` if an allocation failed.
pub(crate) fn spare_address(alloc: Global, document: &Table) -> Result<String, Memory> {
    for number in 0..TRIED {
        let (hundreds, tens, ones) = (number / 100, number / 10 % 10, number % 10);
        let address = format!(in alloc; "06-00-00-00-0{hundreds}-{tens}{ones}")?;
        if !is_address(document, address.as_str()) {
            return Ok(address);
        }
    }
    Ok(String::from_str(alloc, "06-00-00-00-00-00")?)
}

/// Returns whether a service has this VID.
fn is_vid(document: &Table, vid: i64) -> bool {
    for item in items_at(document, "service") {
        if let Some(row) = item.as_table() {
            if integer_at(row, "vid") == vid {
                return true;
            }
        }
    }
    false
}

/// Returns the greatest VID that no service has, or 1.
pub(crate) fn spare_vid(document: &Table) -> i64 {
    for below in 0..4094u16 {
        let vid = i64::from(4094 - below);
        if !is_vid(document, vid) {
            return vid;
        }
    }
    1
}

/// Returns the least local port of a bridge that nothing uses, or 1.
///
/// # Errors
///
/// `Memory` if an allocation failed.
pub(crate) fn spare_port(alloc: Global, document: &Table, bridge: &str) -> Result<i64, Memory> {
    let uses = uses_of(alloc, document)?;
    for port in 1..=16 {
        if !uses
            .as_slice()
            .iter()
            .any(|of| of.bridge == bridge && of.port == port)
        {
            return Ok(port);
        }
    }
    Ok(1)
}
