//! The taps of a document: capture files for the frames that cross links.

ghost use Rattle.std.specs.Prelude.{◌≡◌, ◌<◌, ◌⊎◌, length, map, IfOk, IfErr, OnOk};
ghost use Rattle.std.specs.List.{AllZip};
ghost use Rattle.toml.specs.View.{table_view};
ghost use Rattle.pb_service.specs.Formats.{tap_keys};
ghost use Rattle.pb_service.specs.Refusals.{Refuses, RefusesTap, HasTables, names_of, network_limits};
ghost use Rattle.pb_service.specs.Tables.{IsRead};
ghost use Rattle.pb_service.specs.Taps.{IsTapOf};
ghost use Rattle.pb_service.specs.Told.{rows_of};
ghost use Rattle.pb_service.specs.declared.section.Section.TheVariants.{Link as link_section};
ghost use Rattle.pb_service.specs.declared.section.Section.TheVariants.{Tap as tap_section};

use crate::check::put;
use crate::fault::PlanFault;
use crate::formats::keys_of;
use crate::key_fault::KeyFault;
use crate::link::named;
use crate::port::lacks_time;
use crate::port_spec::Stamp;
use crate::row::{check_keys, told};
use crate::section::{KeyTable, Section};
use crate::table::{names_of, rows_of};
use crate::told::{copy_at, direction_of, stamp_of, text_at};
use pb_frame::Text;
use pb_lan::Limits;
use std::alloc::Global;
use toml::Table;

/// The directions of a link that a tap records.
#[derive(Clone, Copy, PartialEq, Eq, Debug)]
pub enum TapDirection {
    /// From end `a` to end `b`.
    Ab,
    /// From end `b` to end `a`.
    Ba,
    /// Both.
    Both,
}

/// A capture file for the frames that cross a link.
#[derive(PartialEq, Debug, Drop)]
pub struct TapSpec {
    /// The link, by its number in the plan from 1.
    pub link: u8,
    /// The directions that are recorded.
    pub direction: TapDirection,
    /// The path of the file.
    pub write: Text,
    /// The time stamp of its records.
    pub stamp: Stamp,
}

/// Returns the tap that a table describes.
///
/// # Errors
///
/// The first rule of its keys that the table breaks. `NoSuch` if no link has the name given, `Range` if records are to
/// have the time of day and no clock ticks by time, `Memory` if an allocation failed.
fn read_tap(
    alloc: Global,
    row: &Table,
    index: usize,
    links: &[&str],
    limits: Limits,
) -> Result<TapSpec, PlanFault>
    requires { length links.now < 256 }
    ensures ok { IfOk result (IsRead (IsTapOf (map (λ n. n.now) links.now) limits) tap_keys (table_view row.now)) }
    ensures err { IfErr result (RefusesTap (map (λ n. n.now) links.now) limits index (table_view row.now)) }
{
    let key_table = KeyTable::Row(Section::Tap, index);
    check_keys(alloc, key_table, keys_of(Section::Tap, row), row)?;
    let link = named(alloc, row, "link", links)?;
    let stamp = text_at(row, "stamp");
    if lacks_time(limits, stamp) {
        return Err(told(alloc, key_table, "stamp", KeyFault::Range));
    }
    Ok(TapSpec {
        link,
        direction: direction_of(text_at(row, "direction")),
        write: copy_at(alloc, row, "write")?,
        stamp: stamp_of(stamp),
    })
}

/// Reads the taps of a document.
///
/// # Errors
///
/// The first rule that a table breaks. `Memory` if an allocation failed.
pub(crate) fn read_taps(
    alloc: Global,
    document: &Table,
    limits: Limits,
) -> Result<Vec<TapSpec>, PlanFault>
    requires links { HasTables (table_view document.now) link_section }
    requires limits { limits ≡ network_limits (table_view document.now) }
    ensures ok { IfOk result (λ taps. AllZip (IsRead (IsTapOf (names_of (table_view document.now) link_section)
        (network_limits (table_view document.now))) tap_keys)
        (rows_of (table_view document.now) tap_section) taps.items) }
    ensures tables { OnOk result (HasTables (table_view document.now) tap_section) }
    ensures err { IfErr result (Refuses (table_view document.now)) }
{
    let tables = rows_of(alloc, document, Section::Tap)?;
    let rows = tables.as_slice();
    let link_names = names_of(alloc, document, Section::Link)?;
    let links = link_names.as_slice();
    let mut taps = Vec::new(alloc);
    for (index, row) in rows.iter().enumerate() {
        let tap = read_tap(alloc, row, index, links, limits)?;
        put(&mut taps, tap)?;
    }
    Ok(taps)
}
