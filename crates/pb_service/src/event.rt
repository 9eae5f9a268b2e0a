//! The events of a document: ports that are disabled and enabled during a run.

ghost use Rattle.std.specs.Prelude.{◌≡◌, ◌<◌, ◌⊎◌, length, map, IfOk, IfErr, OnOk};
ghost use Rattle.std.specs.List.{AllZip};
ghost use Rattle.toml.specs.View.{table_view};
ghost use Rattle.pb_service.specs.Events.{IsEventOf};
ghost use Rattle.pb_service.specs.Formats.{event_keys};
ghost use Rattle.pb_service.specs.Refusals.{Refuses, RefusesEvent, HasTables, ends_told, names_of};
ghost use Rattle.pb_service.specs.Tables.{IsRead};
ghost use Rattle.pb_service.specs.Told.{rows_of};
ghost use Rattle.pb_service.specs.declared.section.Section.TheVariants.{Bridge as bridge_section};
ghost use Rattle.pb_service.specs.declared.section.Section.TheVariants.{Event as event_section};

use crate::check::put;
use crate::fault::PlanFault;
use crate::formats::keys_of;
use crate::key_fault::KeyFault;
use crate::link::named;
use crate::row::{check_keys, told};
use crate::section::{KeyTable, Section};
use crate::table::{names_of, rows_of};
use crate::told::{flag_at, number_at};
use crate::used::{LocalPort, is_used};
use std::alloc::Global;
use toml::Table;

/// An event that disables or enables a port to another bridge during a run.
#[derive(Clone, Copy, PartialEq, Eq, Debug)]
pub struct PortEvent {
    /// The number of ticks of the bridge's clock from which the event is due.
    pub at: u32,
    /// The bridge, by its number in the plan from 1.
    pub bridge: u8,
    /// Its local port, 1 to 16.
    pub port: u8,
    /// Whether the event enables the port. Otherwise it disables it.
    pub up: bool,
}

/// Returns the event that a table describes.
///
/// # Errors
///
/// The first rule of its keys that the table breaks. `NoSuch` if no bridge has the name given, `Range` if no link ends
/// at the port, `Memory` if an allocation failed.
fn read_event(
    alloc: Global,
    row: &Table,
    index: usize,
    bridges: &[&str],
    ends: &[LocalPort],
) -> Result<PortEvent, PlanFault>
    requires { length bridges.now < 256 }
    ensures ok { IfOk result (IsRead (IsEventOf (map (λ n. n.now) bridges.now) ends.now) event_keys
        (table_view row.now)) }
    ensures err { IfErr result (RefusesEvent (map (λ n. n.now) bridges.now) ends.now index (table_view row.now)) }
{
    let key_table = KeyTable::Row(Section::Event, index);
    check_keys(alloc, key_table, keys_of(Section::Event, row), row)?;
    let bridge = named(alloc, row, "bridge", bridges)?;
    let port = number_at(row, "port", 0, 16) as u8;
    if !is_used(ends, LocalPort { bridge, port }) {
        return Err(told(alloc, key_table, "port", KeyFault::Range));
    }
    Ok(PortEvent {
        at: number_at(row, "at", 0, 4_294_967_295) as u32,
        bridge,
        port,
        up: flag_at(row, "up"),
    })
}

/// Reads the events of a document. `ends` are the local ports at which its links end.
///
/// # Errors
///
/// The first rule that a table breaks. `Memory` if an allocation failed.
pub(crate) fn read_events(
    alloc: Global,
    document: &Table,
    ends: &[LocalPort],
) -> Result<Vec<PortEvent>, PlanFault>
    requires bridges { HasTables (table_view document.now) bridge_section }
    requires ends { ends.now ≡ ends_told (table_view document.now) }
    ensures ok { IfOk result (λ events. AllZip (IsRead (IsEventOf (names_of (table_view document.now) bridge_section)
        (ends_told (table_view document.now))) event_keys)
        (rows_of (table_view document.now) event_section) events.items) }
    ensures tables { OnOk result (HasTables (table_view document.now) event_section) }
    ensures err { IfErr result (Refuses (table_view document.now)) }
{
    let tables = rows_of(alloc, document, Section::Event)?;
    let rows = tables.as_slice();
    let bridge_names = names_of(alloc, document, Section::Bridge)?;
    let bridges = bridge_names.as_slice();
    let mut events = Vec::new(alloc);
    for (index, row) in rows.iter().enumerate() {
        let event = read_event(alloc, row, index, bridges, ends)?;
        put(&mut events, event)?;
    }
    Ok(events)
}
