//! The reply to `stations`.

ghost use Rattle.std.specs.Option.{option_map};
ghost use Rattle.std.specs.Prelude.{◌≡◌, ◌++◌, List, ℕ, flat_map, string_bytes, OnOk};
ghost use Rattle.pb_names.specs.Names.{bridge_name};
ghost use Rattle.pb_control_socket.specs.Texts.{station_line, station_name, port_and_age, stations_reply};
ghost use Rattle.pb_control_socket.specs.Texts.{IsStationsText};

use crate::board::Board;
use crate::endings::{put_no_answer, put_ok};
use pb_frame::Memory;
use pb_lan::Plan;
use pb_names::bridge_name;
use pb_threads::StationView;
use std::alloc::Global;

/// Appends the end of the line of a station: its port and its age.
///
/// # Errors
///
/// `Memory` if an allocation failed.
fn put_port_and_age(out: &mut String, station: StationView) -> Result<(), Memory>
    ensures { OnOk result (string_bytes out.new ≡ string_bytes out.old ++ port_and_age station) }
{
    let StationView { port, age, .. } = station;
    writeln!(out, " port {port} age {age}")?;
    Ok(())
}

/// Appends the beginning of the line of a station with this address in its text form.
///
/// # Errors
///
/// `Memory` if an allocation failed.
fn put_name(out: &mut String, name: &str, vid: u16, address: &str) -> Result<(), Memory>
    ensures { OnOk result (string_bytes out.new ≡ string_bytes out.old ++ station_name name.now vid address.now) }
{
    write!(out, "station {name} {vid} {address}")?;
    Ok(())
}

/// Appends the line of a station that the bridge of this name has learnt.
///
/// # Errors
///
/// `Memory` if an allocation failed.
fn put_station(
    alloc: Global,
    out: &mut String,
    name: &str,
    station: StationView,
) -> Result<(), Memory>
    ensures { OnOk result (string_bytes out.new ≡ string_bytes out.old ++ station_line name.now station) }
{
    let address = station.address.text(alloc)?;
    put_name(out, name, station.vid, address.as_str())?;
    put_port_and_age(out, station)
}

/// Appends the lines of stations that the bridge of this name has learnt.
///
/// # Errors
///
/// `Memory` if an allocation failed.
fn put_lines(
    alloc: Global,
    out: &mut String,
    name: &str,
    stations: &[StationView],
) -> Result<(), Memory>
    ensures { OnOk result (string_bytes out.new ≡ string_bytes out.old
        ++ flat_map (station_line name.now) stations.now) }
{
    for station in stations {
        put_station(alloc, out, name, *station)?;
    }
    Ok(())
}

/// Appends the whole reply for the stations that the bridge of this name gave, if it did.
///
/// # Errors
///
/// `Memory` if an allocation failed.
fn put_reply(
    alloc: Global,
    out: &mut String,
    name: &str,
    found: Option<Vec<StationView>>,
) -> Result<(), Memory>
    ensures { OnOk result (string_bytes out.new ≡ string_bytes out.old
        ++ stations_reply name.now (option_map (λ list. list.items) found)) }
{
    match found {
        Some(stations) => {
            put_lines(alloc, out, name, stations.as_slice())?;
            put_ok(out)
        }
        None => put_no_answer(out),
    }
}

/// Appends the reply with the stations of the bridge of this number, from 1.
///
/// # Errors
///
/// `Memory` if an allocation failed.
pub(crate) fn put_stations<B: Board>(
    alloc: Global,
    plan: &Plan,
    board: &B,
    bridge: u8,
    out: &mut String,
) -> Result<(), Memory>
    ensures { OnOk result ((text : List ℕ) × (string_bytes out.new ≡ string_bytes out.old ++ text)
        × IsStationsText (bridge_name plan.now bridge) (B.told_stations board.now bridge) text) }
{
    let found = board.stations(bridge);
    put_reply(alloc, out, bridge_name(plan, bridge), found)
}
