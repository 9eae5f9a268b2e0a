//! The customer ports of a document.

ghost use Rattle.std.specs.Prelude.{◌≡◌, ◌<◌, true, codes, length, map, IfOk, IfErr, OnOk, if◌then◌else◌};
ghost use Rattle.std.specs.List.{AllZip, IsDistinct, flat_map};
ghost use Rattle.toml.specs.View.{items_view, table_view};
ghost use Rattle.pb_frame.specs.Admission.{same};
ghost use Rattle.pb_frame.specs.Hex.{IsHex};
ghost use Rattle.pb_service.specs.Values.{all_items, is_text, is_hex};
ghost use Rattle.pb_service.specs.Keys.{IsAccepted};
ghost use Rattle.pb_service.specs.Formats.{port_keys, is_bare};
ghost use Rattle.pb_service.specs.Clocks.{lacks_time, lacks_clock};
ghost use Rattle.pb_service.specs.Told.{has_key, rows_of};
ghost use Rattle.pb_service.specs.Tables.{has_kind, AreFrames, IsStampOf, IsPaceOf, IsPortSpecOf, IsCustomerOf};
ghost use Rattle.pb_service.specs.Tables.{IsReadPort, text_at, has_vain_speed, pace_of};
ghost use Rattle.pb_service.specs.UsedPorts.{AreUsedOnce};
ghost use Rattle.pb_service.specs.Refusals.{Refuses, RefusesStamp, RefusesPace, RefusesFiles, RefusesPort};
ghost use Rattle.pb_service.specs.Refusals.{HasTables, CustomerLacks};
ghost use Rattle.pb_service.specs.Refusals.{names_of, network_limits, link_ports, ports_told};
ghost use Rattle.pb_service.specs.declared.fault.PlanFault.TheVariants.{Memory as memory_fault};
ghost use Rattle.pb_service.specs.declared.section.Section.TheVariants.{Bridge as bridge_section, Link as link_section};
ghost use Rattle.pb_service.specs.declared.section.Section.TheVariants.{Service as service_section};
ghost use Rattle.pb_service.specs.declared.section.Section.TheVariants.{Port as port_section};

use crate::check::{check_row, put};
use crate::fault::PlanFault;
use crate::key_fault::KeyFault;
use crate::link::named;
use crate::port_spec::{Pace, PortSpec, Stamp};
use crate::row::told;
use crate::section::{KeyTable, Section};
use crate::table::{names_of, tables_at};
use crate::told::{copy_at, flag_at, framing_at, has_key, items_at, number_at, stamp_of, text_at};
use crate::udp::{addresses_of, network_of};
use crate::used::{LocalPort, use_port};
use crate::values::text_in;
use bytes::Bytes;
use pb_frame::{HexFault, Seq, Text, hex_read};
use pb_lan::{CustomerPlan, Limits};
use std::alloc::Global;
use toml::{Table, Value};

/// Returns the frame of a hexadecimal text.
fn frame_of(alloc: Global, text: &str) -> Result<Bytes, PlanFault>
    requires { is_hex text.now ≡ true }
    ensures ok { IfOk result (IsHex text.now) }
    ensures err { IfErr result (λ e. e ≡ memory_fault) }
{
    match hex_read(alloc, text) {
        Ok(frame) => Ok(frame),
        Err(HexFault::Memory) => Err(PlanFault::Memory),
        Err(HexFault::Digit) => unreachable!(),
        Err(HexFault::Odd) => unreachable!(),
    }
}

/// Returns the frames of a list of hexadecimal texts.
fn frames_of(alloc: Global, items: &[Value]) -> Result<Vec<Bytes>, PlanFault>
    requires { all_items (is_text is_hex) (items_view items.now) ≡ true }
    ensures ok { IfOk result (λ frames. AreFrames (items_view items.now) frames.items) }
    ensures err { IfErr result (λ e. e ≡ memory_fault) }
{
    let mut frames = Vec::with_capacity(alloc, items.len())?;
    for item in items {
        frames.push(frame_of(alloc, text_in(item))?)?;
    }
    Ok(frames)
}

/// Returns whether records are to have the time of day although no clock ticks by time.
pub(crate) fn lacks_time(limits: Limits, stamp: &str) -> bool
    ensures { result ≡ lacks_time limits stamp.now }
{
    stamp == "time" && limits.tick_ms == 0
}

/// Returns the time stamp of the records that a port writes, from its table.
///
/// # Errors
///
/// `Range` if records are to have the time of day and no clock ticks by time, `Memory` if an allocation failed.
fn stamp_in(alloc: Global, limits: Limits, row: &Table, index: usize) -> Result<Stamp, PlanFault>
    ensures ok { IfOk result (IsStampOf limits (table_view row.now)) }
    ensures err { IfErr result (RefusesStamp limits index (table_view row.now)) }
{
    let stamp = text_at(row, "stamp");
    if lacks_time(limits, stamp) {
        let key_table = KeyTable::Row(Section::Port, index);
        return Err(told(alloc, key_table, "stamp", KeyFault::Range));
    }
    Ok(stamp_of(stamp))
}

/// Returns whether frames are to enter by the times of their records although no clock ticks by time.
fn lacks_clock(limits: Limits, replays: bool) -> bool
    ensures { result ≡ lacks_clock limits replays }
{
    replays && limits.tick_ms == 0
}

/// Returns whether a table has a speed although no frames enter by the times of their records.
fn has_vain_speed(row: &Table) -> bool
    ensures { result ≡ has_vain_speed (table_view row.now) }
{
    has_key(row, "speed") && !has_key(row, "replay")
}

/// Returns the pace at which the frames of a capture enter.
fn pace_of(row: &Table) -> Pace
    ensures { result ≡ pace_of (table_view row.now) }
{
    if has_key(row, "replay") {
        Pace::Times(number_at(row, "speed", 1, 1000) as u16)
    } else {
        Pace::AtOnce
    }
}

/// Returns the pace at which the frames of a port's capture enter, from its table.
///
/// # Errors
///
/// `Range` if frames are to enter by the times of their records and no clock ticks by time, or there is a speed without
/// that, `Memory` if an allocation failed.
fn pace_in(alloc: Global, limits: Limits, row: &Table, index: usize) -> Result<Pace, PlanFault>
    ensures ok { IfOk result (IsPaceOf limits (table_view row.now)) }
    ensures err { IfErr result (RefusesPace limits index (table_view row.now)) }
{
    let key_table = KeyTable::Row(Section::Port, index);
    if lacks_clock(limits, has_key(row, "replay")) {
        return Err(told(alloc, key_table, "replay", KeyFault::Range));
    }
    if has_vain_speed(row) {
        return Err(told(alloc, key_table, "speed", KeyFault::Range));
    }
    Ok(pace_of(row))
}

/// Returns the port over two capture files that a table describes.
///
/// # Errors
///
/// `Range` if its stamp or its pace needs a clock that ticks by time and none does, or there is a speed without a pace
/// by times, `Memory` if an allocation failed.
fn capture_of(
    alloc: Global,
    limits: Limits,
    row: &Table,
    index: usize,
) -> Result<PortSpec, PlanFault>
    requires { has_kind (table_view row.now) (codes "capture") ≡ true }
    ensures ok { IfOk result (IsPortSpecOf limits (table_view row.now)) }
    ensures err { IfErr result (RefusesFiles limits index (table_view row.now)) }
{
    let pace = pace_in(alloc, limits, row, index)?;
    let stamp = stamp_in(alloc, limits, row, index)?;
    let read = copy_at(alloc, row, "read")?;
    let write = copy_at(alloc, row, "write")?;
    Ok(PortSpec::Capture {
        read,
        pace,
        write,
        stamp,
    })
}

/// Returns the port over a capture file to read that a table describes.
///
/// # Errors
///
/// `Range` if its pace needs a clock that ticks by time and none does, or there is a speed without a pace by times,
/// `Memory` if an allocation failed.
fn replay_of(
    alloc: Global,
    limits: Limits,
    row: &Table,
    index: usize,
) -> Result<PortSpec, PlanFault>
    requires { has_kind (table_view row.now) (codes "replay") ≡ true }
    ensures ok { IfOk result (IsPortSpecOf limits (table_view row.now)) }
    ensures err { IfErr result (RefusesPace limits index (table_view row.now)) }
{
    let pace = pace_in(alloc, limits, row, index)?;
    let read = copy_at(alloc, row, "read")?;
    Ok(PortSpec::Replay { read, pace })
}

/// Returns the port over a capture file to write that a table describes.
///
/// # Errors
///
/// `Range` if records are to have the time of day and no clock ticks by time, `Memory` if an allocation failed.
fn record_of(
    alloc: Global,
    limits: Limits,
    row: &Table,
    index: usize,
) -> Result<PortSpec, PlanFault>
    requires { has_kind (table_view row.now) (codes "record") ≡ true }
    ensures ok { IfOk result (IsPortSpecOf limits (table_view row.now)) }
    ensures err { IfErr result (RefusesStamp limits index (table_view row.now)) }
{
    let stamp = stamp_in(alloc, limits, row, index)?;
    let write = copy_at(alloc, row, "write")?;
    Ok(PortSpec::Record { write, stamp })
}

/// Returns the path of a socket: that at which the port listens, or that to which it connects.
fn socket_path(alloc: Global, row: &Table, listens: bool) -> Result<Text, PlanFault>
    ensures ok { IfOk result (λ path. path ≡ text_at (table_view row.now)
        (if listens then codes "listen" else codes "path")) }
    ensures err { IfErr result (λ e. e ≡ memory_fault) }
{
    if listens {
        copy_at(alloc, row, "listen")
    } else {
        copy_at(alloc, row, "path")
    }
}

/// Returns the kind of customer port that a table describes, with its frames, paths or addresses.
///
/// # Errors
///
/// `Range` if its stamp or its pace needs a clock that ticks by time and none does, there is a speed without a pace by
/// times, or its addresses are of different families. `Memory` if an allocation failed.
fn port_spec_of(
    alloc: Global,
    limits: Limits,
    row: &Table,
    index: usize,
) -> Result<PortSpec, PlanFault>
    requires { IsAccepted (port_keys (text_at (table_view row.now) (codes "kind"))
        (has_key (table_view row.now) (codes "listen")) (is_bare (table_view row.now))) (table_view row.now) }
    ensures ok { IfOk result (IsPortSpecOf limits (table_view row.now)) }
    ensures err { IfErr result (RefusesPort limits index (table_view row.now)) }
{
    let kind = text_at(row, "kind");
    if kind == "capture" {
        return capture_of(alloc, limits, row, index);
    }
    if kind == "record" {
        return record_of(alloc, limits, row, index);
    }
    if kind == "replay" {
        return replay_of(alloc, limits, row, index);
    }
    if kind == "socket" {
        let listens = has_key(row, "listen");
        let path = socket_path(alloc, row, listens)?;
        return Ok(PortSpec::Socket {
            path,
            listens,
            stays: flag_at(row, "stay"),
            framing: framing_at(row, "framing"),
        });
    }
    if kind == "udp" {
        let (local, remote) = addresses_of(alloc, row, index)?;
        let network = network_of(row);
        return Ok(PortSpec::Udp {
            local,
            remote,
            network,
        });
    }
    let frames = frames_of(alloc, items_at(row, "in"))?;
    Ok(PortSpec::Memory(Seq::from_vec(frames)))
}

/// Returns the customer port that a table describes.
///
/// # Errors
///
/// `NoSuch` if no bridge or no service has the name given, `Memory` if an allocation failed.
fn customer_of(
    alloc: Global,
    row: &Table,
    bridges: &[&str],
    services: &[&str],
) -> Result<CustomerPlan, PlanFault>
    requires bridges { length bridges.now < 256 }
    requires services { length services.now < 256 }
    ensures ok { IfOk result (IsCustomerOf (map (λ n. n.now) bridges.now) (map (λ n. n.now) services.now)
        (table_view row.now)) }
    ensures err { IfErr result (CustomerLacks (map (λ n. n.now) bridges.now) (map (λ n. n.now) services.now)
        (table_view row.now)) }
{
    let bridge = named(alloc, row, "bridge", bridges)?;
    let service = named(alloc, row, "service", services)?;
    Ok(CustomerPlan {
        name: copy_at(alloc, row, "name")?,
        bridge,
        port: number_at(row, "port", 0, 16) as u8,
        service,
        pcp: number_at(row, "pcp", 0, 7) as u8,
        queue: number_at(row, "queue", 64, 4096) as u16,
    })
}

/// The customer ports of a document, and the kind of each.
#[derive(Drop)]
pub(crate) struct Customers {
    pub customers: Vec<CustomerPlan>,
    pub specs: Vec<PortSpec>,
}

/// Reads the customer ports of a document, and the kind of each.
///
/// `used` holds the local ports at which links end. The ports are added to it one by one.
///
/// # Errors
///
/// The first rule that a table breaks. `LinkEnd` if a local port is used already, `Memory` if an allocation failed.
pub(crate) fn read_customers(
    alloc: Global,
    document: &Table,
    limits: Limits,
    used: Vec<LocalPort>,
) -> Result<Customers, PlanFault>
    requires document { (limits ≡ network_limits (table_view document.now))
        × HasTables (table_view document.now) bridge_section × HasTables (table_view document.now) service_section }
    requires used { (used.items ≡ flat_map (link_ports (names_of (table_view document.now) bridge_section))
        (rows_of (table_view document.now) link_section)) × AreUsedOnce used.items }
    ensures ok { IfOk result (λ r. AllZip (IsReadPort (IsCustomerOf (names_of (table_view document.now) bridge_section)
        (names_of (table_view document.now) service_section)))
        (rows_of (table_view document.now) port_section) r.customers.items) }
    ensures specs { IfOk result (λ r. AllZip (IsPortSpecOf (network_limits (table_view document.now)))
        (rows_of (table_view document.now) port_section) r.specs.items) }
    ensures names { OnOk result (IsDistinct same (names_of (table_view document.now) port_section)) }
    ensures once { OnOk result (AreUsedOnce (ports_told (table_view document.now))) }
    ensures tables { OnOk result (HasTables (table_view document.now) port_section) }
    ensures err { IfErr result (Refuses (table_view document.now)) }
{
    let (rows, names) = tables_at(alloc, document, Section::Port)?;
    let rows = rows.as_slice();
    let names = names.as_slice();
    let bridge_names = names_of(alloc, document, Section::Bridge)?;
    let bridges = bridge_names.as_slice();
    let service_names = names_of(alloc, document, Section::Service)?;
    let services = service_names.as_slice();
    let mut used = used;
    let mut customers = Vec::new(alloc);
    let mut specs = Vec::new(alloc);
    for (index, row) in rows.iter().enumerate() {
        check_row(alloc, Section::Port, row, names, index)?;
        let customer = customer_of(alloc, row, bridges, services)?;
        use_port(
            &mut used,
            LocalPort {
                bridge: customer.bridge,
                port: customer.port,
            },
        )?;
        put(&mut customers, customer)?;
        let spec = port_spec_of(alloc, limits, row, index)?;
        put(&mut specs, spec)?;
    }
    Ok(Customers { customers, specs })
}
