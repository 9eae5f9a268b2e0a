//! The bridges of a document.

ghost use Rattle.std.specs.Prelude.{◌≡◌, ◌≤◌, ◌⊎◌, false, codes, length, map, take, IfOk, IfErr, OnOk};
ghost use Rattle.std.specs.List.{AllZip, IsDistinct, list_any};
ghost use Rattle.toml.specs.View.{table_view};
ghost use Rattle.pb_frame.specs.Admission.{same};
ghost use Rattle.pb_frame.specs.Hex.{mac_text};
ghost use Rattle.pb_service.specs.Values.{IsAddress};
ghost use Rattle.pb_service.specs.Formats.{bridge_keys};
ghost use Rattle.pb_service.specs.Told.{rows_of};
ghost use Rattle.pb_service.specs.Tables.{is_one_of, text_at, IsBridgeOf, IsRead};
ghost use Rattle.pb_service.specs.Refusals.{Refuses, RefusesTable, HasTables, names_of};
ghost use Rattle.pb_service.specs.declared.fault.PlanFault.TheVariants.{Twice as twice_fault, Memory as memory_fault};
ghost use Rattle.pb_service.specs.declared.section.Section.TheVariants.{Bridge as bridge_section};

use crate::check::{check_row, put};
use crate::fault::PlanFault;
use crate::section::Section;
use crate::table::tables_at;
use crate::told::{copy_at, number_at, text_at};
use crate::values::station;
use pb_frame::{Mac, Text};
use pb_lan::BridgePlan;
use std::alloc::Global;
use toml::Table;

/// Returns the bridge that a table describes.
fn bridge_of(alloc: Global, row: &Table) -> Result<BridgePlan, PlanFault>
    requires { IsAddress (text_at (table_view row.now) (codes "address")) }
    ensures ok { IfOk result (IsBridgeOf (table_view row.now)) }
    ensures err { IfErr result (λ e. e ≡ memory_fault) }
{
    let address = station(text_at(row, "address")).unwrap();
    Ok(BridgePlan {
        name: copy_at(alloc, row, "name")?,
        address,
        priority: number_at(row, "priority", 32_768, 61_440) as u16,
        queue: number_at(row, "queue", 64, 4096) as u16,
    })
}

/// Returns the bridge that a table describes, after a check of its keys and of its name against the earlier names.
fn read_bridge(
    alloc: Global,
    row: &Table,
    names: &[&str],
    index: usize,
) -> Result<BridgePlan, PlanFault>
    requires { index ≤ length names.now }
    ensures ok { IfOk result (IsRead IsBridgeOf bridge_keys (table_view row.now)) }
    ensures new { OnOk result (is_one_of (map (λ n. n.now) (take index names.now))
        (text_at (table_view row.now) (codes "name")) ≡ false) }
    ensures err { IfErr result (RefusesTable bridge_section (map (λ n. n.now) names.now) index (table_view row.now)) }
{
    check_row(alloc, Section::Bridge, row, names, index)?;
    bridge_of(alloc, row)
}

/// Returns whether one of the bridges has the address.
fn has_address(bridges: &[BridgePlan], address: &Mac) -> bool
    ensures { result ≡ list_any (λ b. same b.address.0 address.now.0) bridges.now }
{
    for bridge in bridges {
        if bridge.address == *address {
            return true;
        }
    }
    false
}

/// Returns the fault of two bridges with one address.
fn twice(alloc: Global, address: &Mac) -> PlanFault
    ensures { (result ≡ memory_fault) ⊎ (result ≡ twice_fault (mac_text address.now.0)) }
{
    match address.text(alloc) {
        Ok(text) => PlanFault::Twice(Text::from_string(text)),
        Err(_) => PlanFault::Memory,
    }
}

/// Reads the bridges of a document.
///
/// # Errors
///
/// The first rule that a table breaks. `Twice` if two bridges have one name or one address, `Memory` if an allocation
/// failed.
pub(crate) fn read_bridges(alloc: Global, document: &Table) -> Result<Vec<BridgePlan>, PlanFault>
    ensures ok { IfOk result (λ bridges. AllZip (IsRead IsBridgeOf bridge_keys)
        (rows_of (table_view document.now) bridge_section) bridges.items) }
    ensures names { OnOk result (IsDistinct same (names_of (table_view document.now) bridge_section)) }
    ensures addresses { IfOk result (λ bridges. IsDistinct same (map (λ b. b.address.0) bridges.items)) }
    ensures tables { OnOk result (HasTables (table_view document.now) bridge_section) }
    ensures err { IfErr result (Refuses (table_view document.now)) }
{
    let (rows, names) = tables_at(alloc, document, Section::Bridge)?;
    let rows = rows.as_slice();
    let names = names.as_slice();
    let mut bridges = Vec::new(alloc);
    for (index, row) in rows.iter().enumerate() {
        let bridge = read_bridge(alloc, row, names, index)?;
        let earlier = bridges.as_slice();
        if has_address(earlier, &bridge.address) {
            return Err(twice(alloc, &bridge.address));
        }
        put(&mut bridges, bridge)?;
    }
    Ok(bridges)
}
