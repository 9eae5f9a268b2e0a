//! The services of a document.

ghost use Rattle.std.specs.Prelude.{◌≡◌, ◌≤◌, ◌⊎◌, ◌==◌, false, codes, length, map, nat_eq, take, IfOk, IfErr, OnOk};
ghost use Rattle.std.specs.Fmt.{decimal};
ghost use Rattle.std.specs.List.{AllZip, IsDistinct, list_any};
ghost use Rattle.toml.specs.View.{table_view};
ghost use Rattle.pb_frame.specs.Admission.{same};
ghost use Rattle.pb_service.specs.Formats.{service_keys};
ghost use Rattle.pb_service.specs.Told.{rows_of};
ghost use Rattle.pb_service.specs.Tables.{is_one_of, text_at, IsServiceOf, IsRead};
ghost use Rattle.pb_service.specs.Refusals.{Refuses, RefusesTable, HasTables, names_of};
ghost use Rattle.pb_service.specs.declared.fault.PlanFault.TheVariants.{Twice as twice_fault, Memory as memory_fault};
ghost use Rattle.pb_service.specs.declared.section.Section.TheVariants.{Service as service_section};

use crate::check::{check_row, put};
use crate::fault::PlanFault;
use crate::section::Section;
use crate::table::tables_at;
use crate::told::{copy_at, number_at};
use pb_frame::Text;
use pb_lan::ServicePlan;
use std::alloc::Global;
use toml::Table;

/// Returns the service that a table describes.
fn service_of(alloc: Global, row: &Table) -> Result<ServicePlan, PlanFault>
    ensures ok { IfOk result (IsServiceOf (table_view row.now)) }
    ensures err { IfErr result (λ e. e ≡ memory_fault) }
{
    Ok(ServicePlan {
        name: copy_at(alloc, row, "name")?,
        vid: number_at(row, "vid", 0, 4094) as u16,
    })
}

/// Returns the service that a table describes, after a check of its keys and of its name against the earlier names.
fn read_service(
    alloc: Global,
    row: &Table,
    names: &[&str],
    index: usize,
) -> Result<ServicePlan, PlanFault>
    requires { index ≤ length names.now }
    ensures ok { IfOk result (IsRead IsServiceOf service_keys (table_view row.now)) }
    ensures new { OnOk result (is_one_of (map (λ n. n.now) (take index names.now))
        (text_at (table_view row.now) (codes "name")) ≡ false) }
    ensures err { IfErr result (RefusesTable service_section (map (λ n. n.now) names.now) index (table_view row.now)) }
{
    check_row(alloc, Section::Service, row, names, index)?;
    service_of(alloc, row)
}

/// Returns whether one of the services has the VID.
fn has_vid(services: &[ServicePlan], vid: u16) -> bool
    ensures { result ≡ list_any (λ s. s.vid == vid) services.now }
{
    for service in services {
        if service.vid == vid {
            return true;
        }
    }
    false
}

/// Returns the fault of two services with one VID.
fn twice(alloc: Global, vid: u16) -> PlanFault
    ensures { (result ≡ memory_fault) ⊎ (result ≡ twice_fault (decimal vid)) }
{
    match format!(in alloc; "{vid}") {
        Ok(text) => PlanFault::Twice(Text::from_string(text)),
        Err(_) => PlanFault::Memory,
    }
}

/// Reads the services of a document.
///
/// # Errors
///
/// The first rule that a table breaks. `Twice` if two services have one name or one VID, `Memory` if an allocation
/// failed.
pub(crate) fn read_services(alloc: Global, document: &Table) -> Result<Vec<ServicePlan>, PlanFault>
    ensures ok { IfOk result (λ services. AllZip (IsRead IsServiceOf service_keys)
        (rows_of (table_view document.now) service_section) services.items) }
    ensures names { OnOk result (IsDistinct same (names_of (table_view document.now) service_section)) }
    ensures vids { IfOk result (λ services. IsDistinct nat_eq (map (λ s. s.vid) services.items)) }
    ensures tables { OnOk result (HasTables (table_view document.now) service_section) }
    ensures err { IfErr result (Refuses (table_view document.now)) }
{
    let (rows, names) = tables_at(alloc, document, Section::Service)?;
    let rows = rows.as_slice();
    let names = names.as_slice();
    let mut services = Vec::new(alloc);
    for (index, row) in rows.iter().enumerate() {
        let service = read_service(alloc, row, names, index)?;
        let earlier = services.as_slice();
        if has_vid(earlier, service.vid) {
            return Err(twice(alloc, service.vid));
        }
        put(&mut services, service)?;
    }
    Ok(services)
}
