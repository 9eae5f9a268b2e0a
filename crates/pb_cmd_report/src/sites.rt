//! The table of sites.

ghost use Rattle.std.specs.Prelude.{◌≡◌, ◌++◌, flat_map, string_bytes, OnOk};
ghost use Rattle.pb_cmd_report.specs.Tables.{site_cells, site_row};

use crate::html::{put_cell, put_number_cell};
use pb_frame::Memory;
use pb_lan::{CustomerPlan, Plan};
use pb_names::{bridge_name, service_name};

/// Appends the cells of a customer port.
fn put_site_cells(out: &mut String, plan: &Plan, site: &CustomerPlan) -> Result<(), Memory>
    ensures { OnOk result (string_bytes out.new ≡ string_bytes out.old ++ site_cells plan.now site.now) }
{
    put_cell(out, site.name.as_str())?;
    put_cell(out, service_name(plan, site.service))?;
    put_cell(out, bridge_name(plan, site.bridge))?;
    put_number_cell(out, site.port as u32)
}

/// Appends the row of a customer port.
fn put_site_row(out: &mut String, plan: &Plan, site: &CustomerPlan) -> Result<(), Memory>
    ensures { OnOk result (string_bytes out.new ≡ string_bytes out.old ++ site_row plan.now site.now) }
{
    out.push_str("<tr>")?;
    put_site_cells(out, plan, site)?;
    out.push_str("</tr>\n")?;
    Ok(())
}

/// Appends the rows of the customer ports, in the plan's order.
pub(crate) fn put_site_rows(out: &mut String, plan: &Plan) -> Result<(), Memory>
    ensures { OnOk result (string_bytes out.new ≡ string_bytes out.old
        ++ flat_map (site_row plan.now) plan.now.customers) }
{
    for site in plan.customers.as_slice() {
        put_site_row(out, plan, site)?;
    }
    Ok(())
}
