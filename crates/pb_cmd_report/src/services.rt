//! The table of services.

ghost use Rattle.std.specs.Prelude.{◌≡◌, ◌++◌, flat_map, string_bytes, OnOk};
ghost use Rattle.pb_cmd_survive.specs.Reports.{groups_text};
ghost use Rattle.pb_cmd_report.specs.Html.{cell_of};
ghost use Rattle.pb_cmd_report.specs.Tables.{service_cells, service_row};
ghost use Rattle.pb_cmd_report.specs.Words.{tree_text};

use crate::html::{put_cell, put_number_cell};
use crate::words::{health_word, put_tree};
use pb_cmd_survive::{Site, View, put_groups};
use pb_forest::vid_numbered;
use pb_frame::Memory;
use pb_lan::{Plan, Shape};
use pb_names::service_name;
use std::alloc::Global;

/// Appends the cell of a service's customer ports, in groups that reach each other.
fn put_groups_cell(
    alloc: Global,
    out: &mut String,
    plan: &Plan,
    sites: &[Site],
) -> Result<(), Memory>
    ensures { OnOk result (string_bytes out.new ≡ string_bytes out.old
        ++ cell_of (groups_text plan.now sites.now)) }
{
    let mut text = String::new(alloc);
    put_groups(&mut text, plan, sites)?;
    put_cell(out, text.as_str())
}

/// Appends the cell of the links of a service's tree.
fn put_tree_cell(
    alloc: Global,
    out: &mut String,
    plan: &Plan,
    shape: &Shape,
    service: u8,
) -> Result<(), Memory>
    ensures { OnOk result (string_bytes out.new ≡ string_bytes out.old
        ++ cell_of (tree_text plan.now shape.now service)) }
{
    let mut text = String::new(alloc);
    put_tree(&mut text, plan, shape, service)?;
    put_cell(out, text.as_str())
}

/// Appends the cells of a service.
fn put_service_cells(
    alloc: Global,
    out: &mut String,
    plan: &Plan,
    shape: &Shape,
    view: &View,
) -> Result<(), Memory>
    ensures { OnOk result (string_bytes out.new ≡ string_bytes out.old
        ++ service_cells plan.now shape.now view.now) }
{
    put_cell(out, service_name(plan, view.service))?;
    put_number_cell(out, vid_numbered(plan, view.service) as u32)?;
    put_groups_cell(alloc, out, plan, view.sites.as_slice())?;
    put_tree_cell(alloc, out, plan, shape, view.service)?;
    put_cell(out, health_word(view))
}

/// Appends the row of a service.
fn put_service_row(
    alloc: Global,
    out: &mut String,
    plan: &Plan,
    shape: &Shape,
    view: &View,
) -> Result<(), Memory>
    ensures { OnOk result (string_bytes out.new ≡ string_bytes out.old
        ++ service_row plan.now shape.now view.now) }
{
    out.push_str("<tr>")?;
    put_service_cells(alloc, out, plan, shape, view)?;
    out.push_str("</tr>\n")?;
    Ok(())
}

/// Appends the rows of the services.
pub(crate) fn put_service_rows(
    alloc: Global,
    out: &mut String,
    plan: &Plan,
    shape: &Shape,
    views: &[View],
) -> Result<(), Memory>
    ensures { OnOk result (string_bytes out.new ≡ string_bytes out.old
        ++ flat_map (service_row plan.now shape.now) views.now) }
{
    for view in views {
        put_service_row(alloc, out, plan, shape, view)?;
    }
    Ok(())
}
