//! Names and costs in the lines of a tree.

ghost use Rattle.std.specs.Prelude.{◌≡◌, ◌++◌, string_bytes, OnOk};
ghost use Rattle.pb_cmd_tree.specs.Names.{id_name, cost_at, link_name_at, path_cost_at};

use pb_frame::Memory;
use pb_lan::Plan;
use pb_names::{bridge_id, is_end_at, link_at};

/// Appends the name of the bridge with an identifier (IEEE 802.1D-2004 clause 9.2.5), or the identifier in decimal if
/// no bridge of the plan has it.
///
/// # Errors
///
/// `Memory` if an allocation failed.
pub fn put_id(out: &mut String, plan: &Plan, id: u64) -> Result<(), Memory>
    ensures { OnOk result (string_bytes out.new ≡ string_bytes out.old ++ id_name plan.now id) }
{
    for bridge in plan.bridges.as_slice() {
        if bridge_id(bridge.priority, bridge.address) == id {
            out.push_str(bridge.name.as_str())?;
            return Ok(());
        }
    }
    write!(out, "{id}")?;
    Ok(())
}

/// Returns the name of the link at a bridge's local port, both from 1, or an empty text if no link is there.
pub fn link_name_at(plan: &Plan, bridge: u8, port: u8) -> &str
    ensures { result.now ≡ link_name_at plan.now bridge port }
{
    match link_at(plan, bridge, port) {
        Some(link) => link.name.as_str(),
        None => "",
    }
}

/// Returns the path cost of a bridge's local port, both from 1, or 0 if no link is there.
pub fn path_cost_at(plan: &Plan, bridge: u8, port: u8) -> u32
    ensures { result ≡ path_cost_at plan.now bridge port }
{
    match link_at(plan, bridge, port) {
        Some(link) if is_end_at(bridge, port, &link.a) => link.a.cost,
        Some(link) => link.b.cost,
        None => 0,
    }
}
