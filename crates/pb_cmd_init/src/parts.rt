//! The bridges of a starter plan, and the links between them.

ghost use Rattle.std.specs.Prelude.{◌≡◌, ◌+◌, ◌≤◌, ◌++◌, flat_map, string_bytes, OnOk};
ghost use Rattle.std.specs.List.{range_with_len};
ghost use Rattle.pb_cmd_init.specs.PlanTexts.{bridge_text, bridge_keys, link_text, link_keys};
ghost use Rattle.pb_cmd_init.specs.Topologies.{bridge_count, link_count};

use crate::topology::{Ends, Topology};
use pb_frame::{Mac, Memory};
use std::alloc::Global;

/// The further keys of the first bridge.
const BRIDGE_KEYS: &str = "\
# The priority (the bridge with the least is the root of the tree), and the frames that wait at a port:\n\
#priority = 32768\n\
#queue = 64\n";

/// The further keys of the first link.
const LINK_KEYS: &str = "\
# Of each end: path cost, port priority, state without RSTP, and services (default: all).\n\
#a_cost = 20000\n\
#b_cost = 20000\n\
#a_priority = 128\n\
#b_priority = 128\n\
#a_state = \"forwarding\"\n\
#b_state = \"forwarding\"\n\
#a_services = [\"red\"]\n\
#b_services = [\"red\"]\n\
# Of both ends, in place of those keys of an end:\n\
#cost = 20000\n\
#services = [\"red\"]\n\
# The numbers of the frames that the link loses from a to b, and back. The first frame has number 0.\n\
#lost_ab = [0]\n\
#lost_ba = [2, 3]\n";

/// Returns the further keys of a bridge: those of the first, else nothing.
fn bridge_keys(bridge: u8) -> &'static str
    ensures { result.now ≡ bridge_keys bridge }
{
    if bridge == 1 { BRIDGE_KEYS } else { "" }
}

/// Returns the further keys of a link: those of the first, else nothing.
fn link_keys(link: u8) -> &'static str
    ensures { result.now ≡ link_keys link }
{
    if link == 1 { LINK_KEYS } else { "" }
}

/// Appends a bridge to a text. Its address ends in its number.
///
/// # Errors
///
/// `Memory` if an allocation failed. A part of it may follow the text then.
fn put_bridge(alloc: Global, out: &mut String, bridge: u8) -> Result<(), Memory>
    ensures { OnOk result (string_bytes out.new ≡ string_bytes out.old ++ bridge_text bridge) }
{
    let address = Mac([2, 0, 0, 0, 0, bridge]).text(alloc)?;
    let further = bridge_keys(bridge);
    write!(
        out,
        "\n[[bridge]]\nname = \"B{bridge}\"\naddress = \"{address}\"\n{further}"
    )?;
    Ok(())
}

/// Appends all bridges to a text.
///
/// # Errors
///
/// `Memory` if an allocation failed. A part of them may follow the text then.
pub(crate) fn put_bridges(alloc: Global, out: &mut String, topology: Topology) -> Result<(), Memory>
    ensures { OnOk result (string_bytes out.new ≡ string_bytes out.old
        ++ flat_map bridge_text (range_with_len 1 (bridge_count topology))) }
{
    for before in 0..topology.bridges() {
        put_bridge(alloc, out, before + 1)?;
    }
    Ok(())
}

/// Appends a link to a text.
///
/// # Errors
///
/// `Memory` if an allocation failed. A part of it may follow the text then.
fn put_link(out: &mut String, topology: Topology, link: u8) -> Result<(), Memory>
    requires { link ≤ link_count topology }
    ensures { OnOk result (string_bytes out.new ≡ string_bytes out.old ++ link_text topology link) }
{
    let Ends {
        a,
        a_port,
        b,
        b_port,
    } = topology.ends(link);
    let further = link_keys(link);
    write!(
        out,
        "\n[[link]]\nname = \"L{link}\"\na = \"B{a}\"\na_port = {a_port}\nb = \"B{b}\"\nb_port = {b_port}\n{further}"
    )?;
    Ok(())
}

/// Appends all links to a text.
///
/// # Errors
///
/// `Memory` if an allocation failed. A part of them may follow the text then.
pub(crate) fn put_links(out: &mut String, topology: Topology) -> Result<(), Memory>
    ensures { OnOk result (string_bytes out.new ≡ string_bytes out.old
        ++ flat_map (link_text topology) (range_with_len 1 (link_count topology))) }
{
    for before in 0..topology.links() {
        put_link(out, topology, before + 1)?;
    }
    Ok(())
}
