//! The whole starter plan.

ghost use Rattle.std.specs.Prelude.{◌≡◌, ◌≢◌, ◌⊎◌, ◌≤◌, ◌++◌, string_bytes, IfErr, OnOk};
ghost use Rattle.std.specs.Io.KnownBytes.{Appends, Keeps};
ghost use Rattle.pb_cmd_init.specs.PlanTexts.{whole_text, plan_text};

use crate::parts::{put_bridges, put_links};
use crate::ports::put_ports;
use crate::services::{put_services, services_of};
use crate::texts::{put_failures, put_head, put_kinds};
use crate::topology::Topology;
use pb_frame::Memory;
use pb_messages::{CommandFault, write_whole};
use std::alloc::Global;
use std::io::Write;

/// Appends the starter plan to a text.
///
/// # Errors
///
/// `Memory` if an allocation failed. A part of it may follow the text then.
fn put_plan(alloc: Global, out: &mut String, topology: Topology, services: u8) -> Result<(), Memory>
    requires { services ≤ 4 }
    ensures { OnOk result (string_bytes out.new ≡ string_bytes out.old ++ whole_text topology services) }
{
    put_head(out, topology)?;
    put_bridges(alloc, out, topology)?;
    put_links(out, topology)?;
    put_services(out, services)?;
    put_ports(out, topology, services)?;
    put_kinds(out, topology.first_site(), services)?;
    put_failures(out, topology)
}

/// Writes a starter plan by one `write_all`. Its bridges are connected in this topology. It has so many services, 1 to
/// 4 (more are as 4): red, blue, green and yellow. Each has a customer port at each bridge, except the centre of a star
/// and the core of dual-homed bridges. A broadcast enters at the first customer port. Comments describe each part and
/// show each key of a plan file. With the numbers of bridges that [`Topology`] allows, `read_plan` accepts it.
///
/// # Errors
///
/// `Memory` if an allocation for the text failed. Nothing is written then. `Write` if a write failed. Any part of the
/// plan may be written then. No other error is returned.
pub fn write_plan<W: Write>(
    alloc: Global,
    topology: Topology,
    services: u8,
    writer: &mut W,
) -> Result<(), CommandFault>
    ensures ok { OnOk result (Appends (W.contents writer.old) (W.contents writer.new) (plan_text topology services)) }
    ensures kinds { IfErr result (λ e. (e ≡ CommandFault.Write) ⊎ (e ≡ CommandFault.Memory)) }
    ensures none { IfErr result (λ e. e ≢ CommandFault.Write → Keeps (W.contents writer.old) (W.contents writer.new)) }
{
    let mut out = String::new(alloc);
    put_plan(alloc, &mut out, topology, services_of(services))?;
    write_whole(writer, out.as_bytes())
}
