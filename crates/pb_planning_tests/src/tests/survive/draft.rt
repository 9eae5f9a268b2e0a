//! Plan files of networks in a short notation.

use std::alloc::{AllocError, Global};

/// A port of a bridge: the numbers of the bridge and of the port.
pub(super) type At = (u8, u8);

/// A link between two ports, with further keys of its table.
pub(super) struct Wire<'a>(pub(super) At, pub(super) At, pub(super) &'a str);

/// A customer port at a bridge's port, with its service.
pub(super) struct Stub<'a>(pub(super) At, pub(super) &'a str);

/// A network: bridges from `B1` on, links from `L1` on, the services `red` and `blue`, customer ports from `C1` on.
pub(super) struct Draft<'a> {
    /// The keys of the table `network`.
    pub(super) network: &'a str,
    /// The number of bridges.
    pub(super) bridges: u8,
    /// The links.
    pub(super) wires: &'a [Wire<'a>],
    /// The customer ports.
    pub(super) stubs: &'a [Stub<'a>],
}

/// The services.
const SERVICES: &str = "\
[[service]]\nname = \"red\"\nvid = 100\n\
[[service]]\nname = \"blue\"\nvid = 200\n";

/// Appends a bridge.
fn put_bridge(out: &mut String, number: u8) -> Result<(), AllocError> {
    writeln!(
        out,
        "[[bridge]]\nname = \"B{number}\"\naddress = \"02-00-00-00-00-{number:02x}\""
    )
}

/// Appends a link.
fn put_wire(out: &mut String, number: usize, wire: &Wire<'_>) -> Result<(), AllocError> {
    let Wire((a, a_port), (b, b_port), keys) = wire;
    writeln!(
        out,
        "[[link]]\nname = \"L{number}\"\na = \"B{a}\"\na_port = {a_port}\nb = \"B{b}\"\nb_port = {b_port}\n{keys}"
    )
}

/// Appends a customer port.
fn put_stub(out: &mut String, number: usize, stub: &Stub<'_>) -> Result<(), AllocError> {
    let Stub((bridge, port), service) = stub;
    writeln!(
        out,
        "[[port]]\nname = \"C{number}\"\nbridge = \"B{bridge}\"\nport = {port}\nservice = \"{service}\""
    )
}

/// Returns the plan file of a network.
pub(super) fn plan_file(alloc: Global, draft: &Draft<'_>) -> Result<String, AllocError> {
    let mut out = String::new(alloc);
    writeln!(out, "[network]\n{}", draft.network)?;
    for before in 0..draft.bridges {
        put_bridge(&mut out, before.saturating_add(1))?;
    }
    for (before, wire) in draft.wires.iter().enumerate() {
        put_wire(&mut out, before.saturating_add(1), wire)?;
    }
    out.push_str(SERVICES)?;
    for (before, stub) in draft.stubs.iter().enumerate() {
        put_stub(&mut out, before.saturating_add(1), stub)?;
    }
    Ok(out)
}
