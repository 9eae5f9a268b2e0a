//! Runs with ample memory, of bridges with priority 32768 and the addresses 02-00-00-00-00-01 and on.

mod alone;
mod prompt;
mod refused;
mod rings;
mod settling;
mod two;
mod walk;

ghost use Rattle.std.specs.Prelude.{◌≡◌, IfOk};
ghost use Rattle.pb_rstp.specs.Readings.{AreAbove};

use pb_bpdu::{Bpdu, read, write};
use pb_frame::{Mac, Memory, Seq};
use pb_rstp::{
    Change, Config, Rstp, RstpPort, calls_keep_bridges, calls_keep_line, changes_lead_on,
    cost_rises, planned_are_machines, settled_is_forest, start_is_in_line, test_tells,
};
use std::alloc::Global;
use std::test::Fail;

/// The BPDU of the first bridge on its port 1, with the flags that propose.
const PROPOSAL: [u8; 53] = [
    0x01, 0x80, 0xc2, 0x00, 0x00, 0x08, 0x02, 0x00, 0x00, 0x00, 0x00, 0x01, 0x00, 0x27, 0x42, 0x42,
    0x03, 0x00, 0x00, 0x02, 0x02, 0x0e, 0x80, 0x00, 0x02, 0x00, 0x00, 0x00, 0x00, 0x01, 0x00, 0x00,
    0x00, 0x00, 0x80, 0x00, 0x02, 0x00, 0x00, 0x00, 0x00, 0x01, 0x80, 0x01, 0x00, 0x00, 0x14, 0x00,
    0x02, 0x00, 0x0f, 0x00, 0x00,
];

/// Returns that BPDU with other flags.
fn first_with(flags: u8) -> [u8; 53] {
    let mut frame = PROPOSAL;
    frame[21] = flags;
    frame
}

/// Returns a port with the usual cost and priority.
fn port(number: u8) -> RstpPort
    ensures { result.port ≡ number }
{
    RstpPort {
        port: number,
        cost: 20_000,
        priority: 128,
    }
}

/// Returns the address that ends in this octet.
fn address(last: u8) -> Mac {
    Mac([2, 0, 0, 0, 0, last])
}

/// Returns the configuration of the bridge with the address that ends in this octet.
fn config(alloc: Global, last: u8, ports: &[RstpPort]) -> Result<Config, Memory>
    ensures { IfOk result (λ config. config.ports ≡ ports.now) }
{
    Ok(Config {
        address: address(last),
        priority: 32768,
        ports: Seq::from_vec(Vec::from_slice(alloc, ports)?),
    })
}

/// Returns the bridge with the address that ends in this octet.
fn bridge(alloc: Global, last: u8, ports: &[RstpPort]) -> Result<Rstp, Memory>
    requires { AreAbove 0 ports.now }
{
    Rstp::new(alloc, config(alloc, last, ports)?)
}

/// Returns a bridge with port 1.
fn with_one_port(alloc: Global, last: u8) -> Result<Rstp, Memory> {
    bridge(alloc, last, &[port(1)])
}

/// Returns a bridge with ports 1 and 2.
fn with_two_ports(alloc: Global, last: u8) -> Result<Rstp, Memory> {
    bridge(alloc, last, &[port(1), port(2)])
}

/// Returns a prompt bridge with ports 1 and 2.
fn prompt_with_two_ports(alloc: Global, last: u8) -> Result<Rstp, Memory> {
    Rstp::prompt(alloc, config(alloc, last, &[port(1), port(2)])?)
}

/// Checks whether the bridge with this address sends exactly this frame, on port 1.
fn sends(alloc: Global, change: &Change, last: u8, frame: &[u8]) -> Result<bool, Memory> {
    match change.send.as_slice() {
        [(number, m)] => {
            let written = write(alloc, address(last), m)?;
            Ok(*number == 1 && written.as_slice() == frame)
        }
        _ => Ok(false),
    }
}

/// Returns the BPDU in a frame.
fn heard(frame: &[u8]) -> Result<Bpdu, Fail> {
    Ok(read(frame)?)
}

#[test]
fn laws_stand() {
    start_is_in_line();
    calls_keep_line();
    calls_keep_bridges();
    changes_lead_on();
    planned_are_machines();
    settled_is_forest();
    cost_rises();
    test_tells();
}
