//! Names in the order of their octets.

use super::plans::unordered;
use pb_step_script::{bridges_by_name, links_by_name, ports_by_name};
use std::test::Fail;

/// Returns whether these are the wanted names and numbers.
fn are(names: &[(&str, u8)], wanted: &[(&str, u8)]) -> bool {
    names == wanted
}

#[test]
fn names_come_by_their_octets_with_their_numbers(rt: HostRuntime) -> Result<(), Fail> {
    let plan = unordered(rt.alloc())?;
    assert!(rt; plan.customers.len() <= 128);
    assert!(rt; plan.links.len() <= 64);
    assert!(rt; plan.bridges.len() <= 32);
    let ports = ports_by_name(rt.alloc(), &plan)?;
    let links = links_by_name(rt.alloc(), &plan)?;
    let bridges = bridges_by_name(rt.alloc(), &plan)?;
    assert!(rt; are(ports.as_slice(), &[("Z", 2), ("a", 3), ("z", 1)]));
    assert!(rt; are(links.as_slice(), &[("arch", 2), ("span", 1)]));
    assert!(rt; are(bridges.as_slice(), &[("east", 2), ("west", 1)]));
    Ok(())
}
