//! Lists of ports, and ports in a few octets.

use pb_lan::{NoRoom, PortList, PortSet, Refusals};
use std::alloc::AllocError;
use std::process::Abort;
use std::test::Fail;

/// All local ports of a bridge.
const ALL: [u8; 16] = [1, 2, 3, 4, 5, 6, 7, 8, 9, 10, 11, 12, 13, 14, 15, 16];

/// Checks whether a list has these ports, in this order.
fn has(list: &PortList, ports: &[u8]) -> bool {
    list.as_slice() == ports
}

#[test]
fn a_list_has_the_ports_in_their_order(rt: HostRuntime) {
    let mut ports = PortList::new();
    assert!(rt; has(&ports, &[]));
    ports.push(7);
    ports.push(2);
    assert!(rt; has(&ports, &[7, 2]));
}

#[test]
fn lists_of_the_same_ports_are_equal(rt: HostRuntime) {
    let mut ports = PortList::new();
    let mut others = PortList::new();
    ports.push(3);
    assert!(rt; ports != others);
    others.push(4);
    assert!(rt; ports != others);
    others = PortList::new();
    others.push(3);
    assert!(rt; ports == others);
}

/// Checks whether a set and its copies have these ports.
fn all_have(set: &PortSet, ports: &[u8]) -> Result<bool, AllocError> {
    let copy = set.clone()?;
    Ok(has(&set.list(), ports) && has(&set.copied().list(), ports) && has(&copy.list(), ports))
}

#[test]
fn a_set_has_its_ports(rt: HostRuntime) -> Result<(), Fail> {
    let mut ports = PortSet::new();
    assert!(rt; all_have(&ports, &[])?);
    ports.push(2);
    ports.push(16);
    assert!(rt; all_have(&ports, &[2, 16])?);
    Ok(())
}

/// Checks whether the ports of a slice make a set, which has exactly these.
fn is_set(ports: &[u8]) -> bool {
    PortSet::from_slice(ports).is_some_and(|set| set.list().as_slice() == ports)
}

/// Ports that are no set: one is no local port, or they don't ascend.
const NO_SETS: &[&[u8]] = &[&[0, 1], &[2, 2], &[3, 1], &[16, 17]];

#[test]
fn a_set_is_taken_of_local_ports_that_ascend(rt: HostRuntime) {
    assert!(rt; is_set(&[]));
    assert!(rt; is_set(&[1, 3]));
    assert!(rt; is_set(&ALL));
    for (number, ports) in NO_SETS.iter().enumerate() {
        assert!(rt; PortSet::from_slice(ports).is_none(), "row {number}");
    }
}

/// Checks whether the sets of two slices are equal.
fn same(ports: &[u8], others: &[u8]) -> bool {
    PortSet::from_slice(ports) == PortSet::from_slice(others)
}

#[test]
fn sets_of_the_same_ports_are_equal(rt: HostRuntime) {
    assert!(rt; same(&[1, 3], &[1, 3]));
    assert!(rt; !same(&[1, 3], &[1, 4]));
    assert!(rt; !same(&[1, 3], &[1]));
}

/// Checks whether refusals have these ports and causes, in this order.
fn name(refusals: &Refusals, all: &[(u8, NoRoom)]) -> bool {
    refusals.list().as_slice() == all
}

/// Checks whether refusals and their copies have these ports and causes.
fn all_name(refusals: &Refusals, all: &[(u8, NoRoom)]) -> Result<bool, AllocError> {
    let copy = refusals.clone()?;
    Ok(name(refusals, all) && name(&refusals.copied(), all) && name(&copy, all))
}

/// Port 1 was refused because an allocation failed, and port 16 because the queue was full.
const ALL_NAMED: &[(u8, NoRoom)] = &[(1, NoRoom::Memory), (16, NoRoom::Full)];

#[test]
fn refusals_have_their_ports_and_causes(rt: HostRuntime) -> Result<(), Fail> {
    let mut refusals = Refusals::new();
    assert!(rt; refusals.is_empty());
    refusals.push(1, NoRoom::Memory);
    assert!(rt; !refusals.is_empty());
    refusals.push(16, NoRoom::Full);
    assert!(rt; all_name(&refusals, ALL_NAMED)?);
    Ok(())
}

/// Checks whether the ports and causes of a slice make refusals, which have exactly these.
fn are_refusals(all: &[(u8, NoRoom)]) -> bool {
    Refusals::from_slice(all).is_some_and(|refusals| name(&refusals, all)
        && refusals.is_empty() == all.is_empty())
}

/// Ports with causes that are no refusals: one is no local port, or they don't ascend.
const NO_REFUSALS: &[&[(u8, NoRoom)]] = &[
    &[(0, NoRoom::Full), (1, NoRoom::Full)],
    &[(2, NoRoom::Full), (2, NoRoom::Full)],
    &[(3, NoRoom::Full), (1, NoRoom::Full)],
    &[(16, NoRoom::Full), (17, NoRoom::Full)],
];

#[test]
fn refusals_are_taken_of_local_ports_that_ascend(rt: HostRuntime) {
    assert!(rt; are_refusals(&[]));
    assert!(rt; are_refusals(&[(2, NoRoom::Full), (5, NoRoom::Memory)]));
    for (number, all) in NO_REFUSALS.iter().enumerate() {
        assert!(rt; Refusals::from_slice(all).is_none(), "row {number}");
    }
}

/// Checks whether the refusals of a slice equal those of port 2 alone, because the queue was full.
fn is_full(all: &[(u8, NoRoom)]) -> bool {
    Refusals::from_slice(&[(2, NoRoom::Full)]) == Refusals::from_slice(all)
}

#[test]
fn refusals_of_the_same_ports_and_causes_are_equal(rt: HostRuntime) {
    assert!(rt; is_full(&[(2, NoRoom::Full)]));
    assert!(rt; !is_full(&[(2, NoRoom::Memory)]));
    assert!(rt; !is_full(&[(3, NoRoom::Full)]));
    assert!(rt; !is_full(&[]));
}
