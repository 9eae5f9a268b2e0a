//! Customer ports over UDP datagrams.

use super::faults::{Change, all_change};
use super::kinds::is_port;
use super::{NETWORK, tells};
use pb_service::{PlanFault, PortSpec};
use std::alloc::Global;
use std::net::{IpAddr, Ipv4Addr, Ipv6Addr, SocketAddr, SocketAddrV6};

/// The address of this host, with a port.
fn v4(port: u16) -> SocketAddr {
    SocketAddr::new(IpAddr::V4(Ipv4Addr::new(127, 0, 0, 1)), port)
}

/// The address of this host in IPv6, with a port.
fn v6(port: u16) -> SocketAddr {
    SocketAddr::new(IpAddr::V6(Ipv6Addr::new(0, 0, 0, 0, 0, 0, 0, 1)), port)
}

/// Returns whether a port over datagrams with these keys has these addresses and this network.
fn is_udp(
    alloc: Global,
    keys: &str,
    local: SocketAddr,
    remote: SocketAddr,
    network: Option<u32>,
) -> Result<bool, PlanFault> {
    let want = PortSpec::Udp {
        local,
        remote,
        network,
    };
    let keys = format!(in alloc; "kind = 'udp'\n{keys}")?;
    is_port(alloc, keys.as_str(), &want)
}

#[test]
fn datagrams_have_a_vxlan_header_by_default(rt: HostRuntime) -> Result<(), PlanFault> {
    const V4: &str = "local = '127.0.0.1:4790'\nremote = '127.0.0.1:4789'\nvni = 5";
    const NAMED: &str = "encap = 'vxlan'\nvni = 0\nlocal = '[::1]:1'\nremote = '[::1]:65535'";
    const GREATEST: &str = "local = '[::1]:1'\nremote = '[0:0:0::0:1]:02'\nvni = 16777215";
    assert!(rt; is_udp(rt.alloc(), V4, v4(4790), v4(4789), Some(5))?);
    assert!(rt; is_udp(rt.alloc(), NAMED, v6(1), v6(65_535), Some(0))?);
    assert!(rt; is_udp(rt.alloc(), GREATEST, v6(1), v6(2), Some(16_777_215))?);
    Ok(())
}

#[test]
fn datagrams_are_frames_alone_if_they_are_to(rt: HostRuntime) -> Result<(), PlanFault> {
    const V4: &str = "local = '127.0.0.1:7'\nremote = '127.0.0.1:7'\nencap = 'none'";
    assert!(rt; is_udp(rt.alloc(), V4, v4(7), v4(7), None)?);
    Ok(())
}

#[test]
fn an_address_has_its_scope(rt: HostRuntime) -> Result<(), PlanFault> {
    const SCOPED: &str = "local = '[fe80::1%2]:7'\nremote = '[fe80::1.2.3.4%9]:8'\nencap = 'none'";
    let local = Ipv6Addr::new(0xfe80, 0, 0, 0, 0, 0, 0, 1);
    let local = SocketAddr::V6(SocketAddrV6::new(local, 7, 0, 2));
    let remote = Ipv6Addr::new(0xfe80, 0, 0, 0, 0, 0, 0x0102, 0x0304);
    let remote = SocketAddr::V6(SocketAddrV6::new(remote, 8, 0, 9));
    assert!(rt; is_udp(rt.alloc(), SCOPED, local, remote, None)?);
    Ok(())
}

#[test]
fn a_port_over_datagrams_has_its_keys(rt: HostRuntime) -> Result<(), PlanFault> {
    const CHANGES: &[Change] = &[
        (
            "port = 3",
            "kind = 'udp'\nport = 3",
            "3 missing port[2].local",
        ),
        (
            "port = 3",
            "kind = 'udp'\nlocal = '[::1]:1'\nport = 3",
            "3 missing port[2].remote",
        ),
        (
            "port = 3",
            "kind = 'udp'\nlocal = '[::1]:1'\nremote = '[::1]:2'\nport = 3",
            "3 missing port[2].vni",
        ),
        (
            "port = 3",
            "kind = 'udp'\nlocal = '[::1]:1'\nremote = '[::1]:2'\nencap = 'vxlan'\nport = 3",
            "3 missing port[2].vni",
        ),
        (
            "port = 3",
            "kind = 'udp'\nlocal = '[::1]:1'\nremote = '[::1]:2'\nencap = 'gre'\nport = 3",
            "5 range port[2].encap",
        ),
        (
            "port = 3",
            "kind = 'udp'\nlocal = '[::1]:1'\nremote = '[::1]:2'\nencap = false\nvni = 'x'\nport = 3",
            "4 kind port[2].encap",
        ),
        (
            "port = 3",
            "kind = 'udp'\nlocal = '[::1]:1'\nremote = '[::1]:2'\nvni = 16777216\nport = 3",
            "5 range port[2].vni",
        ),
        (
            "port = 3",
            "kind = 'udp'\nlocal = '[::1]:1'\nremote = '[::1]:2'\nvni = -1\nport = 3",
            "5 range port[2].vni",
        ),
        (
            "port = 3",
            "kind = 'udp'\nlocal = '[::1]:1'\nremote = '[::1]:2'\nvni = '1'\nport = 3",
            "4 kind port[2].vni",
        ),
        (
            "port = 3",
            "kind = 'udp'\nlocal = '[::1]:1'\nremote = '[::1]:2'\nvni = 1\npath = 'p'\nport = 3",
            "6 unknown port[2].path",
        ),
        (
            "port = 3",
            "kind = 'udp'\nlocal = '[::1]:1'\nremote = '[::1]:2'\nvni = 1\nin = []\nport = 3",
            "6 unknown port[2].in",
        ),
    ];
    all_change(&rt, rt.alloc(), CHANGES)
}

#[test]
fn a_network_and_addresses_are_unknown_elsewhere(rt: HostRuntime) -> Result<(), PlanFault> {
    const CHANGES: &[Change] = &[
        (
            "port = 3",
            "kind = 'udp'\nlocal = '[::1]:1'\nremote = '[::1]:2'\nencap = 'none'\nvni = 1\nport = 3",
            "6 unknown port[2].vni",
        ),
        (
            "port = 3",
            "local = '[::1]:1'\nport = 3",
            "6 unknown port[2].local",
        ),
        (
            "port = 3",
            "encap = 'none'\nport = 3",
            "6 unknown port[2].encap",
        ),
        (
            "port = 3",
            "kind = 'socket'\npath = 'p'\nremote = '[::1]:1'\nport = 3",
            "6 unknown port[2].remote",
        ),
        (
            "port = 3",
            "kind = 'record'\nwrite = 'w'\nvni = 1\nport = 3",
            "6 unknown port[2].vni",
        ),
    ];
    all_change(&rt, rt.alloc(), CHANGES)
}

#[test]
fn addresses_are_of_one_family(rt: HostRuntime) -> Result<(), PlanFault> {
    const CHANGES: &[Change] = &[
        (
            "port = 3",
            "kind = 'udp'\nlocal = '127.0.0.1:1'\nremote = '[::1]:2'\nvni = 1\nport = 3",
            "5 range port[2].remote",
        ),
        (
            "port = 3",
            "kind = 'udp'\nlocal = '[::1]:1'\nremote = '127.0.0.1:2'\nencap = 'none'\nport = 3",
            "5 range port[2].remote",
        ),
        (
            "port = 3",
            "kind = 'udp'\nlocal = '[::1]:1'\nremote = '127.0.0.1:2'\nport = 3",
            "3 missing port[2].vni",
        ),
        (
            "service = \"blue\"",
            "kind = 'udp'\nlocal = '[::1]:1'\nremote = '127.0.0.1:2'\nvni = 1\nservice = 'green'",
            "8 no-such green",
        ),
    ];
    all_change(&rt, rt.alloc(), CHANGES)
}

/// Two ports with the same address. The second can't be opened, which only `run` finds.
const TWO: &str = "\
kind = 'udp'
local = '[::1]:4789'
remote = '[::1]:1'
vni = 1
[[port]]
name = 'C4'
bridge = 'B1'
port = 3
service = 'red'
kind = 'udp'
local = '[::1]:4789'
remote = '[::1]:4789'
encap = 'none'
";

#[test]
fn two_ports_may_name_one_address(rt: HostRuntime) -> Result<(), PlanFault> {
    let text = format!(in rt.alloc(); "{NETWORK}{TWO}")?;
    assert!(rt; tells(rt.alloc(), text.as_bytes(), "0 ok")?);
    Ok(())
}

/// Texts, and whether each is a socket address whose port is not 0.
const ADDRESSES: &[(&str, bool)] = &[
    ("127.0.0.1:4790", true),
    ("0.0.0.0:1", true),
    ("255.255.255.255:65535", true),
    ("127.0.0.1:00080", true),
    ("127.0.0.1:0", false),
    ("127.0.0.1:65536", false),
    ("127.0.0.1:", false),
    ("127.0.0.1", false),
    ("127.0.0.01:1", false),
    ("127.0.0.256:1", false),
    ("127.0.1:1", false),
    (" 127.0.0.1:1", false),
    ("127.0.0.1:1 ", false),
    ("127.0.0.1:+1", false),
    ("localhost:1", false),
    ("", false),
];

/// Texts, and whether each is a socket address of IPv6 whose port is not 0.
const V6_ADDRESSES: &[(&str, bool)] = &[
    ("[::1]:4790", true),
    ("[::]:1", true),
    ("[1:2:3:4:5:6:7:8]:9", true),
    ("[1:2:3:4:5:6:7::]:9", true),
    ("[1:2:3:4:5:6:7:8::]:9", false),
    ("[1::2::3]:9", false),
    ("[::12345]:9", false),
    ("[::ffff:1.2.3.4]:9", true),
    ("[::1.2.3]:9", false),
    ("[fe80::AbCd%4294967295]:9", true),
    ("[fe80::1%4294967296]:9", false),
    ("[fe80::1%lo]:9", false),
    ("[::1]:0", false),
    ("[::1]:65536", false),
    ("[::1]", false),
    ("::1:4790", false),
    ("[127.0.0.1]:1", false),
];

/// Returns whether a port with these addresses is refused because of one of its addresses, or accepted.
fn tells_of(alloc: Global, keys: &str, key: &str, is_address: bool) -> Result<bool, PlanFault> {
    let text = format!(in alloc; "{NETWORK}kind = 'udp'\nencap = 'none'\n{keys}\n")?;
    let want = if is_address {
        format!(in alloc; "0 ok")?
    } else {
        format!(in alloc; "5 range port[2].{key}")?
    };
    tells(alloc, text.as_bytes(), want.as_str())
}

/// Returns whether an address is accepted or refused at either end, beside another.
fn tells_at_both(
    alloc: Global,
    address: &str,
    beside: &str,
    is_address: bool,
) -> Result<bool, PlanFault> {
    let local = format!(in alloc; "local = '{address}'\nremote = '{beside}'")?;
    let remote = format!(in alloc; "local = '{beside}'\nremote = '{address}'")?;
    let is_local = tells_of(alloc, local.as_str(), "local", is_address)?;
    Ok(is_local && tells_of(alloc, remote.as_str(), "remote", is_address)?)
}

#[test]
fn addresses_are_those_of_sockets(rt: HostRuntime) -> Result<(), PlanFault> {
    for (address, is_address) in ADDRESSES {
        let is_told = tells_at_both(rt.alloc(), address, "127.0.0.1:9", *is_address)?;
        assert!(rt; is_told, "{address}");
    }
    for (address, is_address) in V6_ADDRESSES {
        let is_told = tells_at_both(rt.alloc(), address, "[::1]:9", *is_address)?;
        assert!(rt; is_told, "{address}");
    }
    Ok(())
}
