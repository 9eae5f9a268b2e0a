//! Each fault, with its printed text.

use super::{NETWORK, tells, told};
use pb_service::PlanFault;
use std::alloc::Global;
use std::process::Abort;

/// A text of the network's file, its replacement, and the fault of the file with the replacement.
pub(super) type Change = (&'static str, &'static str, &'static str);

/// Returns whether the network's file has this fault after a replacement.
fn changes(alloc: Global, (old, new, want): Change) -> Result<bool, PlanFault> {
    let Some((front, back)) = NETWORK.split_once(old) else {
        return Ok(false);
    };
    let text = format!(in alloc; "{front}{new}{back}")?;
    tells(alloc, text.as_bytes(), want)
}

/// Asserts that each of these replacements gives its fault.
pub(super) fn all_change(rt: &impl Abort, alloc: Global, rows: &[Change]) -> Result<(), PlanFault> {
    for (number, row) in rows.iter().enumerate() {
        assert!(rt; changes(alloc, *row)?, "row {number}");
    }
    Ok(())
}

/// Asserts that each of these files has its fault.
fn all_told(rt: &impl Abort, alloc: Global, rows: &[(&[u8], &str)]) -> Result<(), PlanFault> {
    for (file, want) in rows {
        told(rt, alloc, file, want)?;
    }
    Ok(())
}

#[test]
fn a_file_is_utf8_and_toml(rt: HostRuntime) -> Result<(), PlanFault> {
    const FILES: &[(&[u8], &str)] = &[
        (b"\xff", "1 utf8"),
        (b"bridge = ", "2 toml"),
        (b"[network]\nsteps = 9223372036854775808", "2 toml"),
    ];
    all_told(&rt, rt.alloc(), FILES)
}

#[test]
fn events_are_at_ends_of_links(rt: HostRuntime) -> Result<(), PlanFault> {
    const CHANGES: &[Change] = &[
        (
            "[[service]]\nname = \"red\"",
            "[[event]]\nat = 7\nbridge = \"B2\"\nport = 1\nup = true\n[[service]]\nname = \"red\"",
            "0 ok",
        ),
        (
            "[[service]]\nname = \"red\"",
            "[[event]]\nat = 7\nbridge = \"B2\"\nport = 2\nup = true\n[[service]]\nname = \"red\"",
            "5 range event[0].port",
        ),
        (
            "[[service]]\nname = \"red\"",
            "[[event]]\nat = 7\nbridge = \"B3\"\nport = 1\nup = true\n[[service]]\nname = \"red\"",
            "8 no-such B3",
        ),
        (
            "[[service]]\nname = \"red\"",
            "[[event]]\nat = 7\nbridge = \"B2\"\nport = 1\nup = 1\n[[service]]\nname = \"red\"",
            "4 kind event[0].up",
        ),
        (
            "[[service]]\nname = \"red\"",
            "[[event]]\nat = -1\nbridge = \"B2\"\nport = 1\nup = true\n[[service]]\nname = \"red\"",
            "5 range event[0].at",
        ),
        (
            "[[service]]\nname = \"red\"",
            "[[event]]\nat = 7\nbridge = \"B2\"\nport = 1\n[[service]]\nname = \"red\"",
            "3 missing event[0].up",
        ),
        (
            "[[service]]\nname = \"red\"",
            "[[event]]\nname = \"E\"\nat = 7\nbridge = \"B2\"\nport = 1\nup = true\n[[service]]\nname = \"red\"",
            "6 unknown event[0].name",
        ),
    ];
    all_change(&rt, rt.alloc(), CHANGES)
}

#[test]
fn keys_without_default_must_be_there(rt: HostRuntime) -> Result<(), PlanFault> {
    const CHANGES: &[Change] = &[
        ("name = \"B2\"\n", "", "3 missing bridge[1].name"),
        ("b = \"B2\"\n", "", "3 missing link[0].b"),
        ("vid = 200\n", "", "3 missing service[1].vid"),
        (
            "port = 3\n",
            "kind = \"capture\"\nport = 3\n",
            "3 missing port[2].read",
        ),
        (
            "port = 3\n",
            "kind = \"socket\"\nport = 3\n",
            "3 missing port[2].path",
        ),
        (
            "port = 3\n",
            "kind = \"capture\"\nread = \"r\"\nlisten = \"l\"\nport = 3\n",
            "3 missing port[2].write",
        ),
    ];
    all_change(&rt, rt.alloc(), CHANGES)
}

#[test]
fn a_socket_is_made_or_connected_to(rt: HostRuntime) -> Result<(), PlanFault> {
    const CHANGES: &[Change] = &[
        (
            "port = 3",
            "kind = \"socket\"\nlisten = \"p\"\nport = 3",
            "0 ok",
        ),
        (
            "port = 3",
            "kind = \"socket\"\npath = \"p\"\nlisten = \"q\"\nport = 3",
            "6 unknown port[2].path",
        ),
        (
            "port = 3",
            "kind = \"socket\"\npath = 1\nlisten = 2\nport = 3",
            "4 kind port[2].listen",
        ),
        (
            "port = 3",
            "listen = \"p\"\nport = 3",
            "6 unknown port[2].listen",
        ),
    ];
    all_change(&rt, rt.alloc(), CHANGES)
}

#[test]
fn the_time_of_day_is_told_by_a_clock_in_milliseconds(rt: HostRuntime) -> Result<(), PlanFault> {
    const CHANGES: &[Change] = &[
        (
            "service = \"blue\"",
            "service = \"blue\"\nkind = \"capture\"\nread = \"r\"\nwrite = \"w\"\nstamp = \"time\"\n[network]\n\
            tick_ms = 1",
            "0 ok",
        ),
        (
            "port = 3",
            "kind = \"capture\"\nread = \"r\"\nwrite = \"w\"\nstamp = \"time\"\nport = 3",
            "5 range port[2].stamp",
        ),
        (
            "service = \"blue\"",
            "service = \"blue\"\nkind = \"capture\"\nread = \"r\"\nwrite = \"w\"\nstamp = \"time\"\n[network]\n\
            tick_every = 1",
            "5 range port[2].stamp",
        ),
        (
            "port = 3",
            "kind = \"capture\"\nread = \"r\"\nwrite = \"w\"\nstamp = \"ticks\"\nport = 3",
            "0 ok",
        ),
        (
            "port = 3",
            "kind = \"capture\"\nread = \"r\"\nwrite = \"w\"\nstamp = \"now\"\nport = 3",
            "5 range port[2].stamp",
        ),
        (
            "port = 3",
            "kind = \"capture\"\nread = \"r\"\nwrite = \"w\"\nstamp = 1\nport = 3",
            "4 kind port[2].stamp",
        ),
        (
            "port = 3",
            "stamp = \"time\"\nport = 3",
            "6 unknown port[2].stamp",
        ),
    ];
    all_change(&rt, rt.alloc(), CHANGES)
}

#[test]
fn values_are_of_the_types_of_keys(rt: HostRuntime) -> Result<(), PlanFault> {
    const CHANGES: &[Change] = &[
        ("vid = 200", "vid = 1.0", "4 kind service[1].vid"),
        ("vid = 200", "vid = \"200\"", "4 kind service[1].vid"),
        ("name = \"B1\"", "name = 1", "4 kind bridge[0].name"),
        (
            "b_port = 1",
            "b_port = 1\nlost_ab = [1, \"2\"]",
            "4 kind link[0].lost_ab",
        ),
        (
            "b_port = 1",
            "b_port = 1\na_services = [1]",
            "4 kind link[0].a_services",
        ),
        ("port = 3", "in = [1]\nport = 3", "4 kind port[2].in"),
    ];
    all_change(&rt, rt.alloc(), CHANGES)
}

#[test]
fn tables_are_tables(rt: HostRuntime) -> Result<(), PlanFault> {
    const FILES: &[(&[u8], &str)] = &[
        (b"network = 1", "4 kind network"),
        (b"bridge = [1]", "4 kind bridge"),
        (b"[bridge]", "4 kind bridge"),
        (b"bridge = []\nport = []", "0 ok"),
        (b"service = [{ name = \"red\", vid = 1 }]", "0 ok"),
    ];
    all_told(&rt, rt.alloc(), FILES)
}

#[test]
fn values_are_within_their_ranges(rt: HostRuntime) -> Result<(), PlanFault> {
    const CHANGES: &[Change] = &[
        ("vid = 200", "vid = 4095", "5 range service[1].vid"),
        ("vid = 200", "vid = -1", "5 range service[1].vid"),
        (
            "b_port = 1",
            "b_port = 1\nlost_ba = [1, 1]",
            "5 range link[0].lost_ba",
        ),
        (
            "b_port = 1",
            "b_port = 1\na_services = [\"red\", \"red\"]",
            "5 range link[0].a_services",
        ),
        (
            "b_port = 1",
            "b_port = 1\na_services = [\"r d\"]",
            "5 range link[0].a_services",
        ),
        (
            "b_port = 1",
            "b_port = 1\na_state = \"off\"",
            "5 range link[0].a_state",
        ),
        ("port = 3", "in = [\"abc\"]\nport = 3", "5 range port[2].in"),
    ];
    all_change(&rt, rt.alloc(), CHANGES)
}

#[test]
fn other_keys_are_unknown(rt: HostRuntime) -> Result<(), PlanFault> {
    const FILES: &[(&[u8], &str)] = &[
        (b"zebra = 1\nswitch = 2", "6 unknown switch"),
        (b"[network]\nspan = 1", "6 unknown network.span"),
    ];
    const CHANGES: &[Change] = &[
        (
            "vid = 200",
            "vid = 200\nz = 1\ny = 2",
            "6 unknown service[1].y",
        ),
        (
            "port = 3",
            "path = \"p\"\nport = 3",
            "6 unknown port[2].path",
        ),
        (
            "port = 3",
            "kind = \"socket\"\npath = \"p\"\nin = []\nport = 3",
            "6 unknown port[2].in",
        ),
    ];
    all_told(&rt, rt.alloc(), FILES)?;
    all_change(&rt, rt.alloc(), CHANGES)
}

#[test]
fn names_addresses_and_vids_differ(rt: HostRuntime) -> Result<(), PlanFault> {
    const CHANGES: &[Change] = &[
        ("name = \"B2\"", "name = \"B1\"", "7 twice B1"),
        ("00-02", "00-01", "7 twice 02-00-00-00-00-01"),
        ("name = \"blue\"", "name = \"red\"", "7 twice red"),
        ("vid = 200", "vid = 100", "7 twice 100"),
        ("name = \"C3\"", "name = \"C1\"", "7 twice C1"),
    ];
    all_change(&rt, rt.alloc(), CHANGES)
}

#[test]
fn names_stand_for_something(rt: HostRuntime) -> Result<(), PlanFault> {
    const CHANGES: &[Change] = &[
        ("b = \"B2\"", "b = \"B3\"", "8 no-such B3"),
        ("bridge = \"B1\"", "bridge = \"B3\"", "8 no-such B3"),
        (
            "service = \"blue\"",
            "service = \"green\"",
            "8 no-such green",
        ),
        (
            "b_port = 1",
            "b_port = 1\nb_services = [\"green\"]",
            "8 no-such green",
        ),
    ];
    all_change(&rt, rt.alloc(), CHANGES)
}

#[test]
fn no_port_is_used_twice(rt: HostRuntime) -> Result<(), PlanFault> {
    const CHANGES: &[Change] = &[
        ("b = \"B2\"", "b = \"B1\"", "9 link-end"),
        ("port = 3", "port = 2", "9 link-end"),
        ("port = 3", "port = 1", "9 link-end"),
    ];
    all_change(&rt, rt.alloc(), CHANGES)
}
