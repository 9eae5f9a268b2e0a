//! The order in which faults are found.

use super::tells;
use pb_service::PlanFault;
use std::alloc::Global;

/// Files with two faults each, and the one that is reported.
const FILES: &[(&str, &str)] = &[
    ("zebra = 1\nnetwork = 1", "6 unknown zebra"),
    ("[network]\nring = 0\nageing = 1", "5 range network.ageing"),
    ("[network]\nqueues = \"Class\"", "5 range network.queues"),
    ("[network]\nqueues = 8", "4 kind network.queues"),
    ("[network]\nlossless = 1", "4 kind network.lossless"),
    ("[network]\nlossless = \"true\"", "5 range network.lossless"),
    (
        "[network]\nqueues = \"\"\nhold = -1",
        "5 range network.hold",
    ),
    (
        "[network]\nring = 0\nageing = \"1\"",
        "4 kind network.ageing",
    ),
    (
        "[network]\nzebra = 1\ntick_every = -1",
        "5 range network.tick_every",
    ),
    (
        "[network]\ntick_every = 7\ntick_ms = 5\nhold = 1\n",
        "5 range network.tick_ms",
    ),
    ("bridge = 1\n[network]\nhold = 1\n", "5 range network.hold"),
    (
        "[network]\nzebra = 1\nhold = 1\n",
        "6 unknown network.zebra",
    ),
    ("bridge = 1\n[network]\nturns = 0", "5 range network.turns"),
    (
        "link = 1\n[[bridge]]\naddress = 1",
        "3 missing bridge[0].name",
    ),
    (
        "service = 1\nlink = [1]\n[[bridge]]\nname = \"\"\naddress = 1",
        "5 range bridge[0].name",
    ),
    (
        "[[bridge]]\nname = \"B\"\nzebra = 1",
        "3 missing bridge[0].address",
    ),
    (
        "[[bridge]]\nname = \"B\"\naddress = \"02-00-00-00-00-01\"\nzebra = 1\napple = 1",
        "6 unknown bridge[0].apple",
    ),
    (
        "[[bridge]]\nname = \"B\"\naddress = \"02-00-00-00-00-01\"\n[[bridge]]\nname = \"B\"\n\
        address = \"02-00-00-00-00-01\"\nzebra = 1",
        "6 unknown bridge[1].zebra",
    ),
    (
        "[[bridge]]\nname = \"B\"\naddress = \"02-00-00-00-00-01\"\n[[bridge]]\nname = \"B\"\n\
        address = \"02-00-00-00-00-01\"",
        "7 twice B",
    ),
    (
        "[[bridge]]\nname = \"B\"\naddress = \"02-00-00-00-00-01\"\n[[link]]\nname = \"L\"\na = \"X\"\na_port = 1\n\
        b = \"Y\"\nb_port = 1\nzebra = 1",
        "6 unknown link[0].zebra",
    ),
    (
        "[[link]]\nname = \"L\"\na = \"X\"\na_port = 1\nb = \"Y\"\nb_port = 1\n[[service]]\nname = 1",
        "8 no-such X",
    ),
    (
        "[[bridge]]\nname = \"B\"\naddress = \"02-00-00-00-00-01\"\n[[link]]\nname = \"L\"\na = \"B\"\na_port = 1\n\
        b = \"B\"\nb_port = 1\na_services = [\"red\"]\n",
        "8 no-such red",
    ),
    (
        "[[bridge]]\nname = \"B\"\naddress = \"02-00-00-00-00-01\"\n[[link]]\nname = \"L\"\na = \"B\"\na_port = 1\n\
        b = \"C\"\nb_port = 1\na_services = [\"red\"]\n",
        "8 no-such C",
    ),
    (
        "[[bridge]]\nname = \"B\"\naddress = \"02-00-00-00-00-01\"\n[[link]]\nname = \"L\"\na = \"B\"\na_port = 1\n\
        b = \"B\"\nb_port = 1\na_services = [\"red\"]\n[[service]]\nname = \"red\"",
        "9 link-end",
    ),
    (
        "[[bridge]]\nname = \"B\"\naddress = \"02-00-00-00-00-01\"\n[[link]]\nname = \"L\"\na = \"B\"\na_port = 1\n\
        b = \"B\"\nb_port = 2\na_services = [\"red\"]\n[[service]]\nname = \"red\"",
        "3 missing service[0].vid",
    ),
    (
        "[[service]]\nname = \"S\"\nvid = 1\n[[service]]\nname = \"S\"\nvid = 1",
        "7 twice S",
    ),
    (
        "[[service]]\nname = \"S\"\nvid = 1\n[[port]]\nname = \"P\"\nbridge = \"B\"\nport = 1\nservice = \"T\"",
        "8 no-such B",
    ),
    (
        "[[port]]\nname = \"P\"\nbridge = \"B\"\nport = 1\nservice = \"T\"\nkind = \"file\"\nin = 1",
        "5 range port[0].kind",
    ),
    (
        "[[bridge]]\nname = \"B\"\naddress = \"02-00-00-00-00-01\"\n[[service]]\nname = \"S\"\nvid = 1\n[[port]]\n\
        name = \"P\"\nbridge = \"B\"\nport = 1\nservice = \"T\"\nkind = \"capture\"\nread = \"r\"\nwrite = \"w\"\n\
        stamp = \"time\"",
        "8 no-such T",
    ),
    ("[[tap]]\n[[event]]\n", "3 missing event[0].at"),
    (
        "port = 1\n[[tap]]\ndirection = 1\n",
        "3 missing tap[0].link",
    ),
    (
        "[[port]]\n[[tap]]\nlink = \"L\"\nwrite = \"w\"\nstamp = \"time\"\n",
        "8 no-such L",
    ),
];

#[test]
fn the_first_fault_is_told(rt: HostRuntime) -> Result<(), PlanFault> {
    for (number, (text, want)) in FILES.iter().enumerate() {
        let is_told = tells(rt.alloc(), text.as_bytes(), want)?;
        assert!(rt; is_told, "row {number}");
    }
    Ok(())
}

/// Texts that follow 33 bridges without keys, and the fault of each file.
const MANY: &[(&str, &str)] = &[
    ("", "10 too-many"),
    ("[[port]]\n", "10 too-many"),
    ("[[port]]\n[network]\nring = 0\n", "5 range network.ring"),
];

/// Returns whether a file of 33 bridges without keys and the text that follows has this fault.
fn tells_of_many(alloc: Global, behind: &str, want: &str) -> Result<bool, PlanFault> {
    let mut text = String::new(alloc);
    for _ in 0..33u8 {
        text.push_str("[[bridge]]\n")?;
    }
    text.push_str(behind)?;
    tells(alloc, text.as_bytes(), want)
}

#[test]
fn a_long_array_is_too_many_before_its_tables(rt: HostRuntime) -> Result<(), PlanFault> {
    for (number, (behind, want)) in MANY.iter().enumerate() {
        assert!(rt; tells_of_many(rt.alloc(), behind, want)?, "row {number}");
    }
    Ok(())
}
