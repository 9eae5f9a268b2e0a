//! The lowest and the highest value of each number, and the values just outside.

use super::tells;
use pb_service::PlanFault;
use std::alloc::Global;
use std::process::Abort;

/// A bridge.
const BRIDGE: &str = "[[bridge]]\nname = \"B\"\naddress = \"02-00-00-00-00-01\"\n";

/// The beginning of a service.
const SERVICE: &str = "[[service]]\nname = \"S\"\n";

/// The beginning of a link.
const LINK: &str = "[[link]]\nname = \"L\"\na = \"B\"\nb = \"B\"\n";

/// The beginning of a customer port.
const PORT: &str = "[[port]]\nname = \"P\"\nbridge = \"B\"\nservice = \"S\"\n";

/// The text before a key, the text after it, the key, its path, its lowest and its highest value.
type Number = (
    &'static str,
    &'static str,
    &'static str,
    &'static str,
    i64,
    i64,
);

/// The numbers of plan files.
const NUMBERS: &[Number] = &[
    ("[network]\n", "", "ageing", "network.ageing", 10, 1_000_000),
    ("[network]\n", "", "ring", "network.ring", 1, 4096),
    ("[network]\n", "", "steps", "network.steps", 1, 1_000_000),
    (
        "[network]\n",
        "",
        "turns",
        "network.turns",
        1,
        1_000_000_000,
    ),
    (
        "[network]\n",
        "",
        "tick_every",
        "network.tick_every",
        0,
        1_000_000,
    ),
    ("[network]\n", "", "tick_ms", "network.tick_ms", 0, 60_000),
    (
        "[network]\ntick_ms = 5\n",
        "",
        "hold",
        "network.hold",
        0,
        1_000_000,
    ),
    (BRIDGE, "", "queue", "bridge[0].queue", 1, 4096),
    (SERVICE, "", "vid", "service[0].vid", 1, 4094),
    (
        LINK,
        "b_port = 16\na_port = 15\n",
        "a_cost",
        "link[0].a_cost",
        1,
        200_000_000,
    ),
    (
        LINK,
        "b_port = 16\na_port = 15\n",
        "b_cost",
        "link[0].b_cost",
        1,
        200_000_000,
    ),
    (
        LINK,
        "b_port = 16\na_port = 15\n",
        "cost",
        "link[0].cost",
        1,
        200_000_000,
    ),
    (LINK, "b_port = 2\n", "a_port", "link[0].a_port", 3, 16),
    (LINK, "a_port = 2\n", "b_port", "link[0].b_port", 3, 16),
    (
        LINK,
        "a_port = 16\nb_port = 15\n",
        "a_priority",
        "link[0].a_priority",
        0,
        240,
    ),
    (
        LINK,
        "a_port = 16\nb_port = 15\n",
        "b_priority",
        "link[0].b_priority",
        0,
        240,
    ),
    (PORT, "", "port", "port[0].port", 1, 16),
    (PORT, "port = 1\n", "pcp", "port[0].pcp", 0, 7),
    (PORT, "port = 1\n", "queue", "port[0].queue", 1, 4096),
    (BRIDGE, "", "priority", "bridge[0].priority", 0, 61_440),
    (BRIDGE, "", "priority", "bridge[0].priority", 4096, 57_344),
];

/// Returns a file in which the key has the value.
fn file_with(
    alloc: Global,
    front: &str,
    back: &str,
    key: &str,
    value: i64,
) -> Result<String, PlanFault> {
    let bridge = if front == BRIDGE { "" } else { BRIDGE };
    let service = if key == "vid" {
        ""
    } else {
        "[[service]]\nname = \"S\"\nvid = 9\n"
    };
    let text = format!(in alloc; "{front}{key} = {value}\n{back}{bridge}{service}")?;
    Ok(text)
}

/// Returns whether a file in which the key has the value has this fault.
fn tells_with(alloc: Global, number: &Number, value: i64, want: &str) -> Result<bool, PlanFault> {
    let (front, back, key, _, _, _) = *number;
    let file = file_with(alloc, front, back, key, value)?;
    tells(alloc, file.as_bytes(), want)
}

/// Asserts that a value is accepted.
fn is_within(rt: &impl Abort, alloc: Global, number: &Number, value: i64) -> Result<(), PlanFault> {
    let is_ok = tells_with(alloc, number, value, "0 ok")?;
    assert!(rt; is_ok, "{} {value}", number.3);
    Ok(())
}

/// Returns whether a value is refused as out of range.
fn is_refused(alloc: Global, number: &Number, value: i64) -> Result<bool, PlanFault> {
    let path = number.3;
    let want = format!(in alloc; "5 range {path}")?;
    tells_with(alloc, number, value, want.as_str())
}

/// Asserts that a value is refused as out of range.
fn is_outside(
    rt: &impl Abort,
    alloc: Global,
    number: &Number,
    value: i64,
) -> Result<(), PlanFault> {
    let is_refused = is_refused(alloc, number, value)?;
    assert!(rt; is_refused, "{} {value}", number.3);
    Ok(())
}

#[test]
fn numbers_have_bounds(rt: HostRuntime) -> Result<(), PlanFault> {
    for number in NUMBERS {
        is_within(&rt, rt.alloc(), number, number.4)?;
        is_within(&rt, rt.alloc(), number, number.5)?;
    }
    Ok(())
}

#[test]
fn numbers_outside_are_refused(rt: HostRuntime) -> Result<(), PlanFault> {
    for number in NUMBERS {
        let below = if number.4 == 3 {
            0
        } else {
            number.4.saturating_sub(1)
        };
        is_outside(&rt, rt.alloc(), number, below)?;
        is_outside(&rt, rt.alloc(), number, number.5.saturating_add(1))?;
    }
    Ok(())
}

/// Names of services, with the fault of each.
const NAMES: &[(&str, &str)] = &[
    ("", "5 range service[0].name"),
    ("a", "0 ok"),
    ("abcdefghijklmnopqrstuvwxyzABCDEF", "0 ok"),
    ("GHIJKLMNOPQRSTUVWXYZ0123456789-_", "0 ok"),
    (
        "abcdefghijklmnopqrstuvwxyzABCDEFG",
        "5 range service[0].name",
    ),
    ("a b", "5 range service[0].name"),
    ("ä", "5 range service[0].name"),
];

/// Returns whether a service with this name has this fault.
fn tells_of_name(alloc: Global, name: &str, want: &str) -> Result<bool, PlanFault> {
    let text = format!(in alloc; "[[service]]\nname = \"{name}\"\nvid = 1\n")?;
    tells(alloc, text.as_bytes(), want)
}

#[test]
fn names_have_1_to_32_letters(rt: HostRuntime) -> Result<(), PlanFault> {
    for (name, want) in NAMES {
        assert!(rt; tells_of_name(rt.alloc(), name, want)?, "{name}");
    }
    Ok(())
}

/// Addresses of bridges, with the fault of each.
const ADDRESSES: &[(&str, &str)] = &[
    ("02-00-00-00-00-01", "0 ok"),
    ("fe-FF-ff-Ff-fF-00", "0 ok"),
    ("03-00-00-00-00-01", "5 range bridge[0].address"),
    ("02-00-00-00-00-0", "5 range bridge[0].address"),
    ("02:00:00:00:00:01", "5 range bridge[0].address"),
    ("02-00-00-00-00-0g", "5 range bridge[0].address"),
];

/// Returns whether a bridge with this address has this fault.
fn tells_of_address(alloc: Global, address: &str, want: &str) -> Result<bool, PlanFault> {
    let text = format!(in alloc; "[[bridge]]\nname = \"B\"\naddress = \"{address}\"\n")?;
    tells(alloc, text.as_bytes(), want)
}

#[test]
fn addresses_are_those_of_one_station(rt: HostRuntime) -> Result<(), PlanFault> {
    for (address, want) in ADDRESSES {
        assert!(rt; tells_of_address(rt.alloc(), address, want)?, "{address}");
    }
    Ok(())
}
