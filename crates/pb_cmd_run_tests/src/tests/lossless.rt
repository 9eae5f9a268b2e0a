//! Runs that lose no frame because a queue is full.

use super::sheet::Sheet;
use super::{Manner, PLAIN, Row, Told, check, check_under, run};
use pb_cmd_run::Strictness;
use std::alloc::{AllocError, Global};
use std::test::Fail;

/// Two bridges with queues and rings for one frame, and a customer port at each. The frames of the first follow.
const TIGHT: &str = r#"
[network]
ring = 1

[[bridge]]
name = "B1"
address = "02-00-00-00-00-01"
queue = 1

[[bridge]]
name = "B2"
address = "02-00-00-00-00-02"
queue = 1

[[link]]
name = "L1"
a = "B1"
a_port = 1
b = "B2"
b_port = 1

[[service]]
name = "red"
vid = 100

[[port]]
name = "C2"
bridge = "B2"
port = 2
service = "red"

[[port]]
name = "C1"
bridge = "B1"
port = 2
service = "red"
in = ["#;

/// The report of two hundred frames that all arrive.
const ALL: &str =
    "ended drained\nport C1 entered 200 left 0 filtered 0\nport C2 entered 0 left 200 filtered 0\n\
    link L1 ab taken 200 lost 0 ba taken 0 lost 0\nforest yes\n";

/// Returns the list of two hundred frames, up to its end.
fn frames(alloc: Global) -> Result<String, AllocError> {
    let mut text = String::new(alloc);
    for _ in 0..200u8 {
        text.push_str("\"ffffffffffff02000000010108004100\", ")?;
    }
    text.push_str("]\n")?;
    Ok(text)
}

#[test]
fn two_hundred_frames_pass_queues_for_one(rt: HostRuntime) -> Result<(), Fail> {
    let alloc = rt.alloc();
    let manner = Manner {
        strictness: Strictness::Strict,
        ..PLAIN
    };
    let frames = frames(alloc)?;
    let mut output = Sheet::whole(ALL.as_bytes());
    let mut errors = Sheet::whole(b"");
    let told = run(
        &rt,
        alloc,
        [TIGHT, frames.as_str()],
        manner,
        &mut output,
        &mut errors,
    )?;
    let want = Told {
        result: Ok(0),
        traffic: (200, 200),
        closed: 1,
    };
    assert_eq!(rt;
        (told, output.is_right(), errors.is_right()),
        (want, true, true)
    );
    Ok(())
}

/// Four bridges in a ring with queues and rings for one frame. The first end of L3 is Discarding.
const RING: &str = r#"
network = { ring = 1 }
bridge = [
    { name = "B1", address = "02-00-00-00-00-01", queue = 1 },
    { name = "B2", address = "02-00-00-00-00-02", queue = 1 },
    { name = "B3", address = "02-00-00-00-00-03", queue = 1 },
    { name = "B4", address = "02-00-00-00-00-04", queue = 1 },
]
link = [
    { name = "L1", a = "B1", a_port = 1, b = "B2", b_port = 2 },
    { name = "L2", a = "B2", a_port = 1, b = "B3", b_port = 2 },
    { name = "L3", a = "B3", a_port = 1, b = "B4", b_port = 2, a_state = "discarding" },
    { name = "L4", a = "B4", a_port = 1, b = "B1", b_port = 2 },
]
service = [{ name = "red", vid = 100 }]
"#;

/// The customer ports of the ring, each up to its frames.
const RING_PORTS: [&str; 4] = [
    "[[port]]\nname = \"C1\"\nbridge = \"B1\"\nport = 3\nservice = \"red\"\nin = [",
    "[[port]]\nname = \"C2\"\nbridge = \"B2\"\nport = 3\nservice = \"red\"\nin = [",
    "[[port]]\nname = \"C3\"\nbridge = \"B3\"\nport = 3\nservice = \"red\"\nin = [",
    "[[port]]\nname = \"C4\"\nbridge = \"B4\"\nport = 3\nservice = \"red\"\nin = [",
];

/// The report of two hundred frames from each port, of which each arrives at the three others.
const ALL_AROUND: &str =
    "ended drained\nport C1 entered 200 left 600 filtered 0\nport C2 entered 200 left 600 filtered 0\n\
    port C3 entered 200 left 600 filtered 0\nport C4 entered 200 left 600 filtered 0\n\
    link L1 ab taken 400 lost 0 ba taken 400 lost 0\nlink L2 ab taken 600 lost 0 ba taken 200 lost 0\n\
    link L3 ab taken 0 lost 0 ba taken 800 lost 0\nlink L4 ab taken 200 lost 0 ba taken 600 lost 0\nforest yes\n";

/// Returns the customer ports of the ring, each with two hundred frames.
fn ring_ports(alloc: Global) -> Result<String, AllocError> {
    let frames = frames(alloc)?;
    let mut text = String::new(alloc);
    for port in RING_PORTS {
        text.push_str(port)?;
        text.push_str(frames.as_str())?;
    }
    Ok(text)
}

/// A frame that is dropped at a Discarding port waits for no queue. If it did, frames of all four bridges would wait for
/// each other.
#[test]
fn a_ring_with_a_discarding_port_drains(rt: HostRuntime) -> Result<(), Fail> {
    let alloc = rt.alloc();
    let manner = Manner {
        strictness: Strictness::Strict,
        ..PLAIN
    };
    let ports = ring_ports(alloc)?;
    let mut output = Sheet::whole(ALL_AROUND.as_bytes());
    let mut errors = Sheet::whole(b"bridge B3 port 1: 800 frames dropped: not-forwarding\n");
    let told = run(
        &rt,
        alloc,
        [RING, ports.as_str()],
        manner,
        &mut output,
        &mut errors,
    )?;
    let want = Told {
        result: Ok(0),
        traffic: (800, 2400),
        closed: 1,
    };
    assert_eq!(rt;
        (told, output.is_right(), errors.is_right()),
        (want, true, true)
    );
    Ok(())
}

/// Two links between two bridges, over which a service has a loop.
const LOOP: &str = r#"
bridge = [{ name = "B1", address = "02-00-00-00-00-01" }, { name = "B2", address = "02-00-00-00-00-02" }]
link = [
    { name = "L1", a = "B1", a_port = 1, b = "B2", b_port = 1 },
    { name = "L2", a = "B1", a_port = 2, b = "B2", b_port = 2 },
]
service = [{ name = "red", vid = 100 }]
"#;

/// A run over the loop, with this key of the network.
fn over_loop(key: &'static str) -> Row {
    Row {
        parts: [key, LOOP],
        told: Told {
            result: Ok(0),
            traffic: (0, 0),
            closed: 1,
        },
        report: "ended drained\nlink L1 ab taken 0 lost 0 ba taken 0 lost 0\n\
            link L2 ab taken 0 lost 0 ba taken 0 lost 0\nforest no\nloop red\n",
    }
}

#[test]
fn a_lossless_run_over_a_loop_has_a_warning(rt: HostRuntime) -> Result<(), Fail> {
    let warning = "warning: service red has a loop at start: a lossless run may stall\n";
    check_under(
        &rt,
        rt.alloc(),
        &over_loop(""),
        Strictness::Lenient,
        warning,
    )?;
    check(
        &rt,
        rt.alloc(),
        &over_loop("network = { lossless = false }\n"),
    )
}
