//! Whether a run loses no frame because a queue is full.

use pb_service::{PlanFault, read_plan_file};

/// A bridge and a service, before the customer ports.
const BRIDGE: &str = "\
bridge = [{ name = 'B', address = '02-00-00-00-00-01' }]
service = [{ name = 'red', vid = 100 }]
";

/// A port over memory.
const MEMORY: &str = "{ name = 'M', bridge = 'B', port = 1, service = 'red' }";

/// A port over two captures.
const CAPTURE: &str =
    "{ name = 'C', bridge = 'B', port = 2, service = 'red', kind = 'capture', read = 'r', write = 'w' }";

/// A port that writes a capture.
const RECORD: &str =
    "{ name = 'R', bridge = 'B', port = 4, service = 'red', kind = 'record', write = 'v' }";

/// A port over a socket.
const SOCKET: &str =
    "{ name = 'S', bridge = 'B', port = 3, service = 'red', kind = 'socket', listen = 's' }";

/// A port over datagrams.
const UDP: &str =
    "{ name = 'U', bridge = 'B', port = 5, service = 'red', kind = 'udp', local = '[::1]:4789', \
    remote = '[::1]:4790', vni = 0 }";

/// The keys of the network, ports, and whether a run of them is lossless.
const ROWS: &[(&str, [&str; 2], bool)] = &[
    ("", [MEMORY, CAPTURE], true),
    ("", [MEMORY, SOCKET], false),
    ("", [SOCKET, CAPTURE], false),
    ("", [RECORD, CAPTURE], true),
    ("lossless = 'auto'", [MEMORY, CAPTURE], true),
    ("lossless = 'auto'", [SOCKET, CAPTURE], false),
    ("", [MEMORY, UDP], false),
    ("", [UDP, CAPTURE], false),
    ("lossless = 'auto'", [MEMORY, UDP], false),
    ("lossless = true", [UDP, MEMORY], true),
    ("lossless = true", [SOCKET, CAPTURE], true),
    ("lossless = false", [MEMORY, CAPTURE], false),
];

#[test]
fn a_run_is_lossless_by_its_key_or_without_sockets(rt: HostRuntime) -> Result<(), PlanFault> {
    let alloc = rt.alloc();
    for (key, [first, second], is_lossless) in ROWS {
        let text = format!(in alloc;
            "network = {{ {key} }}\n{BRIDGE}port = [{first}, {second}]\n"
        )?;
        let file = read_plan_file(alloc, text.as_bytes())?;
        assert!(rt; file.is_lossless == *is_lossless, "{text}");
    }
    Ok(())
}
