//! Plan files of networks that are run.

/// Two bridges, a link that loses its second item, and three ports of one service, the first with a script.
pub(super) const LOSSY: &str = r#"
[[bridge]]
name = "B1"
address = "02-00-00-00-00-01"

[[bridge]]
name = "B2"
address = "02-00-00-00-00-02"

[[link]]
name = "L1"
a = "B1"
a_port = 1
b = "B2"
b_port = 1
lost_ab = [1]

[[service]]
name = "red"
vid = 100

[[port]]
name = "C1"
bridge = "B1"
port = 2
service = "red"
in = ["ffffffffffff02000000010108004100", "ffffffffffff02000000010108004101", "ffffffffffff02000000010108004102"]

[[port]]
name = "C2"
bridge = "B2"
port = 2
service = "red"

[[port]]
name = "C3"
bridge = "B2"
port = 3
service = "red"
"#;

/// One bridge with a memory port between two captures.
pub(super) const CAPTURES: &str = r#"
[[bridge]]
name = "B1"
address = "02-00-00-00-00-01"

[[service]]
name = "red"
vid = 100

[[port]]
name = "P2"
bridge = "B1"
port = 2
service = "red"
kind = "capture"
read = "p2.in"
write = "p2.out"

[[port]]
name = "P3"
bridge = "B1"
port = 3
service = "red"

[[port]]
name = "P1"
bridge = "B1"
port = 1
service = "red"
kind = "capture"
read = "p1.in"
write = "p1.out"
"#;

/// One bridge with a capture, a socket and another capture.
pub(super) const PATHS: &str = r#"
[[bridge]]
name = "B1"
address = "02-00-00-00-00-01"

[[service]]
name = "red"
vid = 100

[[port]]
name = "P3"
bridge = "B1"
port = 3
service = "red"
kind = "capture"
read = "paths.in"
write = "paths.out"

[[port]]
name = "P2"
bridge = "B1"
port = 2
service = "red"
kind = "socket"
path = "paths.none"

[[port]]
name = "P1"
bridge = "B1"
port = 1
service = "red"
kind = "capture"
read = "paths.in"
write = "paths.last"
"#;

/// One bridge with a capture that is read and written.
pub(super) const SAME: &str = r#"
[[bridge]]
name = "B1"
address = "02-00-00-00-00-01"

[[service]]
name = "red"
vid = 100

[[port]]
name = "P1"
bridge = "B1"
port = 1
service = "red"
kind = "capture"
read = "paths.in"
write = ".//paths.in"
"#;

/// One bridge with a capture that is read, and written by another name.
pub(super) const LINKED: &str = r#"
[[bridge]]
name = "B1"
address = "02-00-00-00-00-01"

[[service]]
name = "red"
vid = 100

[[port]]
name = "P1"
bridge = "B1"
port = 1
service = "red"
kind = "capture"
read = "paths.in"
write = "again.in"
"#;

/// One bridge with two ports that write one capture.
pub(super) const TWICE: &str = r#"
[[bridge]]
name = "B1"
address = "02-00-00-00-00-01"

[[service]]
name = "red"
vid = 100

[[port]]
name = "P1"
bridge = "B1"
port = 1
service = "red"
kind = "capture"
read = "paths.in"
write = "paths.last"

[[port]]
name = "P2"
bridge = "B1"
port = 2
service = "red"
kind = "capture"
read = "paths.in"
write = "./paths.last"
"#;

/// One bridge with two captures to be made, one of which can't be.
pub(super) const UNMADE: &str = r#"
[[bridge]]
name = "B1"
address = "02-00-00-00-00-01"

[[service]]
name = "red"
vid = 100

[[port]]
name = "P1"
bridge = "B1"
port = 1
service = "red"
kind = "capture"
read = "paths.in"
write = "paths.last"

[[port]]
name = "P2"
bridge = "B1"
port = 2
service = "red"
kind = "capture"
read = "paths.in"
write = "paths.none/out"
"#;

/// One bridge with a capture.
pub(super) const OVER: &str = r#"
[[bridge]]
name = "B1"
address = "02-00-00-00-00-01"

[[service]]
name = "red"
vid = 100

[[port]]
name = "P1"
bridge = "B1"
port = 1
service = "red"
kind = "capture"
read = "paths.in"
write = "paths.out"
"#;

/// One bridge with a socket that is made and a capture that can't be read.
pub(super) const UNLISTENED: &str = r#"
[[bridge]]
name = "B1"
address = "02-00-00-00-00-01"

[[service]]
name = "red"
vid = 100

[[port]]
name = "P2"
bridge = "B1"
port = 2
service = "red"
kind = "socket"
listen = "paths.last"

[[port]]
name = "P1"
bridge = "B1"
port = 1
service = "red"
kind = "capture"
read = "paths.none"
write = "paths.out"
"#;

/// One bridge with a capture that can't be read. Its path has a line feed and an escape character.
pub(super) const FORGED: &str = r#"
[[bridge]]
name = "B1"
address = "02-00-00-00-00-01"

[[service]]
name = "red"
vid = 100

[[port]]
name = "P1"
bridge = "B1"
port = 1
service = "red"
kind = "replay"
read = "paths.none/a\nport P2: x\u001b[31m"
"#;

/// One bridge with a memory port and a socket that is made. Workers take a limited number of turns.
pub(super) const LISTENER: &str = r#"
[network]
turns = 200000

[[bridge]]
name = "B1"
address = "02-00-00-00-00-01"

[[service]]
name = "red"
vid = 100

[[port]]
name = "C1"
bridge = "B1"
port = 1
service = "red"
in = ["ffffffffffff02000000010108004142"]

[[port]]
name = "P2"
bridge = "B1"
port = 2
service = "red"
kind = "socket"
listen = "peer.sock"
"#;

/// One bridge with long queues and a socket. A port with a script follows.
pub(super) const BUSY: &str = r#"
[network]
ring = 4096

[[bridge]]
name = "B1"
address = "02-00-00-00-00-01"
queue = 4096

[[service]]
name = "red"
vid = 100

[[port]]
name = "P2"
bridge = "B1"
port = 2
service = "red"
kind = "socket"
path = "peer.sock"
queue = 4096

[[port]]
name = "C1"
bridge = "B1"
port = 1
service = "red"
queue = 4096
"#;

/// One bridge with a memory port and a socket.
pub(super) const SOCKET: &str = r#"
[[bridge]]
name = "B1"
address = "02-00-00-00-00-01"

[[service]]
name = "red"
vid = 100

[[port]]
name = "C1"
bridge = "B1"
port = 1
service = "red"
in = ["ffffffffffff02000000010108004142"]

[[port]]
name = "P2"
bridge = "B1"
port = 2
service = "red"
kind = "socket"
path = "peer.sock"
"#;

/// One bridge with two ports. The first has a script, and the file of the other can't be written.
pub(super) const FULL: &str = r#"
[[bridge]]
name = "B1"
address = "02-00-00-00-00-01"

[[service]]
name = "red"
vid = 100

[[port]]
name = "C1"
bridge = "B1"
port = 1
service = "red"
in = ["ffffffffffff02000000010108004100", "ffffffffffff02000000010108004101", "ffffffffffff02000000010108004102"]

[[port]]
name = "C2"
bridge = "B1"
port = 2
service = "red"
kind = "capture"
read = "full.in"
write = "/dev/full"
"#;

/// A limit of one step, which a plan file follows.
pub(super) const ONE_STEP: &str = "[network]\nsteps = 1\n";

/// Bridges that decide the states of ports themselves, which a plan file follows.
pub(super) const RSTP: &str = "[network]\nspanning = \"rstp\"\n";

/// A clock that ticks at each thousandth turn, and a high limit of turns, which a plan file follows.
pub(super) const TICKS: &str = "[network]\nturns = 1000000000\ntick_every = 1000\n";

/// A limit that no network may have, which a plan file follows.
pub(super) const NO_TURN: &str = "[network]\nturns = 0\n";

/// A capture without frames.
pub(super) const NO_FRAMES: &[u8] =
    b"\xd4\xc3\xb2\xa1\x02\0\x04\0\0\0\0\0\0\0\0\0\xff\xff\0\0\x01\0\0\0";

/// A capture of one frame.
pub(super) const ONE_FRAME: &[u8] =
    b"\xd4\xc3\xb2\xa1\x02\0\x04\0\0\0\0\0\0\0\0\0\xff\xff\0\0\x01\0\0\0\0\0\0\0\0\0\0\0\x10\0\0\0\x10\0\0\0\xff\xff\
    \xff\xff\xff\xff\x02\0\0\0\x01\x01\x08\0AB";

/// Events that disable port 1 of B1 before the first turn, and once more long after.
pub(super) const SET_DOWN: &str = r#"
[[event]]
at = 4294967295
bridge = "B1"
port = 1
up = false

[[event]]
at = 0
bridge = "B1"
port = 1
up = false
"#;

/// Two events that never come, because no clock ticks.
pub(super) const NEVER: &str = r#"
[[event]]
at = 1
bridge = "B2"
port = 1
up = false

[[event]]
at = 1
bridge = "B1"
port = 1
up = true
"#;

/// A pair of bridges, of which the second does not list the service on its end of the link.
pub(super) const UNLISTED: &str = r#"
[[bridge]]
name = "B1"
address = "02-00-00-00-00-01"

[[bridge]]
name = "B2"
address = "02-00-00-00-00-02"

[[link]]
name = "L1"
a = "B1"
a_port = 1
b = "B2"
b_port = 1
b_services = []

[[service]]
name = "red"
vid = 100

[[port]]
name = "C1"
bridge = "B1"
port = 2
service = "red"
in = ["ffffffffffff02000000010108004142", "0180c200000e02000000010188cc4142"]

[[port]]
name = "C2"
bridge = "B2"
port = 2
service = "red"
"#;
