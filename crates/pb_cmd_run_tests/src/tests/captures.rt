//! The example `captures`, as in its files.

use super::folder::{Contents, enter, leave, make, wrong};
use super::plans::NO_FRAMES;
use super::{Row, Told, check_under};
use pb_cmd_run::Strictness;
use std::fs::Files;
use std::test::Fail;
use std::{fs, io};

/// The plan file.
pub(super) const PLAN: &str =
    r#"# The metro ring of metro.toml between capture files: what the provider and a camera sent is read from captures,
# and what leaves at each of the seven sites is written to one. Paths are those seen from the project's folder.

[[bridge]]
name = "Centre"
address = "02-00-00-00-00-01"

[[bridge]]
name = "Harbour"
address = "02-00-00-00-00-02"

[[bridge]]
name = "Lakeside"
address = "02-00-00-00-00-03"

[[bridge]]
name = "Station"
address = "02-00-00-00-00-04"

[[bridge]]
name = "Airport"
address = "02-00-00-00-00-05"

[[bridge]]
name = "Campus"
address = "02-00-00-00-00-06"

[[link]]
name = "ring1"
a = "Centre"
a_port = 1
b = "Harbour"
b_port = 2

[[link]]
name = "ring2"
a = "Harbour"
a_port = 1
b = "Lakeside"
b_port = 2

[[link]]
name = "ring3"
a = "Lakeside"
a_port = 1
b = "Station"
b_port = 2
b_state = "discarding"

[[link]]
name = "ring4"
a = "Station"
a_port = 1
b = "Airport"
b_port = 2

[[link]]
name = "ring5"
a = "Airport"
a_port = 1
b = "Campus"
b_port = 2

[[link]]
name = "ring6"
a = "Campus"
a_port = 1
b = "Centre"
b_port = 2

[[service]]
name = "internet"
vid = 100

[[service]]
name = "voice"
vid = 200

[[service]]
name = "surveillance"
vid = 300

[[port]]
name = "provider"
bridge = "Centre"
port = 3
service = "internet"
kind = "capture"
read = "examples/captures/provider.pcap"
write = "out/provider.pcap"

[[port]]
name = "shop"
bridge = "Lakeside"
port = 3
service = "internet"
kind = "record"
write = "out/shop.pcap"

[[port]]
name = "hotel"
bridge = "Airport"
port = 3
service = "internet"
kind = "record"
write = "out/hotel.pcap"

[[port]]
name = "exchange"
bridge = "Centre"
port = 4
service = "voice"
pcp = 5
kind = "record"
write = "out/exchange.pcap"

[[port]]
name = "office"
bridge = "Station"
port = 4
service = "voice"
pcp = 5
kind = "record"
write = "out/office.pcap"

[[port]]
name = "camera"
bridge = "Harbour"
port = 5
service = "surveillance"
kind = "capture"
read = "examples/captures/camera.pcap"
write = "out/camera.pcap"

[[port]]
name = "desk"
bridge = "Campus"
port = 5
service = "surveillance"
kind = "record"
write = "out/desk.pcap"
"#;

/// The report.
const REPORT: &str = r#"ended drained
port camera entered 2 left 0 filtered 0
port desk entered 0 left 2 filtered 0
port exchange entered 0 left 0 filtered 0
port hotel entered 0 left 3 filtered 0
port office entered 0 left 0 filtered 0
port provider entered 3 left 0 filtered 0
port shop entered 0 left 3 filtered 0
link ring1 ab taken 3 lost 0 ba taken 2 lost 0
link ring2 ab taken 5 lost 0 ba taken 0 lost 0
link ring3 ab taken 5 lost 0 ba taken 0 lost 0
link ring4 ab taken 0 lost 0 ba taken 5 lost 0
link ring5 ab taken 0 lost 0 ba taken 5 lost 0
link ring6 ab taken 0 lost 0 ba taken 5 lost 0
forest yes
"#;

/// The frames that the provider sent.
const PROVIDER: &[u8] =
    b"\xd4\xc3\xb2\xa1\x02\0\x04\0\0\0\0\0\0\0\0\0\xff\xff\0\0\x01\0\0\0\0\0\0\0\0\0\0\0\x2a\0\0\0\x2a\0\0\0\xff\xff\
    \xff\xff\xff\xff\x02\0\0\0\x01\x01\x08\x06\0\x01\x08\0\x06\x04\0\x01\x02\0\0\0\x01\x01\0\0\0\0\0\0\0\0\0\0\xc0\0\
    \x02\x01\0\0\0\0\0\0\0\0\x2b\0\0\0\x2b\0\0\0\x01\0\x5e\0\0\x01\x02\0\0\0\x01\x01\x08\0\x45\0\0\x20\0\0\0\0\x40\x02\
    \0\0\0\0\0\0\0\xe0\0\0\x01\0\0\0\0\0\0\0\0\0\0\0\0\0\0\0\0\x22\0\0\0\x22\0\0\0\x02\0\0\0\x03\x01\x02\0\0\0\x01\x01\
    \x08\0\x45\0\0\x14\0\0\0\0\x40\0\0\0\xc0\0\x02\x01\xc0\0\x02\x03";

/// The frames that the camera sent.
const CAMERA: &[u8] =
    b"\xd4\xc3\xb2\xa1\x02\0\x04\0\0\0\0\0\0\0\0\0\xff\xff\0\0\x01\0\0\0\0\0\0\0\0\0\0\0\x23\0\0\0\x23\0\0\0\x02\0\0\0\
    \x05\x02\x02\0\0\0\x05\x01\x08\0\x45\0\0\x15\0\0\0\0\x40\x11\0\0\x0a\x03\0\x01\x0a\x03\0\x02\x58\0\0\0\0\0\0\0\0\
    \x27\0\0\0\x27\0\0\0\x02\0\0\0\x05\x02\x02\0\0\0\x05\x01\x81\0\0\x07\x08\0\x45\0\0\x15\0\0\0\0\x40\x11\0\0\x0a\x03\
    \0\x01\x0a\x03\0\x02\x59";

/// The result of the run.
const ROW: Row = Row {
    parts: ["", PLAN],
    told: Told {
        result: Ok(0),
        traffic: (5, 8),
        closed: 1,
    },
    report: REPORT,
};

/// What standard error has of the run: the ring has one blocked port, at which copies of all frames end.
const DROPPED: &str = "bridge Station port 1: 5 frames dropped: no-port\n\
    bridge Station port 2: 5 frames dropped: not-forwarding\n";

/// The captures that are read.
const READ: Contents = &[
    ("examples/captures/provider.pcap", PROVIDER),
    ("examples/captures/camera.pcap", CAMERA),
];

/// The captures that are written.
const WRITTEN: Contents = &[
    ("out/shop.pcap", PROVIDER),
    ("out/hotel.pcap", PROVIDER),
    ("out/desk.pcap", CAMERA),
    ("out/office.pcap", NO_FRAMES),
];

/// Makes the folders of the example.
fn make_folders<R: Files>(rt: &R) -> io::Result<()> {
    for folder in ["examples", "examples/captures", "out"] {
        fs::create_dir(rt, folder)?;
    }
    Ok(())
}

#[test]
fn the_captures_of_the_example_are_carried(rt: HostRuntime) -> Result<(), Fail> {
    enter(&rt, rt.process())?;
    make_folders(&rt)?;
    make(&rt, READ)?;
    check_under(&rt, rt.alloc(), &ROW, Strictness::Strict, DROPPED)?;
    assert_eq!(rt; wrong(&rt, WRITTEN), "");
    leave(&rt, rt.process())?;
    Ok(())
}
