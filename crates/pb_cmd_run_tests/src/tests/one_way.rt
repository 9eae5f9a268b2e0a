//! Ports that write or read one capture.

use super::folder::{Contents, enter, leave, make, wrong};
use super::plans::{NO_FRAMES, ONE_FRAME};
use super::{Row, Told, check, check_under};
use pb_cmd_run::Strictness;
use std::test::Fail;

/// A port that reads a capture, a port that writes one, and a port that sends the frame of `ONE_FRAME`.
const PLAN: &str = r#"
[[bridge]]
name = "B1"
address = "02-00-00-00-00-01"

[[service]]
name = "red"
vid = 100

[[port]]
name = "in"
bridge = "B1"
port = 1
service = "red"
kind = "replay"
read = "one.in"

[[port]]
name = "out"
bridge = "B1"
port = 2
service = "red"
kind = "record"
write = "one.out"

[[port]]
name = "sender"
bridge = "B1"
port = 3
service = "red"
in = ["ffffffffffff02000000010108004142"]
"#;

/// The result if the capture that is read has one frame.
const CARRIED: Row = Row {
    parts: ["", PLAN],
    told: Told {
        result: Ok(0),
        traffic: (2, 4),
        closed: 1,
    },
    report: "ended drained\nport in entered 1 left 1 filtered 0\nport out entered 0 left 2 filtered 0\n\
        port sender entered 1 left 1 filtered 0\nforest yes\n",
};

/// The capture of both frames.
const BOTH: Contents = &[(
    "one.out",
    b"\xd4\xc3\xb2\xa1\x02\0\x04\0\0\0\0\0\0\0\0\0\xff\xff\0\0\x01\0\0\0\0\0\0\0\0\0\0\0\x10\0\0\0\x10\0\0\0\xff\xff\
    \xff\xff\xff\xff\x02\0\0\0\x01\x01\x08\0AB\0\0\0\0\0\0\0\0\x10\0\0\0\x10\0\0\0\xff\xff\xff\xff\xff\xff\x02\0\0\0\
    \x01\x01\x08\0AB",
)];

#[test]
fn captures_are_read_and_written_alone(rt: HostRuntime) -> Result<(), Fail> {
    enter(&rt, rt.process())?;
    make(&rt, &[("one.in", ONE_FRAME)])?;
    check(&rt, rt.alloc(), &CARRIED)?;
    assert_eq!(rt; wrong(&rt, BOTH), "");
    leave(&rt, rt.process())?;
    Ok(())
}

/// A port that reads a file, and a port that writes a capture.
const QUIET: &str = r#"
[[bridge]]
name = "B1"
address = "02-00-00-00-00-01"

[[service]]
name = "red"
vid = 100

[[port]]
name = "in"
bridge = "B1"
port = 1
service = "red"
kind = "replay"
read = "one.in"

[[port]]
name = "out"
bridge = "B1"
port = 2
service = "red"
kind = "record"
write = "one.out"
"#;

/// The result if the file is pcapng.
const REFUSED: Row = Row {
    parts: ["", QUIET],
    told: Told {
        result: Ok(3),
        traffic: (0, 0),
        closed: 1,
    },
    report: "ended stopped\nport in entered 0 left 0 filtered 0\nport out entered 0 left 0 filtered 0\nforest yes\n\
        fault: port in 1\n",
};

/// The remarks of that run.
const REMARKS: &str = "error: port in: cannot read one.in: it is a pcapng file\n\
    hint: convert it to pcap by `editcap -F pcap`\nport in: not a capture\n";

#[test]
fn a_capture_that_is_only_read_or_written_may_be_wrong_or_empty(
    rt: HostRuntime,
) -> Result<(), Fail> {
    enter(&rt, rt.process())?;
    make(
        &rt,
        &[(
            "one.in",
            b"\n\r\r\n\x1c\0\0\0\x4d\x3c\x2b\x1a\x01\0\0\0\xff\xff\xff\xff\xff\xff\xff\xff",
        )],
    )?;
    check_under(&rt, rt.alloc(), &REFUSED, Strictness::Lenient, REMARKS)?;
    assert_eq!(rt; wrong(&rt, &[("one.out", NO_FRAMES)]), "");
    leave(&rt, rt.process())?;
    Ok(())
}
