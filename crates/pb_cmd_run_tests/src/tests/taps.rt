//! Captures of what crosses a link.

use super::folder::{Contents, enter, is_missing, leave, make, wrong};
use super::plans::{NO_FRAMES, ONE_FRAME};
use super::sheet::Sheet;
use super::{Manner, NetworkFault, PLAIN, Row, Told, check, run};
use std::fs::Files;
use std::test::Fail;

/// Two bridges, joined by a link. A frame enters at P1, and leaves at P2.
const PLAN: &str = r#"
[[bridge]]
name = "B1"
address = "02-00-00-00-00-01"

[[bridge]]
name = "B2"
address = "02-00-00-00-00-02"

[[link]]
name = "L1"
a = "B1"
a_port = 1
b = "B2"
b_port = 1

[[service]]
name = "red"
vid = 100

[[port]]
name = "P1"
bridge = "B1"
port = 2
service = "red"
in = ["ffffffffffff02000000010108004142"]

[[port]]
name = "P2"
bridge = "B2"
port = 2
service = "red"
"#;

/// Four taps of the link.
const TAPS: &str = r#"
[[tap]]
link = "L1"
write = "both.pcap"

[[tap]]
link = "L1"
write = "ab.pcap"
direction = "ab"
stamp = "ticks"

[[tap]]
link = "L1"
write = "ba.pcap"
direction = "ba"

[[tap]]
link = "L1"
write = "again.pcap"
direction = "both"
"#;

/// The capture of the frame with its S-tag.
const TAGGED: &[u8] =
    b"\xd4\xc3\xb2\xa1\x02\0\x04\0\0\0\0\0\0\0\0\0\xff\xff\0\0\x01\0\0\0\0\0\0\0\0\0\0\0\x14\0\0\0\x14\0\0\0\xff\xff\
    \xff\xff\xff\xff\x02\0\0\0\x01\x01\x88\xa8\0\x64\x08\0AB";

/// What the taps write.
const WRITTEN: Contents = &[
    ("both.pcap", TAGGED),
    ("ab.pcap", TAGGED),
    ("ba.pcap", NO_FRAMES),
    ("again.pcap", TAGGED),
];

/// The result.
const CARRIED: Row = Row {
    parts: [TAPS, PLAN],
    told: Told {
        result: Ok(0),
        traffic: (1, 1),
        closed: 1,
    },
    report: "ended drained\nport P1 entered 1 left 0 filtered 0\nport P2 entered 0 left 1 filtered 0\n\
        link L1 ab taken 1 lost 0 ba taken 0 lost 0\nforest yes\n",
};

#[test]
fn taps_capture_what_crosses(rt: HostRuntime) -> Result<(), Fail> {
    enter(&rt, rt.process())?;
    make(&rt, &[("ba.pcap", ONE_FRAME)])?;
    check(&rt, rt.alloc(), &CARRIED)?;
    assert_eq!(rt; wrong(&rt, WRITTEN), "");
    leave(&rt, rt.process())?;
    Ok(())
}

/// A run that can't open the file of a tap: its taps, and the remark on standard error.
struct Refused {
    taps: &'static str,
    told: &'static [u8],
}

/// Runs that can't open the files of taps.
const REFUSED: &[Refused] = &[
    // Two taps write one file.
    Refused {
        taps: "[[tap]]\nlink = \"L1\"\nwrite = \"tap.pcap\"\n[[tap]]\nlink = \"L1\"\nwrite = \"./tap.pcap\"\n\
            direction = \"ab\"\n",
        told: b"error: tap of link L1: write ./tap.pcap: also written by tap of link L1\n",
    },
    // A tap writes the plan file.
    Refused {
        taps: "[[tap]]\nlink = \"L1\"\nwrite = \"plan.toml\"\n",
        told: b"error: tap of link L1: write plan.toml: also the plan file\n",
    },
    // The second file can't be made: the first, which was made, is removed.
    Refused {
        taps: "[[tap]]\nlink = \"L1\"\nwrite = \"tap.pcap\"\n[[tap]]\nlink = \"L1\"\nwrite = \"no/tap.pcap\"\n",
        told: b"error: tap of link L1: write no/tap.pcap: No such file or directory (os error 2)\n",
    },
];

#[test]
fn taps_whose_files_cannot_be_opened_are_refused(rt: HostRuntime) -> Result<(), Fail> {
    enter(&rt, rt.process())?;
    make(&rt, &[("plan.toml", ONE_FRAME)])?;
    for row in REFUSED {
        let (mut output, mut errors) = (Sheet::whole(b""), Sheet::whole(row.told));
        let manner = Manner {
            path: "plan.toml",
            ..PLAIN
        };
        let parts = [row.taps, PLAN];
        let told = run(&rt, rt.alloc(), parts, manner, &mut output, &mut errors)?;
        let came = (told.result, output.is_right(), errors.is_right());
        assert_eq!(rt; came, (Err(NetworkFault::Path), true, true), "{}", row.taps);
        assert!(rt; is_missing(&rt, "tap.pcap"), "{}", row.taps);
    }
    assert_eq!(rt; wrong(&rt, &[("plan.toml", ONE_FRAME)]), "");
    leave(&rt, rt.process())?;
    Ok(())
}
