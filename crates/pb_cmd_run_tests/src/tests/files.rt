//! Ports over capture files.

use super::folder::{Contents, enter, has, is_missing, leave, make, wrong};
use super::plans::{
    CAPTURES, FORGED, FULL, LINKED, NO_FRAMES, ONE_FRAME, OVER, PATHS, SAME, TICKS, TWICE,
    UNLISTENED, UNMADE,
};
use super::sheet::Sheet;
use super::{Door, Manner, NetworkFault, PLAIN, Row, Told, check_under, run, run_past};
use pb_cmd_run::Strictness;
use std::fs;
use std::fs::Files;
use std::os::unix::fs::symlink;
use std::test::Fail;

/// The captures that ports P2 and P1 read, the result, its remarks, and the capture that P1 writes.
struct Captures {
    read: [&'static [u8]; 2],
    row: Row,
    remarks: &'static str,
    wrote: &'static [u8],
}

/// Captures with their results.
const CAPTURE_ROWS: &[Captures] = &[
    Captures {
        read: [ONE_FRAME, NO_FRAMES],
        row: Row {
            parts: ["", CAPTURES],
            told: Told {
                result: Ok(0),
                traffic: (1, 2),
                closed: 1,
            },
            report: "ended drained\nport P1 entered 0 left 1 filtered 0\nport P2 entered 1 left 0 filtered 0\n\
                port P3 entered 0 left 1 filtered 0\nforest yes\n",
        },
        remarks: "",
        wrote: ONE_FRAME,
    },
    Captures {
        read: [b"\0", &[0; 24]],
        row: Row {
            parts: ["", CAPTURES],
            told: Told {
                result: Ok(3),
                traffic: (0, 0),
                closed: 1,
            },
            report: "ended stopped\nport P1 entered 0 left 0 filtered 0\nport P2 entered 0 left 0 filtered 0\n\
                port P3 entered 0 left 0 filtered 0\nforest yes\nfault: port P2 4\nfault: port P1 1\n",
        },
        remarks: "port P2: input ends within a header, record or frame\nport P1: not a capture\n",
        wrote: NO_FRAMES,
    },
    Captures {
        read: [ONE_FRAME, b"\0"],
        row: Row {
            parts: ["", CAPTURES],
            told: Told {
                result: Ok(3),
                traffic: (1, 2),
                closed: 1,
            },
            report: "ended stopped\nport P1 entered 0 left 1 filtered 0\nport P2 entered 1 left 0 filtered 0\n\
                port P3 entered 0 left 1 filtered 0\nforest yes\nfault: port P1 4\n",
        },
        remarks: "port P1: input ends within a header, record or frame\n",
        wrote: ONE_FRAME,
    },
];

#[test]
fn captures_are_carried_and_their_faults_told(rt: HostRuntime) -> Result<(), Fail> {
    enter(&rt, rt.process())?;
    for captures in CAPTURE_ROWS {
        let [first, second] = captures.read;
        make(&rt, &[("p2.in", first), ("p1.in", second)])?;
        check_under(
            &rt,
            rt.alloc(),
            &captures.row,
            Strictness::Lenient,
            captures.remarks,
        )?;
        assert!(rt;
            has(&rt, "p1.out", captures.wrote),
            "{}",
            captures.row.report
        );
    }
    leave(&rt, rt.process())?;
    Ok(())
}

/// Two captures, the first of which is pcapng.
const PCAPNG: Row = Row {
    parts: ["", CAPTURES],
    told: Told {
        result: Ok(3),
        traffic: (0, 0),
        closed: 1,
    },
    report: "ended stopped\nport P1 entered 0 left 0 filtered 0\nport P2 entered 0 left 0 filtered 0\n\
        port P3 entered 0 left 0 filtered 0\nforest yes\nfault: port P2 1\nfault: port P1 1\n",
};

/// The files of `PCAPNG`.
const PCAPNG_FILES: Contents = &[
    (
        "p2.in",
        b"\n\r\r\n\x1c\0\0\0\x4d\x3c\x2b\x1a\x01\0\0\0\xff\xff\xff\xff\xff\xff\xff\xff",
    ),
    (
        "p1.in",
        b"\r\r\n\n\x1c\0\0\0\x4d\x3c\x2b\x1a\x01\0\0\0\xff\xff\xff\xff\xff\xff\xff\xff",
    ),
];

#[test]
fn pcapng_is_told(rt: HostRuntime) -> Result<(), Fail> {
    enter(&rt, rt.process())?;
    make(&rt, PCAPNG_FILES)?;
    let remarks = "error: port P2: cannot read p2.in: it is a pcapng file\n\
        hint: convert it to pcap by `editcap -F pcap`\nport P2: not a capture\nport P1: not a capture\n";
    check_under(&rt, rt.alloc(), &PCAPNG, Strictness::Lenient, remarks)?;
    leave(&rt, rt.process())?;
    Ok(())
}

#[test]
fn frames_that_are_not_written_are_told(rt: HostRuntime) -> Result<(), Fail> {
    enter(&rt, rt.process())?;
    make(&rt, &[("full.in", NO_FRAMES)])?;
    let mut output = Sheet::front(b"ended drained\nport C1 entered 3 left 0 filtered 0\n");
    let mut errors = Sheet::whole(
        b"error: port C2: write /dev/full: No space left on device (os error 28)\n\
          port C2: 3 frames not written\n",
    );
    let told = run(&rt, rt.alloc(), ["", FULL], PLAIN, &mut output, &mut errors)?;
    let came = (told.result, output.is_right(), errors.is_right());
    assert_eq!(rt; came, (Ok(0), true, true));
    leave(&rt, rt.process())?;
    Ok(())
}

/// Returns the seconds of a capture's first record.
fn seconds_of(capture: &[u8]) -> u64 {
    let octet = |place: usize| capture.get(place).copied().unwrap_or(255);
    u64::from(u32::from_le_bytes([octet(24), octet(25), octet(26), octet(27)]))
}

/// Returns the length of a capture in octets, and the seconds of its first record.
fn measured<R: Files + AllocGlobal>(rt: &R, name: &str) -> (usize, u64) {
    match fs::read(rt, name) {
        Ok(found) => (found.len(), seconds_of(found.as_slice())),
        Err(_) => (0, 0),
    }
}

#[test]
fn seconds_of_captures_are_those_of_the_workers_turns(rt: HostRuntime) -> Result<(), Fail> {
    enter(&rt, rt.process())?;
    make(&rt, &[("p2.in", ONE_FRAME), ("p1.in", NO_FRAMES)])?;
    let door = Door::new();
    let (mut output, mut errors) = (Sheet::front(b""), Sheet::front(b""));
    let parts = [TICKS, CAPTURES];
    let told = run_past(
        &rt,
        rt.alloc(),
        parts,
        PLAIN,
        &door,
        &mut output,
        &mut errors,
    )?;
    let (length, seconds) = measured(&rt, "p1.out");
    assert_eq!(rt; (told.result, length), (Ok(0), ONE_FRAME.len()));
    assert!(rt; seconds <= door.turns() / 1_000);
    leave(&rt, rt.process())?;
    Ok(())
}

/// A run that can't open its files: a plan file, the remark on standard error, and a file that must not be there
/// afterwards. The files of `KEPT` stay as they were.
struct Refused {
    path: &'static str,
    plan: &'static str,
    told: &'static [u8],
    missing: &'static str,
}

/// Runs that can't open their files. Before the first, `paths.in` and `paths.out` hold one frame, `again.in` is another
/// name of `paths.in`, and `paths.again` leads to `paths.out`.
const REFUSED: &[Refused] = &[
    // A socket after a capture is missing: the capture is not emptied.
    Refused {
        path: "plan.toml",
        plan: PATHS,
        told: b"error: port P2: connect paths.none: No such file or directory (os error 2)\n",
        missing: "paths.last",
    },
    // One path is read and written: the input is not emptied.
    Refused {
        path: "plan.toml",
        plan: SAME,
        told: b"error: port P1: write .//paths.in: also read by port P1\n",
        missing: "paths.last",
    },
    // Two names of one file.
    Refused {
        path: "plan.toml",
        plan: LINKED,
        told: b"error: port P1: write again.in: also read by port P1\n",
        missing: "paths.last",
    },
    // Two ports write one file that is not there.
    Refused {
        path: "plan.toml",
        plan: TWICE,
        told: b"error: port P2: write ./paths.last: also written by port P1\n",
        missing: "paths.last",
    },
    // The second output can't be made: the first, which was made, is removed.
    Refused {
        path: "plan.toml",
        plan: UNMADE,
        told: b"error: port P2: write paths.none/out: No such file or directory (os error 2)\n",
        missing: "paths.last",
    },
    // A port writes the plan file: it is not emptied.
    Refused {
        path: ".//paths.out",
        plan: OVER,
        told: b"error: port P1: write paths.out: also the plan file\n",
        missing: "paths.last",
    },
    // A port writes the plan file by another name.
    Refused {
        path: "paths.again",
        plan: OVER,
        told: b"error: port P1: write paths.out: also the plan file\n",
        missing: "paths.last",
    },
    // A file to read is missing after a socket that was made.
    Refused {
        path: "plan.toml",
        plan: UNLISTENED,
        told: b"error: port P1: read paths.none: No such file or directory (os error 2)\n",
        missing: "paths.last",
    },
    // A path with control characters is printed on one line.
    Refused {
        path: "plan.toml",
        plan: FORGED,
        told: b"error: port P1: read paths.none/a\\nport P2: x\\u001b[31m: No such file or directory (os error 2)\n",
        missing: "paths.last",
    },
];

/// The files that stay as they were.
const KEPT: Contents = &[("paths.in", ONE_FRAME), ("paths.out", ONE_FRAME)];

#[test]
fn a_run_that_cannot_open_its_files_leaves_them(rt: HostRuntime) -> Result<(), Fail> {
    enter(&rt, rt.process())?;
    make(&rt, KEPT)?;
    fs::hard_link(&rt, "paths.in", "again.in")?;
    symlink(&rt, "paths.out", "paths.again")?;
    for row in REFUSED {
        let (mut output, mut errors) = (Sheet::whole(b""), Sheet::whole(row.told));
        let manner = Manner {
            path: row.path,
            ..PLAIN
        };
        let told = run(
            &rt,
            rt.alloc(),
            ["", row.plan],
            manner,
            &mut output,
            &mut errors,
        )?;
        let came = (told.result, output.is_right(), errors.is_right());
        assert_eq!(rt; came, (Err(NetworkFault::Path), true, true), "{}", row.plan);
        let kept = (wrong(&rt, KEPT), is_missing(&rt, row.missing));
        assert_eq!(rt; kept, ("", true), "{}", row.plan);
    }
    leave(&rt, rt.process())?;
    Ok(())
}

#[test]
fn files_to_read_are_opened_before_any_is_made(rt: HostRuntime) -> Result<(), Fail> {
    enter(&rt, rt.process())?;
    let mut output = Sheet::whole(b"");
    let mut errors = Sheet::whole(
        b"error: port P3: read paths.in: No such file or directory (os error 2)\n",
    );
    let told = run(
        &rt,
        rt.alloc(),
        ["", PATHS],
        PLAIN,
        &mut output,
        &mut errors,
    )?;
    let came = (told.result, output.is_right(), errors.is_right());
    assert_eq!(rt; came, (Err(NetworkFault::Path), true, true));
    let are_missing = (is_missing(&rt, "paths.out"), is_missing(&rt, "paths.last"));
    assert_eq!(rt; are_missing, (true, true));
    leave(&rt, rt.process())?;
    Ok(())
}
