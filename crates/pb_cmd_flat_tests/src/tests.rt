//! Runs of `flat`.

ghost use Rattle.std.specs.Prelude.{◌≡◌, [], true, OnOk};

mod examples;
mod explained;
mod many;

use explained::explained;
use pb_cmd_flat::{Switch, run_flat, run_flat_on};
use pb_fakes::{Full, Slow, Unflushed};
use pb_frame::hex_octets;
use pb_lan::Reason;
use pb_messages::{CommandFault, put_reason};
use std::alloc::Global;
use std::io::ErrorKind;
use std::process::Abort;
use std::test::Fail;

/// Asserts the output for an input at a bridge with so many ports.
fn ran(rt: &impl Abort, alloc: Global, ports: u8, input: &str, want: &str) {
    assert!(rt; 2 <= ports && ports <= 16);
    let mut output = Vec::new(alloc);
    let mut reader = input.as_bytes();
    let result = explained(alloc, ports, &mut reader, &mut output);
    assert!(rt; result.is_ok(), "{input}");
    assert!(rt; output.as_slice() == want.as_bytes(), "{input}");
}

/// Asserts the beginning of the output for a frame of zeros, except its first octets, at port 1 of 2.
fn ran_long(
    rt: &impl Abort,
    alloc: Global,
    front: &str,
    octets: usize,
    want: &str,
) -> Result<(), Fail> {
    let mut input = String::from_str(alloc, "in 1 ")?;
    input.push_str(front)?;
    for _ in front.len() / 2..octets {
        input.push_str("00")?;
    }
    let mut output = Vec::new(alloc);
    let mut reader = input.as_bytes();
    let result = run_flat(alloc, 2, &mut reader, &mut output);
    assert!(rt; result.is_ok(), "{front} {octets}");
    assert!(rt;
        output.as_slice().starts_with(want.as_bytes()),
        "{front} {octets}"
    );
    Ok(())
}

/// Asserts the output for an input at a bridge that has read nothing before.
fn reads(rt: &impl Abort, alloc: Global, switch: &mut Switch, row: (&str, &str)) -> Result<(), Fail>
    requires ready { switch.old.is_ready ≡ true }
    requires fresh { switch.old.steps ≡ [] }
{
    let (input, want) = row;
    let mut output = Vec::new(alloc);
    let mut reader = input.as_bytes();
    run_flat_on(alloc, switch, &mut reader, &mut output)?;
    assert_eq!(rt; output.as_slice(), want.as_bytes());
    Ok(())
}

#[test]
fn a_switch_stays_after_its_run(rt: HostRuntime) -> Result<(), Fail> {
    let alloc = rt.alloc();
    let mut switch = Switch::new(alloc, 2)?;
    reads(&rt, alloc, &mut switch, ("in 1 4g\n", "line 1: bad\n"))?;
    assert_eq!(rt; switch.ports(), 2);
    Ok(())
}

/// Asserts the lines for a frame at a port, and that they follow the earlier output.
fn answers(
    rt: &impl Abort,
    alloc: Global,
    switch: &mut Switch,
    row: (u8, &str, &str, &str),
) -> Result<(), Fail>
    requires { switch.old.is_ready ≡ true }
    ensures { OnOk result (switch.new.is_ready ≡ true) }
{
    let (port, digits, before, want) = row;
    assert!(rt; 1 <= port && port <= switch.ports());
    let frame = hex_octets(alloc, digits.as_bytes())?;
    let mut out = Vec::from_slice(alloc, before.as_bytes())?;
    switch.handle(alloc, port, frame, digits.as_bytes(), &mut out)?;
    assert_eq!(rt; out.as_slice(), want.as_bytes());
    Ok(())
}

#[test]
fn a_switch_answers_behind_what_stands_there(rt: HostRuntime) -> Result<(), Fail> {
    const BROADCAST: &str = "ffffffffffff02000000010108004142";
    const FLOODED: &str =
        "before\nout 1 ffffffffffff02000000010108004142\nout 3 ffffffffffff02000000010108004142\n";
    let alloc = rt.alloc();
    let mut switch = Switch::new(alloc, 3)?;
    answers(&rt, alloc, &mut switch, (2, BROADCAST, "before\n", FLOODED))?;
    answers(
        &rt,
        alloc,
        &mut switch,
        (3, "4142", "", "filtered 3 malformed\n"),
    )
}

#[test]
fn a_flood_leaves_fifteen_ports(rt: HostRuntime) -> Result<(), Fail> {
    const OTHERS: [&str; 15] = [
        "2", "3", "4", "5", "6", "7", "8", "9", "10", "11", "12", "13", "14", "15", "16",
    ];
    let alloc = rt.alloc();
    let mut want = String::new(alloc);
    for port in OTHERS {
        want.push_str("out ")?;
        want.push_str(port)?;
        want.push_str(" ffffffffffff02000000010108004142\n")?;
    }
    let broadcast = "in 1 ffffffffffff02000000010108004142\n";
    ran(&rt, alloc, 16, broadcast, want.as_str());
    Ok(())
}

#[test]
fn floods_and_finds_stations(rt: HostRuntime) -> Result<(), Fail> {
    let alloc = rt.alloc();
    ran(&rt, alloc, 3, "", "");
    ran(
        &rt,
        alloc,
        3,
        "in 1 ffffffffffff02000000010108004142",
        "out 2 ffffffffffff02000000010108004142\nout 3 ffffffffffff02000000010108004142\n",
    );
    ran(
        &rt,
        alloc,
        3,
        "in 1 ffffffffffff02000000010108004142\nin 2 02000000010102000000020208004344\n\
        in 1 0200000001010200000001010800\n",
        "out 2 ffffffffffff02000000010108004142\nout 3 ffffffffffff02000000010108004142\n\
        out 1 02000000010102000000020208004344\n",
    );
    ran(
        &rt,
        alloc,
        2,
        "in 1 FFFFFFFFFFFF02000000010108004142\n",
        "out 2 ffffffffffff02000000010108004142\n",
    );
    Ok(())
}

#[test]
fn tells_bad_lines(rt: HostRuntime) -> Result<(), Fail> {
    let alloc = rt.alloc();
    for line in [
        "in 3 00",
        "in 0 00",
        "in 1 ",
        "in 1",
        "in 1  00",
        "in  1 00",
        "in 01 00",
        "in +1 00",
        "in 1 0",
        "in 1 0g",
        "in 1 00 ",
        " in 1 00",
        "IN 1 00",
        "in\t1 00",
        "in 1 00\r",
        "\r",
        "in 1000 00",
        "in 257 00",
        "out 1 00",
    ] {
        ran(&rt, alloc, 2, line, "line 1: bad\n");
    }
    ran(
        &rt,
        alloc,
        2,
        "in 1 0000\nin 3 00\nin 1 \n\nin 2 0\r\n",
        "filtered 1 malformed\nline 2: bad\nline 3: bad\nline 5: bad\n",
    );
    ran(&rt, alloc, 2, "\n\n", "");
    Ok(())
}

#[test]
fn filters_with_a_reason(rt: HostRuntime) -> Result<(), Fail> {
    let alloc = rt.alloc();
    for (input, want) in [
        ("in 1 0000", "filtered 1 malformed\n"),
        (
            "in 1 0180c20000080200000001010000",
            "filtered 1 reserved-8\n",
        ),
        (
            "in 1 0180c200000f0200000001010000",
            "out 2 0180c200000f0200000001010000\n",
        ),
        (
            "in 1 0180c200000e0200000001010000",
            "filtered 1 reserved-14\n",
        ),
        (
            "in 2 ffffffffffff02000000010288a800640000",
            "filtered 2 s-tagged\n",
        ),
        (
            "in 1 ffffffffffff02000000010188a8a00008004142",
            "out 2 ffffffffffff02000000010108004142\n",
        ),
        // A tag that is cut off is not a whole tag, but its type is there.
        (
            "in 1 ffffffffffff02000000010188a8000000",
            "filtered 1 s-tagged\n",
        ),
    ] {
        ran(&rt, alloc, 2, input, want);
    }
    Ok(())
}

#[test]
fn measures_frames(rt: HostRuntime) -> Result<(), Fail> {
    let alloc = rt.alloc();
    let plain = "ffffffffffff0200000001010800";
    let marked = "ffffffffffff02000000010188a80000";
    for (front, octets, want) in [
        (
            "ffffffffffff02000000010108",
            13usize,
            "filtered 1 malformed\n",
        ),
        (plain, 14, "out 2 ffffffffffff0200000001010800\n"),
        (plain, 1992, "out 2 ffffffffffff020000000101080000"),
        (plain, 1993, "filtered 1 long\n"),
        (marked, 1996, "out 2 ffffffffffff0200000001010000"),
        (marked, 1997, "filtered 1 long\n"),
    ] {
        ran_long(&rt, alloc, front, octets, want)?;
    }
    Ok(())
}

#[test]
fn takes_lines_up_to_the_longest(rt: HostRuntime) -> Result<(), Fail> {
    let alloc = rt.alloc();
    for (digits, want) in [
        (139_994usize, "filtered 1 long\n"),
        (139_995, "line 1: bad\n"),
        (139_996, "line 1: bad\n"),
        (400_000, "line 1: bad\n"),
    ] {
        let mut text = String::from_str(alloc, "in 1 ")?;
        for _ in 0..digits {
            text.push('0')?;
        }
        ran(&rt, alloc, 2, text.as_str(), want);
    }
    // A line of exactly the maximum length, and one that is two octets longer.
    let mut longest = String::from_str(alloc, "in 10 ")?;
    for _ in 0..139_994usize {
        longest.push('0')?;
    }
    assert!(rt; longest.len() == 140_000);
    ran(&rt, alloc, 16, longest.as_str(), "filtered 10 long\n");
    longest.push_str("00")?;
    ran(&rt, alloc, 16, longest.as_str(), "line 1: bad\n");
    Ok(())
}

#[test]
fn has_a_word_for_each_reason(rt: HostRuntime) -> Result<(), Fail> {
    for (reason, want) in [
        (Reason::NotForwarding, "filtered not-forwarding"),
        (Reason::NotMember, "filtered not-member"),
        (Reason::Untagged, "filtered untagged"),
        (Reason::Reserved(14), "filtered reserved-14"),
        (Reason::Malformed, "filtered malformed"),
        (Reason::Worn, "filtered worn"),
        (Reason::Memory, "filtered memory"),
        (Reason::STagged, "filtered s-tagged"),
        (Reason::Long, "filtered long"),
    ] {
        let mut out = String::from_str(rt.alloc(), "filtered ")?;
        put_reason(&mut out, reason)?;
        assert!(rt; out.as_str() == want, "{want}");
    }
    Ok(())
}

#[test]
fn prints_frames_without_priority_tag(rt: HostRuntime) {
    let want = "out 2 ffffffffffff02000000010108004142\nout 3 ffffffffffff02000000010108004142\n";
    for input in [
        "in 1 ffffffffffff02000000010108004142",
        "in 1 ffffffffffff02000000010188a8e00008004142",
    ] {
        ran(&rt, rt.alloc(), 3, input, want);
    }
}

/// An input of two frames and an invalid line.
const PIECES: &str = "in 1 0000\nhop\nin 2 0000";

/// The output for `PIECES`.
const PIECES_ANSWER: &[u8] = b"filtered 1 malformed\nline 2: bad\nfiltered 2 malformed\n";

#[test]
fn reads_in_any_pieces(rt: HostRuntime) -> Result<(), Fail> {
    let alloc = rt.alloc();
    for most in 1..25usize {
        for fails_at in 0..27u64 {
            let mut reader = Slow {
                rest: PIECES.as_bytes(),
                most,
                calls: 0,
                fails_at,
                kind: ErrorKind::Interrupted,
            };
            let mut output = Vec::new(alloc);
            assert!(rt; run_flat(alloc, 2, &mut reader, &mut output).is_ok());
            assert!(rt; output.as_slice() == PIECES_ANSWER, "{most} {fails_at}");
        }
    }
    Ok(())
}

#[test]
fn tells_a_failed_read(rt: HostRuntime) -> Result<(), Fail> {
    let alloc = rt.alloc();
    for most in 1..25usize {
        // The end is found in one more call.
        let calls = (PIECES.len() as u64).div_ceil(most as u64) + 1;
        for fails_at in 0..27u64 {
            let mut reader = Slow {
                rest: PIECES.as_bytes(),
                most,
                calls: 0,
                fails_at,
                kind: ErrorKind::BrokenPipe,
            };
            let mut output = Vec::new(alloc);
            let result = run_flat(alloc, 2, &mut reader, &mut output);
            let want = if fails_at < calls {
                Err(CommandFault::Read)
            } else {
                Ok(())
            };
            assert_eq!(rt; result, want, "{most} {fails_at}");
            assert!(rt;
                PIECES_ANSWER.starts_with(output.as_slice()),
                "{most} {fails_at}"
            );
        }
    }
    Ok(())
}

#[test]
fn tells_a_failed_write(rt: HostRuntime) -> Result<(), Fail> {
    let alloc = rt.alloc();
    for room in 0..40usize {
        let mut writer = Full { room };
        let mut reader = "in 1 0000\nhop\n".as_bytes();
        let result = run_flat(alloc, 2, &mut reader, &mut writer);
        let want = if room < 33 {
            Err(CommandFault::Write)
        } else {
            Ok(())
        };
        assert_eq!(rt; result, want, "{room}");
    }
    let mut reader = "".as_bytes();
    assert_eq!(rt;
        run_flat(alloc, 2, &mut reader, &mut Unflushed),
        Err(CommandFault::Write)
    );
    Ok(())
}

#[test]
fn the_examples_are_answered(rt: HostRuntime) {
    for (input, want) in [
        (examples::LEARNING, examples::LEARNING_ANSWERS),
        (examples::REASONS, examples::REASONS_ANSWERS),
    ] {
        ran(&rt, rt.alloc(), 3, input, want);
    }
}
