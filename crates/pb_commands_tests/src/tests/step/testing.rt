//! Step scripts that are tests.

use pb_cmd_step::{TestNotes, run_test};
use pb_fakes::plans::TWO_BRIDGES;
use pb_messages::CommandFault;
use std::alloc::Global;
use std::process::Abort;
use std::test::Fail;

/// Checks that the test over the two bridges ends with this status, answers and findings.
fn ends(
    rt: &impl Abort,
    alloc: Global,
    script: &str,
    (status, answers, findings): (u8, &str, &str),
) -> Result<(), Fail> {
    let mut want = String::from_str(alloc, answers)?;
    want.push_str("port C1 entered ")?;
    let mut output = Vec::new(alloc);
    let mut notes = TestNotes::new(alloc);
    let mut reader = script.as_bytes();
    let plan = TWO_BRIDGES.as_bytes();
    let result = run_test(alloc, plan, &mut reader, &mut output, &mut notes);
    assert_eq!(rt; result, Ok(status));
    assert!(rt; output.as_slice().starts_with(want.as_bytes()));
    assert!(rt; notes.findings() == findings.as_bytes());
    Ok(())
}

/// A test that passes, with comments before, between and after its lines.
const PASSES: &str = "# a broadcast from C1\n\n\
    poll C1 ffffffffffff02000000010108004142\n\
    expect polled C1 0\n\
    feed C1\n\
    # the port handed it on\n\
    expect fed\n\
    receive B1 2\n\
    expect relayed 1\n\
    feed C1\n\
    expect idle\n\
    expect idle\n\
    #";

/// Its answers.
const ANSWERS: &str = "polled C1 0\nfed\nrelayed 1\nidle\n";

#[test]
fn expectations_that_are_met_pass(rt: HostRuntime) -> Result<(), Fail> {
    ends(&rt, rt.alloc(), PASSES, (0, ANSWERS, ""))
}

#[test]
fn differences_fail(rt: HostRuntime) -> Result<(), Fail> {
    let alloc = rt.alloc();
    let findings = "line 1: wanted fed, got no answer\nline 3: wanted fed, got idle\n\
        line 4: wanted  idle, got idle\n";
    ends(
        &rt,
        alloc,
        "expect fed\nfeed C1\nexpect fed\nexpect  idle\nexpect idle",
        (4, "idle\n", findings),
    )?;
    ends(
        &rt,
        alloc,
        "feed C1\nexpect \u{e4}\r\n",
        (4, "idle\n", "line 2: wanted \u{e4}\r, got idle\n"),
    )
}

#[test]
fn wrong_lines_fail(rt: HostRuntime) -> Result<(), Fail> {
    let script = "hop\nexpect line 1: bad\nfeed C9\nexpect no such\n # x\nexpect\nexpect \n";
    let answers = "line 1: bad\nno such\nline 5: bad\nline 6: bad\nline 7: bad\n";
    let findings = "line 1: bad\nline 3: no such\nline 5: bad\nline 6: bad\nline 7: bad\n";
    ends(&rt, rt.alloc(), script, (4, answers, findings))
}

/// Checks that an expectation has at most 140,000 octets, and that a comment may have more.
#[test]
fn long_lines_are_told_apart(rt: HostRuntime) -> Result<(), Fail> {
    let alloc = rt.alloc();
    let mut script = String::from_str(alloc, "#")?;
    for _ in 0..140_001 {
        script.push('a')?;
    }
    script.push_str("\nfeed C1\nexpect ")?;
    for _ in 0..139_994 {
        script.push('b')?;
    }
    script.push_str("\n")?;
    ends(
        &rt,
        alloc,
        script.as_str(),
        (4, "idle\nline 3: bad\n", "line 3: bad\n"),
    )
}

#[test]
fn a_file_that_is_no_plan_has_no_findings(rt: HostRuntime) {
    let alloc = rt.alloc();
    let mut output = Vec::new(alloc);
    let mut notes = TestNotes::new(alloc);
    let mut reader = b"expect fed".as_slice();
    let result = run_test(alloc, b"x", &mut reader, &mut output, &mut notes);
    assert_eq!(&rt; result, Ok(1));
    assert!(&rt; notes.findings().is_empty());
}

/// Checks that the findings before the limit of steps are kept.
#[test]
fn a_fault_keeps_the_findings(rt: HostRuntime) -> Result<(), Fail> {
    let alloc = rt.alloc();
    let mut plan = String::from_str(alloc, "[network]\nsteps = 1\n")?;
    plan.push_str(TWO_BRIDGES)?;
    let mut output = Vec::new(alloc);
    let mut notes = TestNotes::new(alloc);
    let mut reader = b"poll C1 00\nexpect fed\nfeed C1\n".as_slice();
    let result = run_test(alloc, plan.as_bytes(), &mut reader, &mut output, &mut notes);
    assert_eq!(&rt; result, Err(CommandFault::Steps));
    assert!(&rt; output.as_slice() == b"polled C1 0\n".as_slice());
    assert!(&rt; notes.findings() == b"line 2: wanted fed, got polled C1 0\n".as_slice());
    Ok(())
}
