//! The replies to step scripts.

ghost use Rattle.std.specs.Prelude.{◌≡◌, ◌≢◌, ◌⊎◌, IfErr, IfOk};
ghost use Rattle.std.specs.Io.KnownBytes.{Keeps};
ghost use Rattle.pb_report.specs.Refusals.{PrintsRefusal};
ghost use Rattle.pb_cmd_step.specs.Scripts.{PrintsDriven, PrintsDrivenBeginning};

mod e_lan;
mod e_line;
mod failover;
mod losses;
mod metro;
mod parallel;
mod settling;
mod testing;
mod two_bridges;

use pb_cmd_step::run_script;
use pb_fakes::{Full, Slow, Unflushed, plans};
use pb_messages::CommandFault;
use std::alloc::Global;
use std::io::{ErrorKind, Read, Write};
use std::process::Abort;
use std::test::Fail;

/// Calls `run_script` with what a caller may conclude: the status 0 with the replies and the report for the plan in the
/// file, or 1 with the rule that it breaks; before a fault nothing, or the replies to the first lines.
fn driven<R: Read, W: Write>(
    alloc: Global,
    file: &[u8],
    reader: &mut R,
    writer: &mut W,
) -> Result<u8, CommandFault>
    ensures whole { IfOk result (λ status. ((status ≡ 0) × PrintsDriven file.now (R.remaining reader.old)
        (W.contents writer.old) (W.contents writer.new))
        ⊎ ((status ≡ 1) × PrintsRefusal file.now (W.contents writer.old) (W.contents writer.new))) }
    ensures part { IfErr result (λ e. e ≢ CommandFault.Write
        → ((e ≡ CommandFault.Memory) × Keeps (W.contents writer.old) (W.contents writer.new))
        ⊎ PrintsDrivenBeginning e file.now (R.remaining reader.old) (W.contents writer.old) (W.contents writer.new)) }
{
    run_script(alloc, file, reader, writer)
}

/// Checks that the script over the plan file writes this text, and exits with 0.
fn drives(rt: &impl Abort, alloc: Global, plan: &str, script: &str, want: &str) {
    let mut output = Vec::new(alloc);
    let mut reader = script.as_bytes();
    let result = driven(alloc, plan.as_bytes(), &mut reader, &mut output);
    assert_eq!(rt; result, Ok(0));
    assert!(rt; output.as_slice() == want.as_bytes());
}

/// The report of the two bridges after no step.
const NOTHING: &str =
    "port C1 entered 0 left 0 filtered 0\nport C2 entered 0 left 0 filtered 0\nport C3 entered 0 left 0 filtered 0\n\
    link L1 ab taken 0 lost 0 ba taken 0 lost 0\nforest yes\n";

/// Checks the replies to a script over the two bridges, which come before the report of a network without traffic.
fn says(rt: &impl Abort, alloc: Global, script: &str, answers: &str) -> Result<(), Fail> {
    let mut want = String::from_str(alloc, answers)?;
    want.push_str(NOTHING)?;
    drives(rt, alloc, plans::TWO_BRIDGES, script, want.as_str());
    Ok(())
}

#[test]
fn the_examples_run(rt: HostRuntime) {
    let alloc = rt.alloc();
    for (plan, script, want) in [
        (
            plans::TWO_BRIDGES,
            two_bridges::STEPS,
            two_bridges::EXPECTED,
        ),
        (plans::METRO, metro::STEPS, metro::EXPECTED),
        (plans::E_LINE, e_line::STEPS, e_line::EXPECTED),
        (plans::E_LAN, e_lan::STEPS, e_lan::EXPECTED),
        (plans::PARALLEL, parallel::STEPS, parallel::EXPECTED),
        (plans::LOSSES, losses::STEPS, losses::EXPECTED),
        (settling::PLAN, settling::STEPS, settling::EXPECTED),
        (plans::FAILOVER, failover::STEPS, failover::EXPECTED),
    ] {
        drives(&rt, alloc, plan, script, want);
    }
}

#[test]
fn lines_without_work_are_told(rt: HostRuntime) -> Result<(), Fail> {
    let alloc = rt.alloc();
    says(&rt, alloc, "", "")?;
    says(&rt, alloc, "feed C1\ndeliver C1", "idle\nidle\n")?;
    says(&rt, alloc, "receive B1 2\ntransmit B1 1\n", "idle\nidle\n")?;
    says(&rt, alloc, "take L1 ba\nput L1 ba\n", "idle\nidle\n")?;
    says(&rt, alloc, "tick B1\nadmin B1 1 up\n", "ticked\nset\n")?;
    says(
        &rt,
        alloc,
        "\nfeed C1\r\n\n",
        "line 1: bad\nline 2: bad\nline 3: bad\n",
    )
}

#[test]
fn names_that_the_plan_lacks_are_told(rt: HostRuntime) -> Result<(), Fail> {
    let alloc = rt.alloc();
    says(&rt, alloc, "feed C4\npoll c1 00\n", "no such\nno such\n")?;
    says(&rt, alloc, "tick B3\nreceive B1 3\n", "no such\nno such\n")?;
    says(
        &rt,
        alloc,
        "receive B1 17\ntransmit B1 256\n",
        "no such\nno such\n",
    )?;
    says(
        &rt,
        alloc,
        "admin B1 2 up\nadmin B1 3 down\n",
        "no such\nno such\n",
    )?;
    says(&rt, alloc, "take L2 ab\nput C1 ba\n", "no such\nno such\n")
}

/// Shows that the reply `relayed` names no port if no other port of the bridge is of the frame's service.
#[test]
fn a_frame_with_no_other_port_of_its_service_is_relayed_to_none(
    rt: HostRuntime,
) -> Result<(), Fail> {
    let alloc = rt.alloc();
    // The link's end at B2 takes red alone, and customer port C3 is the only one of blue.
    let Some((front, back)) = plans::TWO_BRIDGES.split_once("b_port = 1\n") else {
        assert!(rt; false, "the plan has another link");
        return Ok(());
    };
    let plan = format!(in alloc; "{front}b_port = 1\nb_services = [\"red\"]\n{back}")?;
    drives(
        &rt,
        alloc,
        plan.as_str(),
        "poll C3 ffffffffffff0200000003030800\nfeed C3\nreceive B2 3\ntransmit B2 1\n",
        "polled C3 0\nfed\nrelayed\nidle\n\
        port C1 entered 0 left 0 filtered 0\nport C2 entered 0 left 0 filtered 0\n\
        port C3 entered 1 left 0 filtered 0\nlink L1 ab taken 0 lost 0 ba taken 0 lost 0\nforest yes\n",
    );
    Ok(())
}

#[test]
fn the_limit_of_steps_ends_a_run(rt: HostRuntime) -> Result<(), Fail> {
    let alloc = rt.alloc();
    let mut plan = String::from_str(alloc, "[network]\nsteps = 1\n")?;
    plan.push_str(plans::TWO_BRIDGES)?;
    let mut output = Vec::new(alloc);
    let mut reader = b"poll C1 00\npoll C1 00\nfeed C9\nfeed C1\nfeed C2\n".as_slice();
    let result = run_script(alloc, plan.as_bytes(), &mut reader, &mut output);
    assert_eq!(rt; result, Err(CommandFault::Steps));
    assert!(rt; output.as_slice() == "polled C1 0\nidle\nno such\n".as_bytes());
    Ok(())
}

/// A bridge with queues of two frames, and three customer ports of a service.
const THREE: &str = r#"
[[bridge]]
name = "B1"
address = "02-00-00-00-00-01"
queue = 2

[[service]]
name = "red"
vid = 100

[[port]]
name = "C1"
bridge = "B1"
port = 1
service = "red"

[[port]]
name = "C2"
bridge = "B1"
port = 2
service = "red"

[[port]]
name = "C3"
bridge = "B1"
port = 3
service = "red"
"#;

/// Two broadcasts from port 2, of which port 3 sends one, and one from port 3. Then one of priority 7 from port 2.
const FLOOD: &str = "\
poll C2 ffffffffffff0200000001010800\nfeed C2\nreceive B1 2\n\
poll C2 ffffffffffff0200000001010800\nfeed C2\nreceive B1 2\ntransmit B1 3\n\
poll C3 ffffffffffff0200000002020800\nfeed C3\nreceive B1 3\n\
poll C2 ffffffffffff02000000010188a8e0000800\nfeed C2\nreceive B1 2\n";

/// The replies before the last line, and the report.
const FLOODED: &str = "\
polled C2 0\nfed\nrelayed 1 3\npolled C2 1\nfed\nrelayed 1 3\nsent ffffffffffff0200000001010800\n\
polled C3 0\nfed\nrelayed 2 full 1\npolled C2 2\nfed\n";

/// The report.
const REPORT: &str = "port C1 entered 0 left 0 filtered 0\nport C2 entered 3 left 0 filtered 0\n\
                      port C3 entered 1 left 0 filtered 0\nforest yes\n";

#[test]
fn a_queue_counts_a_port_or_a_class(rt: HostRuntime) -> Result<(), Fail> {
    let alloc = rt.alloc();
    let default = format!(in alloc; "{FLOODED}relayed 3 full 1\n{REPORT}")?;
    drives(&rt, alloc, THREE, FLOOD, default.as_str());
    let by_port = format!(in alloc; "[network]\nqueues = \"port\"\n{THREE}")?;
    drives(&rt, alloc, by_port.as_str(), FLOOD, default.as_str());
    let by_class = format!(in alloc; "[network]\nqueues = \"class\"\n{THREE}")?;
    let want = format!(in alloc; "{FLOODED}relayed 1 3\n{REPORT}")?;
    drives(&rt, alloc, by_class.as_str(), FLOOD, want.as_str());
    Ok(())
}

/// Returns the plan of the two bridges with the rapid spanning tree.
fn tree(alloc: Global) -> Result<String, Fail> {
    let mut plan = String::from_str(alloc, "[network]\nspanning = \"rstp\"\n")?;
    plan.push_str(plans::TWO_BRIDGES)?;
    Ok(plan)
}

#[test]
fn bridges_are_not_settled_at_the_start(rt: HostRuntime) -> Result<(), Fail> {
    let alloc = rt.alloc();
    let plan = tree(alloc)?;
    let mut want = String::from_str(alloc, NOTHING)?;
    want.push_str("settled no\n")?;
    drives(&rt, alloc, plan.as_str(), "", want.as_str());
    Ok(())
}

#[test]
fn bridges_settle_where_one_hears_the_other(rt: HostRuntime) -> Result<(), Fail> {
    let alloc = rt.alloc();
    let plan = tree(alloc)?;
    let mut output = Vec::new(alloc);
    let mut reader = b"tick B1\ntransmit B1 1\ntake L1 ab\nput L1 ab\nreceive B2 1\n".as_slice();
    let result = run_script(alloc, plan.as_bytes(), &mut reader, &mut output);
    assert_eq!(rt; result, Ok(0));
    assert!(rt; output.as_slice().starts_with(b"ticked\nsent 0180c2000008"));
    assert!(rt; output.as_slice().ends_with(b"forest yes\nsettled yes\n"));
    Ok(())
}

#[test]
fn a_refused_plan_is_told(rt: HostRuntime) {
    let alloc = rt.alloc();
    for (plan, want) in [
        ("x", "plan: 2 toml\n"),
        ("[network]\nageing = 9", "plan: 5 range network.ageing\n"),
    ] {
        let mut output = Vec::new(alloc);
        let mut reader = b"hop".as_slice();
        let result = run_script(alloc, plan.as_bytes(), &mut reader, &mut output);
        assert_eq!(rt; result, Ok(1), "{plan}");
        assert!(rt; output.as_slice() == want.as_bytes(), "{plan}");
    }
}

#[test]
fn a_failed_read_ends_a_run(rt: HostRuntime) {
    let alloc = rt.alloc();
    let mut output = Vec::new(alloc);
    let mut reader = Slow {
        rest: b"feed C1\nfeed C2\n",
        most: 8,
        calls: 0,
        fails_at: 1,
        kind: ErrorKind::BrokenPipe,
    };
    let result = run_script(
        alloc,
        plans::TWO_BRIDGES.as_bytes(),
        &mut reader,
        &mut output,
    );
    assert_eq!(rt; result, Err(CommandFault::Read));
    assert!(rt; output.as_slice() == "idle\n".as_bytes());
}

#[test]
fn a_failed_write_ends_a_run(rt: HostRuntime) {
    let alloc = rt.alloc();
    let plan = plans::TWO_BRIDGES.as_bytes();
    for room in [0usize, 3, 5, 100] {
        let mut reader = b"feed C1\n".as_slice();
        let result = run_script(alloc, plan, &mut reader, &mut Full { room });
        assert_eq!(rt; result, Err(CommandFault::Write), "at {room}");
    }
    let mut reader = b"feed C1\n".as_slice();
    let result = run_script(alloc, plan, &mut reader, &mut Unflushed);
    assert_eq!(rt; result, Err(CommandFault::Write));
    let mut reader = b"".as_slice();
    let result = run_script(alloc, b"x", &mut reader, &mut Full { room: 4 });
    assert_eq!(rt; result, Err(CommandFault::Write));
}
