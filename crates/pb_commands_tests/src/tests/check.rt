//! The texts of `check` and `show`.

ghost use Rattle.std.specs.Prelude.{◌≡◌, ◌≢◌, ◌⊎◌, [], ◌∷◌, flat_map, ℕ, List, OnOk, IfOk, IfErr};
ghost use Rattle.std.specs.Io.KnownBytes.{Appends, Keeps};
ghost use Rattle.pb_cmd_check.specs.Checks.{IsPlanText};
ghost use Rattle.pb_cmd_check.specs.Shows.{fate_line};
ghost use Rattle.pb_frame.specs.Admission.{block};
ghost use Rattle.pb_report.specs.Refusals.{IsRefusalText};

mod converged;
mod examples;

use pb_cmd_check::{run_check, run_show};
use pb_fakes::{Full, Unflushed, plans};
use pb_messages::CommandFault;
use std::alloc::Global;
use std::io::Write;
use std::process::Abort;
use std::test::Fail;

/// Two bridges with one link, two services and three customer ports.
const NETWORK: &str = r#"
[[bridge]]
name = "B1"
address = "02-00-00-00-00-01"

[[bridge]]
name = "B2"
address = "02-00-00-00-00-02"

[[service]]
name = "red"
vid = 100

[[service]]
name = "blue"
vid = 200

[[port]]
name = "C1"
bridge = "B1"
port = 2
service = "red"

[[port]]
name = "C2"
bridge = "B2"
port = 2
service = "red"

[[port]]
name = "C3"
bridge = "B2"
port = 3
service = "blue"
"#;

/// A link for all services.
const FIRST: &str = r#"
[[link]]
name = "L1"
a = "B1"
a_port = 1
b = "B2"
b_port = 1
"#;

/// A second link for all services.
const SECOND: &str = r#"
[[link]]
name = "L2"
a = "B1"
a_port = 3
b = "B2"
b_port = 4
"#;

/// The keys of a link for the service red alone.
const FOR_RED: &str = "a_services = [\"red\"]\nb_services = [\"red\"]\n";

/// The keys of a link for the service blue alone.
const FOR_BLUE: &str = "a_services = [\"blue\"]\nb_services = [\"blue\"]\n";

/// Calls `run_check` with what a caller may conclude: the status 0 with the counts of the plan, or 1 with the rule that
/// the file breaks. Of the faults only `Write` and `Memory` come, and only `Write` after something was written.
fn checked<W: Write>(alloc: Global, file: &[u8], writer: &mut W) -> Result<u8, CommandFault>
    ensures ok { IfOk result (λ status. (text : List ℕ) × Appends (W.contents writer.old) (W.contents writer.new) text
        × (((status ≡ 0) × IsPlanText file.now text) ⊎ ((status ≡ 1) × IsRefusalText file.now text))) }
    ensures kinds { IfErr result (λ e. (e ≡ CommandFault.Write) ⊎ (e ≡ CommandFault.Memory)) }
    ensures none { IfErr result (λ e. e ≢ CommandFault.Write → Keeps (W.contents writer.old) (W.contents writer.new)) }
{
    run_check(alloc, file, writer)
}

/// Calls `run_show` with what a caller may conclude: the line of each of the sixteen addresses.
fn shown<W: Write>(writer: &mut W) -> Result<(), CommandFault>
    ensures { OnOk result (Appends (W.contents writer.old) (W.contents writer.new)
        (flat_map (λ k. fate_line (block k)) (0 ∷ 1 ∷ 2 ∷ 3 ∷ 4 ∷ 5 ∷ 6 ∷ 7 ∷ 8 ∷ 9 ∷ 10 ∷ 11 ∷ 12 ∷ 13 ∷ 14 ∷ 15
        ∷ []))) }
{
    run_show(writer)
}

/// Checks the text and the exit status for a file of these parts.
fn says(rt: &impl Abort, alloc: Global, parts: &[&str], want: (u8, &str)) -> Result<(), Fail> {
    let mut file = String::new(alloc);
    for part in parts {
        file.push_str(part)?;
    }
    let mut output = Vec::new(alloc);
    let result = checked(alloc, file.as_bytes(), &mut output);
    assert_eq!(rt; result, Ok(want.0), "{}", want.1);
    assert!(rt; output.as_slice() == want.1.as_bytes(), "{}", want.1);
    Ok(())
}

#[test]
fn a_plan_without_rings_is_a_forest(rt: HostRuntime) -> Result<(), Fail> {
    let alloc = rt.alloc();
    let one = "ok bridges 2 links 1 services 2 ports 3\nforest yes\n";
    says(&rt, alloc, &[NETWORK, FIRST], (0, one))?;
    let none = "ok bridges 0 links 0 services 0 ports 0\nforest yes\n";
    says(&rt, alloc, &[], (0, none))?;
    let two = "ok bridges 2 links 2 services 2 ports 3\nforest yes\n";
    says(
        &rt,
        alloc,
        &[NETWORK, FIRST, FOR_RED, SECOND, FOR_BLUE],
        (0, two),
    )?;
    let held = "a_state = \"discarding\"\n";
    says(&rt, alloc, &[NETWORK, FIRST, SECOND, held], (0, two))
}

#[test]
fn rings_are_told_by_name(rt: HostRuntime) -> Result<(), Fail> {
    let alloc = rt.alloc();
    let both = "ok bridges 2 links 2 services 2 ports 3\nforest no\nloop blue\nloop red\n";
    says(&rt, alloc, &[NETWORK, FIRST, SECOND], (0, both))?;
    let one = "ok bridges 2 links 2 services 2 ports 3\nforest no\nloop blue\n";
    says(&rt, alloc, &[NETWORK, FIRST, FOR_BLUE, SECOND], (0, one))
}

#[test]
fn a_refused_file_tells_the_rule(rt: HostRuntime) -> Result<(), Fail> {
    let alloc = rt.alloc();
    for (part, want) in [
        ("x", "plan: 2 toml\n"),
        ("[network]\nageing = 9", "plan: 5 range network.ageing\n"),
        (
            "[[bridge]]\nname = \"B1\"",
            "plan: 3 missing bridge[0].address\n",
        ),
        ("bridge = 1", "plan: 4 kind bridge\n"),
        (
            "[[service]]\nname = \"red\"\nvid = 100\n[[service]]\nname = \"tan\"\nvid = 4095",
            "plan: 5 range service[1].vid\n",
        ),
        ("network = 5", "plan: 4 kind network\n"),
        ("wires = 1", "plan: 6 unknown wires\n"),
        (
            "\"a\\nfault: memory\" = 1",
            "plan: 6 unknown a\\nfault: memory\n",
        ),
    ] {
        says(&rt, alloc, &[part], (1, want))?;
    }
    Ok(())
}

#[test]
fn a_refused_network_tells_the_name(rt: HostRuntime) -> Result<(), Fail> {
    let alloc = rt.alloc();
    for (part, want) in [
        (
            "[[service]]\nname = \"red\"\nvid = 300",
            "plan: 7 twice red\n",
        ),
        (
            "[[service]]\nname = \"tan\"\nvid = 4095",
            "plan: 5 range service[2].vid\n",
        ),
        (
            "[[port]]\nname = \"C4\"\nbridge = \"B3\"\nport = 9\nservice = \"red\"",
            "plan: 8 no-such B3\n",
        ),
        (
            "[[port]]\nname = \"C4\"\nbridge = \"B1\"\nport = 1\nservice = \"red\"",
            "plan: 9 link-end\n",
        ),
    ] {
        says(&rt, alloc, &[NETWORK, FIRST, part], (1, want))?;
    }
    Ok(())
}

#[test]
fn a_failed_write_is_told(rt: HostRuntime) -> Result<(), Fail> {
    let alloc = rt.alloc();
    for room in 0..10 {
        let mut writer = Full { room };
        let result = run_check(alloc, b"", &mut writer);
        assert_eq!(rt; result, Err(CommandFault::Write), "at {room}");
    }
    assert_eq!(rt;
        run_check(alloc, b"", &mut Unflushed),
        Err(CommandFault::Write)
    );
    let mut output = Vec::new(alloc);
    assert_eq!(rt; run_check(alloc, &[0xff], &mut output), Ok(1));
    assert!(rt; output.as_slice() == "plan: 1 utf8\n".as_bytes());
    Ok(())
}

#[test]
fn shows_sixteen_fates(rt: HostRuntime) -> Result<(), Fail> {
    let mut output = Vec::new(rt.alloc());
    assert!(rt; shown(&mut output).is_ok());
    assert!(rt; output.as_slice() == examples::SHOWN.as_bytes());
    let text = std::str::from_utf8(output.as_slice()).unwrap_or("");
    assert_eq!(rt; text.lines().count(), 16);
    assert_eq!(rt; text.lines().next(), Some("01-80-C2-00-00-00 carry"));
    assert_eq!(rt; text.lines().nth(8), Some("01-80-C2-00-00-08 provider"));
    assert_eq!(rt; text.lines().nth(14), Some("01-80-C2-00-00-0E filter"));
    assert_eq!(rt; run_show(&mut Full { room: 5 }), Err(CommandFault::Write));
    assert_eq!(rt; run_show(&mut Unflushed), Err(CommandFault::Write));
    Ok(())
}

#[test]
fn the_example_is_a_plan(rt: HostRuntime) -> Result<(), Fail> {
    let want = (0, examples::PLAN_FILE_ANSWER);
    says(&rt, rt.alloc(), &[plans::PLAN_FILE], want)
}
