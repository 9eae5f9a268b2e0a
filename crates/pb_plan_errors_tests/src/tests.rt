//! The errors of plan files.

mod both_ends;
mod explained;
mod printable;
mod taps;
mod udp;

use self::explained::{all_errors, explained, first_error};
use pb_diagnostics::put_diagnostic;
use pb_frame::Text;
use pb_service::PlanFault;
use std::alloc::Global;
use std::process::Abort;
use std::test::Fail;

/// A plan.
const PLAN: &str = r#"[network]
ageing = 300

[[bridge]]
name = "B1"
address = "02-00-00-00-00-01"

[[bridge]]
name = "B2"
address = "02-00-00-00-00-02"

[[link]]
name = "L1"
a = "B1"
a_port = 1
b = "B2"
b_port = 1

[[service]]
name = "red"
vid = 100

[[port]]
name = "C1"
bridge = "B1"
port = 2
service = "red"

[[port]]
name = "C2"
bridge = "B2"
port = 2
service = "red"
"#;

/// A mistake: what is in the plan, what is there instead, and the text of the error.
const MISTAKES: &[(&str, &str, &str)] = &[
    (
        "vid = 100",
        "\tvid = 5000 # blue",
        "p:21:8: service \"red\": vid 5000 is not in 1..4094
    \\tvid = 5000 # blue
            ^^^^
",
    ),
    (
        "b = \"B2\"",
        "b = \"BB2\"",
        "p:16:5: link \"L1\": no bridge is named \"BB2\"
    b = \"BB2\"
        ^^^^^
hint: did you mean \"B2\"?
",
    ),
    (
        "bridge = \"B2\"",
        "bridge = \"B1\"",
        "p:32:8: port \"C2\": port 2 of bridge \"B1\" is used twice
    port = 2
           ^
hint: port \"C1\" has it at line 26
",
    ),
    (
        "b = \"B2\"",
        "b = \"B1\"",
        "p:17:10: link \"L1\": port 1 of bridge \"B1\" is used twice
    b_port = 1
             ^
hint: link \"L1\" has it at line 15
",
    ),
    (
        "a_port = 1",
        "a_port = 1\n  a_cots = 5",
        "p:16:3: link \"L1\": unknown key a_cots
      a_cots = 5
      ^^^^^^
hint: did you mean \"a_cost\"?
",
    ),
    (
        "vid = 100",
        "vid = 100\nvid = 100",
        "p:22:1: duplicate key
    vid = 100
    ^^^^^^^^^
",
    ),
    (
        "ageing = 300",
        "ageing = \"300\"",
        "p:2:10: network: ageing \"300\" is not an integer
    ageing = \"300\"
             ^^^^^
",
    ),
    (
        "vid = 100",
        "",
        "p:19:1: service \"red\": vid is missing
    [[service]]
    ^^^^^^^^^^^
",
    ),
    (
        "name = \"B2\"",
        "name = \"B1\"",
        "p:9:8: bridge \"B1\": another bridge has the name B1
    name = \"B1\"
           ^^^^
hint: bridge \"B1\" has it at line 5
",
    ),
    (
        "-02\"",
        "-01\" # again",
        "p:10:11: bridge \"B2\": another bridge has the address 02-00-00-00-00-01
    address = \"02-00-00-00-00-01\" # again
              ^^^^^^^^^^^^^^^^^^^
hint: bridge \"B1\" has it at line 6
",
    ),
    (
        "ageing = 300",
        "hold = 5",
        "p:2:8: network: hold 5 is not allowed without tick_ms or tick_every
    hold = 5
           ^
",
    ),
    (
        "a_port = 1",
        "a_port = 1\nlost_ab = [\n  2,\n  1,\n]",
        "p:16:11: link \"L1\": lost_ab is not an array of rising numbers
    lost_ab = [
              ^
",
    ),
    (
        "port = 2",
        "port = 2\nkind = \"record\"\nwrite = \"out\"\nread = \"in\"",
        "p:29:1: port \"C1\": unknown key read
    read = \"in\"
    ^^^^
hint: read is for kind \"capture\" or \"replay\"
",
    ),
    (
        "port = 2",
        "port = 2\nkind = \"replay\"\nread = \"in\"\nreplay = \"yes\"",
        "p:29:10: port \"C1\": replay \"yes\" is not \"times\"
    replay = \"yes\"
             ^^^^^
",
    ),
    (
        "port = 2",
        "port = 2\nkind = \"replay\"\nread = \"in\"\nreplay = \"times\"",
        "p:29:10: port \"C1\": replay \"times\" is not allowed without tick_ms
    replay = \"times\"
             ^^^^^^^
",
    ),
    (
        "port = 2",
        "port = 2\nkind = \"replay\"\nread = \"in\"\nspeed = 0",
        "p:29:9: port \"C1\": speed 0 is not in 1..1000
    speed = 0
            ^
",
    ),
    (
        "port = 2",
        "port = 2\nkind = \"replay\"\nread = \"in\"\nspeed = 10",
        "p:29:9: port \"C1\": speed 10 is not allowed without replay
    speed = 10
            ^^
",
    ),
    (
        "port = 2",
        "port = 2\nkind = \"socket\"\npath = \"s\"\nreplay = \"times\"",
        "p:29:1: port \"C1\": unknown key replay
    replay = \"times\"
    ^^^^^^
hint: replay is for kind \"capture\" or \"replay\"
",
    ),
    (
        "port = 2",
        "port = 2\nkind = \"socket\"\nlisten = \"s\"\npath = \"s\"",
        "p:29:1: port \"C1\": unknown key path
    path = \"s\"
    ^^^^
hint: path is for kind \"socket\" without listen
",
    ),
    (
        "port = 2",
        "port = 2\nkind = \"recrod\"",
        "p:27:8: port \"C1\": kind \"recrod\" is not \"memory\", \"capture\", \"record\", \"replay\", \"socket\" \
        or \"udp\"
    kind = \"recrod\"
           ^^^^^^^^
",
    ),
    (
        "[network]",
        "oops = 1\n[network]",
        "p:1:1: unknown key oops
    oops = 1
    ^^^^
",
    ),
];

/// Returns the plan with another text in place of the first such one.
fn changed(alloc: Global, old: &str, new: &str) -> Result<String, Fail> {
    let (front, back) = PLAN.split_once(old).unwrap_or((PLAN, ""));
    Ok(format!(in alloc; "{front}{new}{back}")?)
}

/// Returns the text of the first error of a file.
fn first_text(alloc: Global, file: &[u8]) -> Result<String, Fail> {
    let mut out = String::new(alloc);
    if let Some(error) = first_error(alloc, file)? {
        put_diagnostic(&mut out, "p", &error)?;
    }
    Ok(out)
}

/// Returns the text of all errors of a file.
fn all_text(alloc: Global, file: &[u8]) -> Result<String, Fail> {
    let mut out = String::new(alloc);
    for error in all_errors(alloc, file)?.as_slice() {
        put_diagnostic(&mut out, "p", error)?;
    }
    Ok(out)
}

/// Checks the text of the error of a file.
fn says(rt: &impl Abort, alloc: Global, file: &[u8], want: &str) -> Result<(), Fail> {
    let text = first_text(alloc, file)?;
    assert!(rt; text.as_str() == want, "{text}\nis not\n{want}");
    Ok(())
}

#[test]
fn a_plan_has_no_error(rt: HostRuntime) -> Result<(), Fail> {
    says(&rt, rt.alloc(), PLAN.as_bytes(), "")?;
    says(&rt, rt.alloc(), b"", "")?;
    let text = all_text(rt.alloc(), PLAN.as_bytes())?;
    assert_eq!(rt; text.as_str(), "");
    Ok(())
}

#[test]
fn each_mistake_has_its_place(rt: HostRuntime) -> Result<(), Fail> {
    let alloc = rt.alloc();
    for (old, new, want) in MISTAKES {
        let file = changed(alloc, old, new)?;
        says(&rt, alloc, file.as_bytes(), want)?;
    }
    Ok(())
}

#[test]
fn any_layout_has_a_place(rt: HostRuntime) -> Result<(), Fail> {
    let alloc = rt.alloc();
    says(
        &rt,
        alloc,
        b"bridge = [{ name = 'B1', address = '02-00-00-00-00-01', priority = 5 }] # one\n",
        "p:1:10: bridge \"B1\": priority is not a multiple of 4096 in 0..61440
    bridge = [{ name = 'B1', address = '02-00-00-00-00-01', priority = 5 }] # one
             ^^^^^^^^^^^^^^^^^^^^^^^^^^^^^^^^^^^^^^^^^^^^^^^^^^^^^^^^^^^^^^
",
    )?;
    says(
        &rt,
        alloc,
        b"network.ageing = 9",
        "p:1:18: network: ageing 9 is not in 10..1000000
    network.ageing = 9
                     ^
",
    )?;
    says(
        &rt,
        alloc,
        b"# \xFF",
        "p:1:3: not UTF-8
",
    )?;
    says(
        &rt,
        alloc,
        b"network = 5",
        "p:1:11: network 5 is not a table
    network = 5
              ^
",
    )
}

/// A plan with nine mistakes.
const NINE: &str = r#"[network]
ageing = 5
agein = 5

[[bridge]]
name = "B1"
address = "02-00-00-00-00-01"
priority = 5

[[bridge]]
name = "B2"
address = "02-00-00-00-00-01"

[[link]]
name = "L1"
a = "B1"
a_port = 1
b = "B3"
b_port = 1

[[service]]
name = "red"
vid = 5000

[[port]]
name = "C1"
bridge = "B1"
port = 1
service = "red"

[[port]]
name = "C2"
bridge = "B2"
port = "2"
service = "read"
"#;

/// Their errors.
const NINE_ERRORS: &str = r#"p:2:10: network: ageing 5 is not in 10..1000000
    ageing = 5
             ^
p:3:1: network: unknown key agein
    agein = 5
    ^^^^^
hint: did you mean "ageing"?
p:8:12: bridge "B1": priority 5 is not a multiple of 4096 in 0..61440
    priority = 5
               ^
p:12:11: bridge "B2": another bridge has the address 02-00-00-00-00-01
    address = "02-00-00-00-00-01"
              ^^^^^^^^^^^^^^^^^^^
hint: bridge "B1" has it at line 7
p:18:5: link "L1": no bridge is named "B3"
    b = "B3"
        ^^^^
hint: did you mean "B1"?
p:23:7: service "red": vid 5000 is not in 1..4094
    vid = 5000
          ^^^^
p:28:8: port "C1": port 1 of bridge "B1" is used twice
    port = 1
           ^
hint: link "L1" has it at line 17
p:34:8: port "C2": port "2" is not an integer
    port = "2"
           ^^^
p:35:11: port "C2": no service is named "read"
    service = "read"
              ^^^^^^
hint: did you mean "red"?
"#;

#[test]
fn a_fault_of_an_acceptance_has_a_place(rt: HostRuntime) -> Result<(), Fail> {
    let alloc = rt.alloc();
    let fault = PlanFault::NoSuch(Text::from_string(String::from_str(alloc, "L9")?));
    let file = b"[[accept]]\nlink = \"L9\"\n";
    let mut text = String::new(alloc);
    put_diagnostic(&mut text, "p", &explained(alloc, file, &fault)?)?;
    let want = "p:2:8: accept[0]: no link is named \"L9\"\n    link = \"L9\"\n           ^^^^\n";
    assert!(rt; text.as_str() == want, "{text}");
    Ok(())
}

#[test]
fn all_mistakes_are_reported(rt: HostRuntime) -> Result<(), Fail> {
    let text = all_text(rt.alloc(), NINE.as_bytes())?;
    assert!(rt; text.as_str() == NINE_ERRORS, "{text}");
    Ok(())
}

#[test]
fn a_misspelt_kind_is_one_error(rt: HostRuntime) -> Result<(), Fail> {
    let alloc = rt.alloc();
    let file = changed(
        alloc,
        "port = 2",
        "port = 2\nkind = \"recrod\"\nwrite = \"out\"",
    )?;
    let errors = all_errors(alloc, file.as_bytes())?;
    assert_eq!(rt; errors.len(), 1);
    Ok(())
}

#[test]
fn at_most_fifty_errors_are_reported(rt: HostRuntime) -> Result<(), Fail> {
    let alloc = rt.alloc();
    let mut file = String::new(alloc);
    for number in 0..60 {
        write!(&mut file, "k{number} = 1\n")?;
    }
    let errors = all_errors(alloc, file.as_bytes())?;
    assert_eq!(rt; errors.len(), 50);
    Ok(())
}
