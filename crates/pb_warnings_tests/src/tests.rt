//! The printed warnings of plan files.

ghost use Rattle.std.specs.Prelude.{◌≡◌, ◌++◌, List, ℕ, string_bytes, IfOk};
ghost use Rattle.pb_warning_lines.specs.Texts.{IsWarnedText};

use pb_frame::Memory;
use pb_warning_lines::put_warnings;
use std::alloc::Global;
use std::process::Abort;
use std::test::Fail;

/// Two bridges.
const BRIDGES: &str = r#"[[bridge]]
name = "B1"
address = "02-00-00-00-00-01"
[[bridge]]
name = "B2"
address = "02-00-00-00-00-02"
"#;

/// A link for all services.
const LINK: &str = r#"[[link]]
name = "L1"
a = "B1"
a_port = 1
b = "B2"
b_port = 1
"#;

/// A service with two ports.
const RED: &str = r#"[[service]]
name = "red"
vid = 100
[[port]]
name = "C1"
bridge = "B1"
port = 2
service = "red"
[[port]]
name = "C2"
bridge = "B2"
port = 2
service = "red"
"#;

/// A service without ports.
const BLUE: &str = "[[service]]\nname = \"blue\"\nvid = 200\n";

/// A port of the service blue.
const AT_BLUE: &str = "[[port]]\nname = \"C3\"\nbridge = \"B2\"\nport = 3\nservice = \"blue\"\n";

/// Calls `put_warnings` with what a caller may conclude.
fn warned(alloc: Global, out: &mut String, file: &[u8]) -> Result<usize, Memory>
    ensures { IfOk result (λ count. (text : List ℕ) × (string_bytes out.new ≡ string_bytes out.old ++ text)
        × ((path : List ℕ) × IsWarnedText path file.now text count)) }
{
    put_warnings(alloc, out, "p", file)
}

/// Checks the warnings about a file of these parts.
fn says(rt: &impl Abort, alloc: Global, parts: &[&str], want: (usize, &str)) -> Result<(), Fail> {
    let mut file = String::new(alloc);
    for part in parts {
        file.push_str(part)?;
    }
    let mut output = String::new(alloc);
    let result = warned(alloc, &mut output, file.as_bytes());
    assert!(rt; output.as_str() == want.1, "{output} is not {}", want.1);
    assert_eq!(rt; result, Ok(want.0), "{}", want.1);
    Ok(())
}

#[test]
fn a_whole_plan_has_no_warnings(rt: HostRuntime) -> Result<(), Fail> {
    let alloc = rt.alloc();
    says(&rt, alloc, &[BRIDGES, LINK, RED], (0, ""))?;
    says(&rt, alloc, &[""], (0, ""))?;
    says(&rt, alloc, &["[[bridge]]"], (0, ""))?;
    says(&rt, alloc, &["x"], (0, ""))
}

#[test]
fn a_service_needs_two_ports(rt: HostRuntime) -> Result<(), Fail> {
    let alloc = rt.alloc();
    let none = "warning: p:26: service \"blue\" has no port\n";
    says(&rt, alloc, &[BRIDGES, LINK, RED, BLUE], (1, none))?;
    let one = "warning: p:26: service \"blue\" has one port\n";
    says(&rt, alloc, &[BRIDGES, LINK, RED, BLUE, AT_BLUE], (1, one))?;
    let uncertain = "warning: p: service \"blue\" has no port\n";
    let quoted = "[network]\n\"ring\" = 9\n";
    says(
        &rt,
        alloc,
        &[quoted, BRIDGES, LINK, RED, BLUE],
        (1, uncertain),
    )
}

#[test]
fn links_are_to_be_whole(rt: HostRuntime) -> Result<(), Fail> {
    let alloc = rt.alloc();
    let one_side = "a_services = [\"red\"]\n";
    let both = "warning: p:7: link \"L1\" has ends that are members of different services\n\
        warning: p:27: service \"blue\" has no port\n";
    says(&rt, alloc, &[BRIDGES, LINK, one_side, RED, BLUE], (2, both))?;
    says(&rt, alloc, &[BRIDGES, LINK, one_side, RED], (0, ""))?;
    let away = "a_services = []\nb_services = []\n";
    let apart = "warning: p:15: service \"red\" has ports that no path of its links joins\n";
    says(&rt, alloc, &[BRIDGES, LINK, away, RED], (1, apart))?;
    let alone =
        "warning: p:1: bridge \"B1\" has no links\nwarning: p:4: bridge \"B2\" has no links\n\
        warning: p:7: service \"red\" has ports that no path of its links joins\n";
    says(&rt, alloc, &[BRIDGES, RED], (3, alone))
}

#[test]
fn a_spanning_tree_needs_a_clock(rt: HostRuntime) -> Result<(), Fail> {
    let alloc = rt.alloc();
    let tree = "[network]\nspanning = \"rstp\"\n";
    let still =
        "warning: p:1: spanning = \"rstp\" without tick_ms or tick_every: bridges never tick in a run\n";
    says(&rt, alloc, &[tree, BRIDGES, LINK, RED], (1, still))?;
    for clock in ["tick_ms = 1000\n", "tick_every = 64\n"] {
        says(&rt, alloc, &[tree, clock, BRIDGES, LINK, RED], (0, ""))?;
    }
    Ok(())
}

/// Makes a line of so many bridges under the spanning tree, of which the first is the root.
fn line_of(alloc: Global, bridges: u8) -> Result<String, Fail> {
    let mut file = String::from_str(alloc, "[network]\nspanning = \"rstp\"\ntick_ms = 1000\n")?;
    for k in 1..=bridges {
        let tens = k / 10;
        let ones = k % 10;
        writeln!(
            file,
            "[[bridge]]\nname = \"B{k}\"\naddress = \"02-00-00-00-00-{tens}{ones}\""
        )?;
    }
    for k in 1..bridges {
        let next = k + 1;
        writeln!(
            file,
            "[[link]]\nname = \"L{k}\"\na = \"B{k}\"\na_port = 1\nb = \"B{next}\"\nb_port = 2"
        )?;
    }
    Ok(file)
}

#[test]
fn the_spanning_tree_reaches_twenty_links(rt: HostRuntime) -> Result<(), Fail> {
    let alloc = rt.alloc();
    let near = line_of(alloc, 21)?;
    says(&rt, alloc, &[near.as_str()], (0, ""))?;
    let far = line_of(alloc, 22)?;
    let last =
        "warning: p:67: bridge \"B22\" is more than 20 links from the root: the spanning tree never reaches it\n";
    says(&rt, alloc, &[far.as_str()], (1, last))?;
    let longest = line_of(alloc, 32)?;
    let short = "[[link]]\nname = \"S\"\na = \"B32\"\na_port = 9\nb = \"B10\"\nb_port = 9\n";
    says(&rt, alloc, &[longest.as_str(), short], (0, ""))
}
