//! The trees of plan files.

ghost use Rattle.std.specs.Prelude.{◌≡◌, ◌≢◌, IfErr, IfOk};
ghost use Rattle.std.specs.Io.KnownBytes.{Keeps};
ghost use Rattle.pb_cmd_tree.specs.Trees.{HasTold, RunsIntoLimit};

mod drawn;

use pb_cmd_tree::{DownFault, TreeEnd, run_tree};
use pb_fakes::{Full, Unflushed};
use pb_messages::CommandFault;
use std::alloc::{AllocError, Global};
use std::io::Write;
use std::process::Abort;
use std::test::Fail;

/// A ring of three bridges with given states: L3 is Discarding at B3. L2 does not carry the service blue.
const GIVEN: &str = "\
bridge = [\n\
  { name = \"B1\", address = \"02-00-00-00-00-01\" },\n\
  { name = \"B2\", address = \"02-00-00-00-00-02\" },\n\
  { name = \"B3\", address = \"02-00-00-00-00-03\" },\n\
]\n\
link = [\n\
  { name = \"L1\", a = \"B1\", a_port = 1, b = \"B2\", b_port = 2 },\n\
  { name = \"L2\", a = \"B2\", a_port = 1, b = \"B3\", b_port = 2, a_services = [\"red\"] },\n\
  { name = \"L3\", a = \"B3\", a_port = 1, a_state = \"discarding\", b = \"B1\", b_port = 2 },\n\
]\n\
service = [{ name = \"red\", vid = 100 }, { name = \"blue\", vid = 200 }]\n\
";

/// The trees of `GIVEN`. The root of a tree is the bridge that remains when the others are removed leaf by leaf.
const GIVEN_TREES: &str = "\
bridge B1\n\
port B1 1 link L1 forwarding\n\
port B1 2 link L3 forwarding\n\
bridge B2\n\
port B2 1 link L2 forwarding\n\
port B2 2 link L1 forwarding\n\
bridge B3\n\
port B3 1 link L3 discarding\n\
port B3 2 link L2 forwarding\n\
forest yes\n\
service red bridge B1 up L1 depth 2\n\
service red bridge B2 up L2 depth 1\n\
service blue bridge B1 up L1 depth 1\n\
";

/// The trees without L1, whose end at B2 is disabled.
const LESS: &str = "\
bridge B1\n\
port B1 1 link L1 forwarding\n\
port B1 2 link L3 forwarding\n\
bridge B2\n\
port B2 1 link L2 forwarding\n\
port B2 2 link L1 discarding\n\
bridge B3\n\
port B3 1 link L3 discarding\n\
port B3 2 link L2 forwarding\n\
forest yes\n\
service red bridge B2 up L2 depth 1\n\
";

/// The trees without L1, both ends of which are disabled.
const WITHOUT_LINK: &str = "\
bridge B1\n\
port B1 1 link L1 discarding\n\
port B1 2 link L3 forwarding\n\
bridge B2\n\
port B2 1 link L2 forwarding\n\
port B2 2 link L1 discarding\n\
bridge B3\n\
port B3 1 link L3 discarding\n\
port B3 2 link L2 forwarding\n\
forest yes\n\
service red bridge B2 up L2 depth 1\n\
";

/// The trees without the links L1 and L2 of the bridge B2.
const WITHOUT_BRIDGE: &str = "\
bridge B1\n\
port B1 1 link L1 discarding\n\
port B1 2 link L3 forwarding\n\
bridge B2\n\
port B2 1 link L2 discarding\n\
port B2 2 link L1 discarding\n\
bridge B3\n\
port B3 1 link L3 discarding\n\
port B3 2 link L2 discarding\n\
forest yes\n\
";

/// A bridge B1 without a link, and a link B2 at a bridge B2.
const SAME_NAMES: &str = "\
bridge = [\n\
  { name = \"B1\", address = \"02-00-00-00-00-01\" },\n\
  { name = \"B2\", address = \"02-00-00-00-00-02\" },\n\
  { name = \"B3\", address = \"02-00-00-00-00-03\" },\n\
]\n\
link = [{ name = \"B2\", a = \"B2\", a_port = 1, b = \"B3\", b_port = 1 }]\n\
";

/// The bridges of `SAME_NAMES` without a tree, after both ends of the link B2 are disabled.
const SAME_NAMES_TREES: &str = "\
bridge B1\n\
bridge B2\n\
port B2 1 link B2 discarding\n\
bridge B3\n\
port B3 1 link B2 discarding\n\
forest yes\n\
";

/// Three links between two bridges. L1 and L3 form a loop for the service red, and L2 carries no service.
const RING: &str = "\
bridge = [{ name = \"B1\", address = \"02-00-00-00-00-01\" }, { name = \"B2\", address = \"02-00-00-00-00-02\" }]\n\
link = [\n\
  { name = \"L1\", a = \"B1\", a_port = 1, b = \"B2\", b_port = 1 },\n\
  { name = \"L2\", a = \"B1\", a_port = 2, b = \"B2\", b_port = 2, b_services = [] },\n\
  { name = \"L3\", a = \"B1\", a_port = 3, b = \"B2\", b_port = 3, b_services = [\"red\"] },\n\
]\n\
service = [{ name = \"red\", vid = 100 }, { name = \"blue\", vid = 200 }]\n\
";

const RING_TREES: &str = "\
bridge B1\n\
port B1 1 link L1 forwarding\n\
port B1 2 link L2 forwarding\n\
port B1 3 link L3 forwarding\n\
bridge B2\n\
port B2 1 link L1 forwarding\n\
port B2 2 link L2 forwarding\n\
port B2 3 link L3 forwarding\n\
forest no\n\
loop red\n\
service blue bridge B1 up L1 depth 1\n\
";

/// Returns arguments as they are on a command line.
fn words_of(alloc: Global, texts: &[&str]) -> Result<Vec<String>, AllocError> {
    let mut words = Vec::new(alloc);
    for text in texts {
        words.push(String::from_str(alloc, text)?)?;
    }
    Ok(words)
}

/// Calls `run_tree` with what a caller may conclude: the trees of the network of the plan in the file, a name that it
/// does not have, or the rule that it breaks, and when each error comes.
fn grown<W: Write>(
    alloc: Global,
    file: &[u8],
    downs: &[String],
    ticks: u32,
    writer: &mut W,
) -> Result<TreeEnd, CommandFault>
    ensures ok { IfOk result (λ end.
        HasTold file.now downs.now ticks end (W.contents writer.old) (W.contents writer.new)) }
    ensures kinds { IfErr result (λ e. e ≢ CommandFault.Read) }
    ensures steps { IfErr result (λ e. e ≡ CommandFault.Steps → RunsIntoLimit file.now downs.now ticks) }
    ensures none { IfErr result (λ e. e ≢ CommandFault.Write → Keeps (W.contents writer.old) (W.contents writer.new)) }
{
    run_tree(alloc, file, downs, ticks, writer)
}

/// A plan file, the names to disable, the most ticks, the end, and the text.
type Row<'a> = (&'a str, &'a [&'a str], u32, TreeEnd, &'a str);

/// Checks the end and the text of each row.
fn tells(rt: &impl Abort, alloc: Global, rows: &[Row]) -> Result<(), Fail> {
    for (number, (plan, downs, ticks, end, want)) in rows.iter().enumerate() {
        let words = words_of(alloc, downs)?;
        let mut output = Vec::new(alloc);
        let told = grown(
            alloc,
            plan.as_bytes(),
            words.as_slice(),
            *ticks,
            &mut output,
        );
        assert_eq!(rt; told, Ok(*end), "row {number}");
        let text = std::str::from_utf8(output.as_slice()).unwrap_or("");
        assert_eq!(rt; text, *want, "row {number}");
    }
    Ok(())
}

#[test]
fn trees_are_as_drawn(rt: HostRuntime) -> Result<(), Fail> {
    const ROWS: &[Row] = &[
        (drawn::ONE, &[], 200, TreeEnd::Told, drawn::ONE_TREES),
        (
            drawn::ONE,
            &["B2:1"],
            200,
            TreeEnd::Told,
            drawn::ONE_DOWN_TREES,
        ),
        (drawn::TWO, &[], 200, TreeEnd::Told, drawn::TWO_TREES),
        (
            drawn::TWO,
            &["B2:1"],
            200,
            TreeEnd::Told,
            drawn::TWO_DOWN_TREES,
        ),
        (
            drawn::ONE,
            &["b"],
            200,
            TreeEnd::Told,
            drawn::ONE_LINK_TREES,
        ),
        (
            drawn::ONE,
            &["B0:2", "B2:1"],
            200,
            TreeEnd::Told,
            drawn::ONE_LINK_TREES,
        ),
        (
            drawn::ONE,
            &["B1"],
            200,
            TreeEnd::Told,
            drawn::ONE_BRIDGE_TREES,
        ),
        (
            drawn::ONE,
            &["a", "c", "B1", "B1:2"],
            200,
            TreeEnd::Told,
            drawn::ONE_BRIDGE_TREES,
        ),
        (
            drawn::TWO,
            &["B2:1", "B4:1"],
            200,
            TreeEnd::Told,
            drawn::TWO_BOTH_TREES,
        ),
        (
            drawn::FIGURE_4,
            &[],
            200,
            TreeEnd::Told,
            drawn::FIGURE_4_TREES,
        ),
        (
            drawn::FIGURE_5,
            &[],
            200,
            TreeEnd::Told,
            drawn::FIGURE_5_TREES,
        ),
        (
            drawn::FIGURE_6,
            &[],
            200,
            TreeEnd::Told,
            drawn::FIGURE_6_TREES,
        ),
        (
            drawn::FIGURE_7,
            &[],
            200,
            TreeEnd::Told,
            drawn::FIGURE_7_TREES,
        ),
    ];
    tells(&rt, rt.alloc(), ROWS)
}

#[test]
fn given_trees_are_told(rt: HostRuntime) -> Result<(), Fail> {
    const ROWS: &[Row] = &[
        (GIVEN, &[], 200, TreeEnd::Told, GIVEN_TREES),
        (GIVEN, &["B2:2"], 0, TreeEnd::Told, LESS),
        (GIVEN, &["L1"], 0, TreeEnd::Told, WITHOUT_LINK),
        (GIVEN, &["B2"], 0, TreeEnd::Told, WITHOUT_BRIDGE),
        (GIVEN, &["L2", "L1"], 0, TreeEnd::Told, WITHOUT_BRIDGE),
        (
            SAME_NAMES,
            &["B1", "B3"],
            0,
            TreeEnd::Told,
            SAME_NAMES_TREES,
        ),
        (
            SAME_NAMES,
            &["B2:1", "B3:1"],
            0,
            TreeEnd::Told,
            SAME_NAMES_TREES,
        ),
        (RING, &[], 200, TreeEnd::Told, RING_TREES),
        ("", &[], 200, TreeEnd::Told, "forest yes\n"),
    ];
    tells(&rt, rt.alloc(), ROWS)
}

/// The trees before the first tick: each bridge is its own root.
const NOT_CONVERGED: &str = "\
not converged ticks 0\n\
bridge B0 root B0 cost 0\n\
port B0 1 link a designated discarding cost 200000 from B0\n\
port B0 2 link b designated discarding cost 200000 from B0\n\
bridge B1 root B1 cost 0\n\
port B1 1 link a designated discarding cost 200000 from B1\n\
port B1 2 link c designated discarding cost 200000 from B1\n\
bridge B2 root B2 cost 0\n\
port B2 1 link b designated discarding cost 200000 from B2\n\
port B2 2 link c designated discarding cost 200000 from B2\n\
forest yes\n\
";

#[test]
fn what_is_wrong_is_told(rt: HostRuntime) -> Result<(), Fail> {
    const ROWS: &[Row] = &[
        (drawn::ONE, &[], 0, TreeEnd::Told, NOT_CONVERGED),
        (
            "bridges = []",
            &[],
            200,
            TreeEnd::Refused,
            "plan: 6 unknown bridges\n",
        ),
        (
            "bridges = []",
            &["B9:1"],
            200,
            TreeEnd::Refused,
            "plan: 6 unknown bridges\n",
        ),
    ];
    tells(&rt, rt.alloc(), ROWS)
}

#[test]
fn wrong_names_are_refused(rt: HostRuntime) -> Result<(), Fail> {
    const FIRST: TreeEnd = TreeEnd::NoDown(DownFault::Unknown(0));
    const SECOND: TreeEnd = TreeEnd::NoDown(DownFault::Unknown(1));
    const ROWS: &[Row] = &[
        (drawn::ONE, &["B9:1"], 200, FIRST, ""),
        (drawn::ONE, &["B2:1", "B2:3"], 200, SECOND, ""),
        (drawn::ONE, &["B2:01"], 200, FIRST, ""),
        (drawn::ONE, &["B2:"], 200, FIRST, ""),
        (drawn::ONE, &["b2"], 200, FIRST, ""),
        (drawn::ONE, &["A"], 200, FIRST, ""),
        (drawn::ONE, &["a", "d"], 200, SECOND, ""),
        (drawn::ONE, &[""], 200, FIRST, ""),
        (GIVEN, &["red"], 0, FIRST, ""),
        (
            SAME_NAMES,
            &["B3", "B2"],
            0,
            TreeEnd::NoDown(DownFault::Ambiguous(1)),
            "",
        ),
    ];
    tells(&rt, rt.alloc(), ROWS)
}

#[test]
fn writes_that_fail_are_told(rt: HostRuntime) {
    let alloc = rt.alloc();
    let told = grown(
        alloc,
        drawn::ONE.as_bytes(),
        &[],
        200,
        &mut Full { room: 5 },
    );
    assert_eq!(rt; told, Err(CommandFault::Write));
    let told = grown(alloc, drawn::ONE.as_bytes(), &[], 200, &mut Unflushed);
    assert_eq!(rt; told, Err(CommandFault::Write));
}
