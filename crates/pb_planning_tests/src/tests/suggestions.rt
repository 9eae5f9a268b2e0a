//! Suggestions for names that a plan lacks.

use pb_converge::suggestion;
use pb_service::read_plan;
use std::test::Fail;

/// Two links between three bridges.
const PLAN: &str = "\
bridge = [\n\
  { name = \"Centre\", address = \"02-00-00-00-00-01\" },\n\
  { name = \"North\", address = \"02-00-00-00-00-02\" },\n\
  { name = \"South\", address = \"02-00-00-00-00-03\" },\n\
]\n\
link = [\n\
  { name = \"ring1\", a = \"Centre\", a_port = 1, b = \"North\", b_port = 2 },\n\
  { name = \"ring2\", a = \"North\", a_port = 1, b = \"South\", b_port = 16 },\n\
]\n\
";

/// A wrong name, and the suggestion.
type Row = (&'static str, Option<&'static str>);

/// Checks that the nearest name is suggested: links first, then bridges, then ports, at one edit before two edits.
#[test]
fn near_names_are_suggested(rt: HostRuntime) -> Result<(), Fail> {
    const ROWS: &[Row] = &[
        ("rng1", Some("ring1")),
        ("rinng2", Some("ring2")),
        ("ring9", Some("ring1")),
        ("wring2", Some("ring2")),
        ("xring22", Some("ring2")),
        ("xxring22", None),
        ("centre", Some("Centre")),
        ("Center", Some("Centre")),
        ("Forth", Some("North")),
        ("Sorth", Some("North")),
        ("Sooth", Some("South")),
        ("Centre:2", Some("Centre:1")),
        ("Centr:1", Some("Centre:1")),
        ("South:1", Some("South:16")),
        ("South:", Some("South")),
        ("South-16", Some("South:16")),
        ("East", None),
        ("", None),
    ];
    let alloc = rt.alloc();
    let Ok((plan, _ports)) = read_plan(alloc, PLAN.as_bytes()) else {
        panic!(rt; "no plan");
    };
    for (name, want) in ROWS {
        let near = suggestion(alloc, &plan, name)?;
        let text = match &near {
            Some(near) => Some(near.as_str()),
            None => None,
        };
        assert_eq!(rt; text, *want, "{name}");
    }
    Ok(())
}
