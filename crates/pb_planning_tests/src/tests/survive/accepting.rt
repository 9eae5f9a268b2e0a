//! Accepted disconnections.
//!
//! The groups follow from the remaining links. The numbers of ticks are those that the bridges took.

use super::counted::Counted;
use super::draft::{Draft, Stub, Wire, plan_file};
use super::{BRIDGES, LINKS, PAIRS, any, ended};
use pb_accept::{AcceptFault, Acceptance, NamedFailure, Part, read_accept_file, read_acceptances};
use pb_cmd_survive::{Asked, Kinds, Scope, run_survive};
use pb_frame::Text;
use pb_service::{PlanFault, read_plan};
use std::alloc::Global;
use std::process::Abort;
use std::test::Fail;
use std::thread::Threads;

/// A ring of three bridges, with a fourth at the link `L4` alone.
const LEAF: Draft = Draft {
    network: "spanning = \"rstp\"",
    bridges: 4,
    wires: &[
        Wire((1, 1), (2, 1), ""),
        Wire((2, 2), (3, 1), ""),
        Wire((3, 2), (1, 2), ""),
        Wire((1, 3), (4, 1), ""),
    ],
    stubs: &[
        Stub((1, 4), "red"),
        Stub((4, 4), "red"),
        Stub((2, 4), "blue"),
        Stub((3, 4), "blue"),
    ],
};

/// The same with a second link of the fourth bridge.
const TWOFOLD: Draft = Draft {
    network: "spanning = \"rstp\"",
    bridges: 4,
    wires: &[
        Wire((1, 1), (2, 1), ""),
        Wire((2, 2), (3, 1), ""),
        Wire((3, 2), (1, 2), ""),
        Wire((1, 3), (4, 1), ""),
        Wire((2, 3), (4, 2), ""),
    ],
    stubs: &[
        Stub((1, 4), "red"),
        Stub((4, 4), "red"),
        Stub((2, 4), "blue"),
        Stub((3, 4), "blue"),
    ],
};

/// A network, its acceptances and the options, with the exit status and the text.
#[derive(Drop)]
struct Row<'a> {
    draft: &'a Draft<'a>,
    accept: &'a str,
    kinds: Kinds,
    scope: Scope<'a>,
    strict: bool,
    as_tables: bool,
    all: bool,
    status: u8,
    text: &'a str,
}

/// Checks the report on a network and its exit status.
fn says<R: Abort + Threads + Sync>(rt: &R, alloc: Global, row: &Row<'_>) -> Result<(), Fail> {
    let file = plan_file(alloc, row.draft)?;
    let (plan, _ports) = read_plan(alloc, file.as_bytes()).expect(rt, "the file is read");
    let accepted = read_accept_file(alloc, &plan, row.accept.as_bytes()).expect(
        rt,
        "the file is read",
    );
    let asked = Asked {
        kinds: row.kinds,
        scope: row.scope,
        accepted: accepted.as_slice(),
        strict: row.strict,
        as_tables: row.as_tables,
        all: row.all,
        ..any()
    };
    let mut output = Vec::new(alloc);
    let progress = Counted::new();
    let result = run_survive(rt, alloc, file.as_bytes(), &asked, &progress, &mut output);
    let text = std::str::from_utf8(output.as_slice()).unwrap_or("");
    assert_eq!(rt; text, row.text);
    assert_eq!(rt; result, Ok(ended(row.status)));
    Ok(())
}

/// Returns a row for all services and single links.
fn over<'a>(draft: &'a Draft<'a>, accept: &'a str, status: u8, text: &'a str) -> Row<'a> {
    Row {
        draft,
        accept,
        kinds: LINKS,
        scope: Scope::All,
        strict: false,
        as_tables: false,
        all: false,
        status,
        text,
    }
}

/// The failure of `L4` is accepted.
const ACCEPTED: &str = "\
nothing down: converged ticks 2 forest yes\n\
\x20 service red: C1 C2\n\
\x20 service blue: C3 C4\n\
healthy with nothing down\n\
accepted link L4 down: converged ticks 2 forest yes\n\
\x20 service red: C1 | C2\n\
checked 4 links\n\
3 of 4 failures disconnect nothing\n\
converges within 3 ticks\n\
1 of 4 failures are accepted\n\
survives the failure of any one link, but for accepted disconnections\n";

/// The same with harmless failures.
const ALL: &str = "\
nothing down: converged ticks 2 forest yes\n\
\x20 service red: C1 C2\n\
\x20 service blue: C3 C4\n\
healthy with nothing down\n\
link L1 down: converged ticks 3 forest yes\n\
link L2 down: converged ticks 2 forest yes\n\
link L3 down: converged ticks 2 forest yes\n\
accepted link L4 down: converged ticks 2 forest yes\n\
\x20 service red: C1 | C2\n\
checked 4 links\n\
3 of 4 failures disconnect nothing\n\
converges within 3 ticks\n\
1 of 4 failures are accepted\n\
survives the failure of any one link, but for accepted disconnections\n";

/// The failure of `L4` is not accepted.
const HARMED: &str = "\
nothing down: converged ticks 2 forest yes\n\
\x20 service red: C1 C2\n\
\x20 service blue: C3 C4\n\
healthy with nothing down\n\
link L4 down: converged ticks 2 forest yes\n\
\x20 service red: C1 | C2\n\
checked 4 links\n\
3 of 4 failures disconnect nothing\n\
converges within 3 ticks\n\
1 of 4 failures disconnect a service\n";

/// The same, with the acceptance of another service.
const OTHER: &str = "\
nothing down: converged ticks 2 forest yes\n\
\x20 service red: C1 C2\n\
\x20 service blue: C3 C4\n\
healthy with nothing down\n\
link L4 down: converged ticks 2 forest yes\n\
\x20 service red: C1 | C2\n\
checked 4 links\n\
3 of 4 failures disconnect nothing\n\
converges within 3 ticks\n\
1 of 4 failures disconnect a service\n\
stale acceptance: link L4 service blue\n";

/// With a second link nothing is disconnected.
const STALE: &str = "\
nothing down: converged ticks 2 forest yes\n\
\x20 service red: C1 C2\n\
\x20 service blue: C3 C4\n\
healthy with nothing down\n\
checked 5 links\n\
5 of 5 failures disconnect nothing\n\
converges within 3 ticks\n\
stale acceptance: link L4\n\
untried acceptance: bridge B4 service red\n\
untried acceptance: links L4 L5\n\
survives the failure of any one link\n";

#[test]
fn an_accepted_failure_changes_no_status(rt: HostRuntime) -> Result<(), Fail> {
    let alloc = rt.alloc();
    for (accept, status, text) in [
        ("", 4, HARMED),
        ("[[accept]]\nlink = \"L4\"\n", 0, ACCEPTED),
        (
            "[[accept]]\nlink = \"L4\"\nservice = \"red\"\n",
            0,
            ACCEPTED,
        ),
        ("[[accept]]\nlink = \"L4\"\nservice = \"blue\"\n", 4, OTHER),
    ] {
        says(&rt, alloc, &over(&LEAF, accept, status, text))?;
    }
    Ok(())
}

/// Acceptances of which one is stale and two are not tried.
const UNNEEDED: &str = "[[accept]]\nlink = \"L4\"\n[[accept]]\nbridge = \"B4\"\nservice = \"red\"\n\
    [[accept]]\nlinks = [\"L5\", \"L4\"]\n";

#[test]
fn a_stale_acceptance_counts_if_strict(rt: HostRuntime) -> Result<(), Fail> {
    let alloc = rt.alloc();
    says(&rt, alloc, &over(&TWOFOLD, UNNEEDED, 0, STALE))?;
    let strict = Row {
        strict: true,
        ..over(&TWOFOLD, UNNEEDED, 4, STALE)
    };
    says(&rt, alloc, &strict)
}

/// What was found in the network with a bridge at one link, as tables.
const TABLES: &str = "\
[[accept]]\nlink = \"L4\"\nservice = \"red\"\n\n\
[[accept]]\nlinks = [\"L1\", \"L2\"]\nservice = \"blue\"\n\n\
[[accept]]\nlinks = [\"L1\", \"L4\"]\nservice = \"red\"\n\n\
[[accept]]\nlinks = [\"L2\", \"L3\"]\nservice = \"blue\"\n\n\
[[accept]]\nlinks = [\"L2\", \"L4\"]\nservice = \"red\"\n\n\
[[accept]]\nlinks = [\"L3\", \"L4\"]\nservice = \"red\"\n\n";

#[test]
fn what_was_found_is_printed_as_tables(rt: HostRuntime) -> Result<(), Fail> {
    let alloc = rt.alloc();
    let found = Row {
        kinds: PAIRS,
        as_tables: true,
        ..over(&LEAF, "", 4, TABLES)
    };
    says(&rt, alloc, &found)?;
    let accepted = Row {
        accept: TABLES,
        status: 0,
        ..found
    };
    says(&rt, alloc, &accepted)
}

#[test]
fn harmless_failures_are_listed_on_request(rt: HostRuntime) -> Result<(), Fail> {
    let all = Row {
        all: true,
        ..over(&LEAF, "[[accept]]\nlink = \"L4\"\n", 0, ALL)
    };
    says(&rt, rt.alloc(), &all)
}

/// The bridge `B1` at which `L4` ends fails.
const BRIDGE: &str = "\
nothing down: converged ticks 2 forest yes\n\
\x20 service blue: C3 C4\n\
healthy with nothing down\n\
checked 4 links, 4 bridges\n\
8 of 8 failures disconnect nothing\n\
converges within 3 ticks\n\
untried acceptance: link L4\n\
stale acceptance: bridge B4 service blue\n\
survives the failure of any one link or bridge\n";

#[test]
fn what_was_not_analysed_is_not_stale(rt: HostRuntime) -> Result<(), Fail> {
    let one = Row {
        kinds: BRIDGES,
        scope: Scope::Service("blue"),
        ..over(
            &LEAF,
            "[[accept]]\nlink = \"L4\"\n[[accept]]\nbridge = \"B4\"\nservice = \"blue\"\n",
            0,
            BRIDGE,
        )
    };
    says(&rt, rt.alloc(), &one)
}

/// Files that are refused, with the printed fault.
const REFUSED: &[(&str, &str)] = &[
    ("accept = 1", "kind accept"),
    ("accept = [1]", "kind accept"),
    ("zebra = 1\naccept = 1", "unknown zebra"),
    ("[[accept]]", "missing accept[0].link"),
    ("[[accept]]\nservice = \"red\"", "missing accept[0].link"),
    (
        "[[accept]]\nlink = \"L4\"\nbridge = \"B4\"",
        "range accept[0].bridge",
    ),
    (
        "[[accept]]\nlink = \"L4\"\nlinks = [\"L1\", \"L2\"]",
        "range accept[0].links",
    ),
    ("[[accept]]\nlink = 4", "kind accept[0].link"),
    ("[[accept]]\nlinks = [\"L1\", 2]", "kind accept[0].links"),
    ("[[accept]]\nlinks = [\"L1\"]", "range accept[0].links"),
    (
        "[[accept]]\nlinks = [\"L1\", \"L1\"]",
        "range accept[0].links",
    ),
    (
        "[[accept]]\nlink = \"L9\"\nzebra = 1",
        "unknown accept[0].zebra",
    ),
    (
        "[[accept]]\nlink = \"L4\"\n[[accept]]\nlink = \"L4\"\nservice = 1",
        "kind accept[1].service",
    ),
    ("[[accept]]\nlink = \"L9\"", "no-such L9"),
    ("[[accept]]\nbridge = \"L4\"", "no-such L4"),
    ("[[accept]]\nlinks = [\"L4\", \"L8\"]", "no-such L8"),
    (
        "[[accept]]\nlink = \"L4\"\nservice = \"green\"",
        "no-such green",
    ),
    ("[[accept", "toml"),
];

#[test]
fn a_wrong_table_is_refused(rt: HostRuntime) -> Result<(), Fail> {
    let alloc = rt.alloc();
    let file = plan_file(alloc, &LEAF)?;
    let (plan, _ports) = read_plan(alloc, file.as_bytes()).expect(&rt, "the file is read");
    for (text, wanted) in REFUSED {
        let fault = read_accept_file(alloc, &plan, text.as_bytes())
            .err()
            .expect(&rt, "the file is read");
        let said = fault.into_plan_fault();
        assert!(rt; format!(in alloc; "{said}")?.as_str() == *wanted, "{text}");
    }
    let unknown = read_accept_file(
        alloc,
        &plan,
        b"[[accept]]\nlink = \"L4\"\n[[accept]]\nlinks = [\"L1\", \"L7\"]",
    );
    let name = Text::from_string(String::from_str(alloc, "L7")?);
    assert!(rt;
        unknown
            == Err(AcceptFault::NoSuch {
                index: 1,
                part: Part::Link,
                name
            })
    );
    let utf8 = read_acceptances(alloc, &plan, b"\xff");
    assert!(rt; utf8 == Err(AcceptFault::Rule(PlanFault::Utf8)));
    Ok(())
}

#[test]
fn a_plan_file_lists_acceptances(rt: HostRuntime) -> Result<(), Fail> {
    let alloc = rt.alloc();
    let mut file = plan_file(alloc, &LEAF)?;
    file.push_str(
        "[[accept]]\nlinks = [\"L4\", \"L2\"]\nservice = \"blue\"\n[[accept]]\nbridge = \"B2\"\n",
    )?;
    let (plan, _ports) = read_plan(alloc, file.as_bytes()).expect(&rt, "the file is read");
    let listed = read_acceptances(alloc, &plan, file.as_bytes()).expect(&rt, "the file is read");
    let wanted = [
        Acceptance {
            failure: NamedFailure::Pair(2, 4),
            service: Some(2),
        },
        Acceptance {
            failure: NamedFailure::Bridge(2),
            service: None,
        },
    ];
    assert!(rt; listed.as_slice() == wanted.as_slice());
    Ok(())
}
