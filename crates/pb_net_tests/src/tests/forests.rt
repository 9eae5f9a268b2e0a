//! Tests of forests: searches, certificates and paths.

use super::forest_networks::{Network, draft_of};
use super::plans::plan_of;
use pb_forest::{check_rooted, forest, path};
use pb_frame::Memory;
use pb_lan::{Plan, PortState, Rooted, Seq, Shape};
use std::alloc::Global;
use std::process::Abort;
use std::test::Fail;

/// Which of the ports of four bridges don't forward.
#[derive(Clone, Copy)]
enum Closed {
    Nothing,
    /// The port of this index at the bridge of this index discards.
    Port(usize, usize),
    /// The shape has no ports for the bridge of this index.
    Bridge(usize),
}

/// Returns the states of the sixteen ports of the bridge of this index.
fn states_of(alloc: Global, bridge: usize, closed: Closed) -> Result<Seq<PortState>, Memory> {
    let mut states = [PortState::Forwarding; 16];
    match closed {
        Closed::Port(at, port) if at == bridge && port < 16 => {
            states[port] = PortState::Discarding;
        }
        Closed::Bridge(at) if at == bridge => return Ok(Seq::from_vec(Vec::new(alloc))),
        _ => (),
    }
    Ok(Seq::from_vec(Vec::from_slice(alloc, &states)?))
}

fn shape_of(alloc: Global, closed: Closed) -> Result<Shape, Memory> {
    let mut states = Vec::new(alloc);
    for bridge in 0..4usize {
        states.push(states_of(alloc, bridge, closed)?)?;
    }
    Ok(Shape {
        states: Seq::from_vec(states),
    })
}

/// Lists with an entry for each bridge: the links to their parents, and their depths.
#[derive(Clone, Copy)]
struct Tree {
    up: &'static [Option<u8>],
    depth: &'static [u8],
}

fn rooted_of(alloc: Global, tree: Tree) -> Result<Rooted, Memory> {
    let up = Vec::from_slice(alloc, tree.up)?;
    let depth = Vec::from_slice(alloc, tree.depth)?;
    Ok(Rooted {
        up: Seq::from_vec(up),
        depth: Seq::from_vec(depth),
    })
}

/// Four bridges below the first.
const ROW_OF_FOUR: Tree = Tree {
    up: &[None, Some(1), Some(2), Some(3)],
    depth: &[0, 1, 2, 3],
};

/// The same links, with all other bridges right below the first.
const FLAT: Tree = Tree {
    depth: &[0, 1, 1, 1],
    ..ROW_OF_FOUR
};

/// Three bridges below the first, and one alone.
const THREE_AND_ONE: Tree = Tree {
    up: &[None, Some(1), Some(2), None],
    depth: &[0, 1, 2, 0],
};

/// Two bridges, each alone.
const TWO_ALONE: Tree = Tree {
    up: &[None, None],
    depth: &[0, 0],
};

/// The second below the first, by the first link.
const BY_THE_FIRST: Tree = Tree {
    up: &[None, Some(1)],
    depth: &[0, 1],
};

/// The second below the first, by the second link.
const BY_THE_SECOND: Tree = Tree {
    up: &[None, Some(2)],
    depth: &[0, 1],
};

/// The result of a search.
#[derive(Clone, Copy, PartialEq, Eq)]
enum Found {
    /// Parents and depths that show a forest.
    Forest,
    /// None.
    Nothing,
    /// Parents and depths that show no forest.
    Wrong,
}

/// A question about a network.
#[derive(Clone, Copy)]
enum Asked {
    /// Whether parents and depths show a forest for a service.
    Shows(u8, Tree, bool),
    /// The result of a search for a service.
    Finds(u8, Found),
    /// By parents and depths that show a forest for the first service, the links from one bridge to another.
    Goes(Tree, (u8, u8), Option<&'static [u8]>),
    /// By parents that the search finds, the links from one bridge to another.
    FindsWay((u8, u8), &'static [u8]),
}

fn found_in(alloc: Global, shape: &Shape, plan: &Plan, service: u8) -> Result<Found, Memory> {
    if plan.links.len() > 255 {
        return Ok(Found::Wrong);
    }
    let Some(rooted) = forest(alloc, shape, plan, service)? else {
        return Ok(Found::Nothing);
    };
    if check_rooted(shape, plan, service, &rooted) {
        return Ok(Found::Forest);
    }
    Ok(Found::Wrong)
}

fn shows(
    alloc: Global,
    shape: &Shape,
    plan: &Plan,
    service: u8,
    tree: Tree,
) -> Result<bool, Memory> {
    let rooted = rooted_of(alloc, tree)?;
    Ok(check_rooted(shape, plan, service, &rooted))
}

/// Two bridges, and the links from one to the other.
type Way<'a> = ((u8, u8), Option<&'a [u8]>);

/// Checks whether the path is the expected one, if parents and depths show a forest for the first service.
fn goes_so(
    alloc: Global,
    shape: &Shape,
    plan: &Plan,
    rooted: &Rooted,
    (ends, wanted): Way<'_>,
) -> Result<bool, Memory> {
    if !check_rooted(shape, plan, 1, rooted) {
        return Ok(false);
    }
    let found = path(alloc, rooted, plan, ends.0, ends.1)?;
    Ok(found.as_deref() == wanted)
}

fn goes(
    alloc: Global,
    shape: &Shape,
    plan: &Plan,
    tree: Tree,
    way: Way<'_>,
) -> Result<bool, Memory> {
    let rooted = rooted_of(alloc, tree)?;
    goes_so(alloc, shape, plan, &rooted, way)
}

/// Returns the path by the parents that the search finds.
fn found_path(
    alloc: Global,
    shape: &Shape,
    plan: &Plan,
    ends: (u8, u8),
) -> Result<Option<Vec<u8>>, Memory> {
    if plan.links.len() > 255 {
        return Ok(None);
    }
    let Some(rooted) = forest(alloc, shape, plan, 1)? else {
        return Ok(None);
    };
    path(alloc, &rooted, plan, ends.0, ends.1)
}

fn finds_way(
    alloc: Global,
    shape: &Shape,
    plan: &Plan,
    (ends, wanted): Way<'_>,
) -> Result<bool, Memory> {
    let found = found_path(alloc, shape, plan, ends)?;
    Ok(found.as_deref() == wanted)
}

/// Checks whether the result is the expected one.
fn answers(alloc: Global, shape: &Shape, plan: &Plan, asked: Asked) -> Result<bool, Memory> {
    match asked {
        Asked::Shows(service, tree, wanted) => {
            Ok(shows(alloc, shape, plan, service, tree)? == wanted)
        }
        Asked::Finds(service, wanted) => Ok(found_in(alloc, shape, plan, service)? == wanted),
        Asked::Goes(tree, ends, wanted) => goes(alloc, shape, plan, tree, (ends, wanted)),
        Asked::FindsWay(ends, wanted) => finds_way(alloc, shape, plan, (ends, Some(wanted))),
    }
}

/// A network, its blocked ports, and a question.
type Row = (Network, Closed, Asked);

fn holds(alloc: Global, row: &Row) -> Result<bool, Memory> {
    let (network, closed, asked) = *row;
    let plan = plan_of(alloc, &draft_of(network))?;
    let shape = shape_of(alloc, closed)?;
    answers(alloc, &shape, &plan, asked)
}

fn all_hold(rt: &impl Abort, alloc: Global, rows: &[Row]) -> Result<(), Fail> {
    for (number, row) in rows.iter().enumerate() {
        assert!(rt; holds(alloc, row)?, "row {number}");
    }
    Ok(())
}

/// No port is closed.
const NOTHING: Closed = Closed::Nothing;

/// The last bridge of four has no ports.
const CUT: Closed = Closed::Bridge(3);

#[test]
fn parents_and_depths_show_a_forest_or_none(rt: HostRuntime) -> Result<(), Fail> {
    const ROWS: &[Row] = &[
        (Network::Line, NOTHING, Asked::Shows(1, ROW_OF_FOUR, true)),
        (Network::Line, NOTHING, Asked::Shows(1, FLAT, false)),
        (Network::Line, CUT, Asked::Shows(1, ROW_OF_FOUR, false)),
        (Network::Line, CUT, Asked::Shows(1, THREE_AND_ONE, true)),
        (
            Network::Doubled,
            NOTHING,
            Asked::Shows(1, BY_THE_FIRST, false),
        ),
        (
            Network::Parted,
            NOTHING,
            Asked::Shows(1, BY_THE_FIRST, true),
        ),
        (
            Network::Parted,
            NOTHING,
            Asked::Shows(2, BY_THE_SECOND, true),
        ),
        (
            Network::Parted,
            NOTHING,
            Asked::Shows(2, BY_THE_FIRST, false),
        ),
        (Network::Doubled, NOTHING, Asked::Shows(3, TWO_ALONE, true)),
        (Network::Doubled, NOTHING, Asked::Shows(1, TWO_ALONE, false)),
    ];
    all_hold(&rt, rt.alloc(), ROWS)
}

/// The results of searches in networks.
const SEARCHES: &[Row] = &[
    (Network::Apart, NOTHING, Asked::Finds(1, Found::Forest)),
    (Network::Line, NOTHING, Asked::Finds(1, Found::Forest)),
    (
        Network::Line,
        Closed::Port(1, 1),
        Asked::Finds(1, Found::Forest),
    ),
    (Network::Line, NOTHING, Asked::Finds(9, Found::Forest)),
    (Network::Doubled, NOTHING, Asked::Finds(1, Found::Nothing)),
    (
        Network::Doubled,
        Closed::Port(1, 3),
        Asked::Finds(1, Found::Forest),
    ),
    (Network::Doubled, NOTHING, Asked::Finds(3, Found::Forest)),
    (Network::Parted, NOTHING, Asked::Finds(1, Found::Forest)),
    (Network::Parted, NOTHING, Asked::Finds(2, Found::Forest)),
    (Network::Ring, NOTHING, Asked::Finds(1, Found::Nothing)),
    (
        Network::Ring,
        Closed::Port(2, 1),
        Asked::Finds(1, Found::Forest),
    ),
    (
        Network::RingWithTail,
        NOTHING,
        Asked::Finds(1, Found::Nothing),
    ),
    (
        Network::RingWithTail,
        Closed::Port(2, 1),
        Asked::Finds(1, Found::Forest),
    ),
    (Network::Looped, NOTHING, Asked::Finds(1, Found::Nothing)),
    (
        Network::Looped,
        Closed::Port(0, 2),
        Asked::Finds(1, Found::Forest),
    ),
    (Network::Astray, NOTHING, Asked::Finds(1, Found::Nothing)),
    (
        Network::Astray,
        Closed::Port(3, 0),
        Asked::Finds(1, Found::Forest),
    ),
];

#[test]
fn a_forest_is_found_where_there_is_one(rt: HostRuntime) -> Result<(), Fail> {
    all_hold(&rt, rt.alloc(), SEARCHES)
}

#[test]
fn a_path_goes_along_the_line(rt: HostRuntime) -> Result<(), Fail> {
    const ROWS: &[Row] = &[
        (
            Network::Line,
            NOTHING,
            Asked::Goes(ROW_OF_FOUR, (1, 4), Some(&[1, 2, 3])),
        ),
        (
            Network::Line,
            NOTHING,
            Asked::Goes(ROW_OF_FOUR, (4, 2), Some(&[3, 2])),
        ),
        (
            Network::Line,
            NOTHING,
            Asked::Goes(ROW_OF_FOUR, (3, 3), Some(&[])),
        ),
        (
            Network::Line,
            CUT,
            Asked::Goes(THREE_AND_ONE, (1, 3), Some(&[1, 2])),
        ),
        (Network::Line, CUT, Asked::Goes(THREE_AND_ONE, (1, 4), None)),
    ];
    all_hold(&rt, rt.alloc(), ROWS)
}

#[test]
fn a_found_forest_shows_the_path(rt: HostRuntime) -> Result<(), Fail> {
    const ROWS: &[Row] = &[(Network::Line, NOTHING, Asked::FindsWay((1, 4), &[1, 2, 3]))];
    all_hold(&rt, rt.alloc(), ROWS)
}
