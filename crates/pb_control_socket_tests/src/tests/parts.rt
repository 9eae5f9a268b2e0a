//! Lines that name links and bridges, and the ports that are set for them.

ghost use Rattle.pb_lan.specs.Plans.{IsSound};

use super::board::Fake;
use super::plans::plan_with_parts;
use pb_control_socket::{Request, answer};
use pb_frame::Memory;
use pb_lan::Plan;
use std::alloc::Global;
use std::process::Abort;
use std::test::Fail;

/// A line, its reply, and the ports that it sets: each with its bridge and whether it is enabled, in this order.
type Row = (&'static str, &'static str, &'static [(u8, u8, bool)]);

const ROWS: &[Row] = &[
    ("down spoke", "ok\n", &[(1, 1, false), (2, 1, false)]),
    ("up chord", "ok\n", &[(2, 2, true), (3, 1, true)]),
    (
        "down rim",
        "ok\n",
        &[(1, 1, false), (2, 1, false), (2, 2, false), (3, 1, false)],
    ),
    (
        "up hub",
        "ok\n",
        &[(1, 1, true), (2, 1, true), (1, 2, true), (3, 2, true)],
    ),
    ("down alone", "ok\n", &[]),
    ("down far", "no such\n", &[]),
    ("down far:2", "ok\n", &[(3, 2, false)]),
    ("up far 1", "ok\n", &[(3, 1, true)]),
    ("down hub:3", "no such\n", &[]),
    ("down alone:1", "no such\n", &[]),
    ("down spoke:1", "no such\n", &[]),
    ("down red", "no such\n", &[]),
    ("down spoke chord", "bad\n", &[]),
];

/// Returns the requests that set these ports.
fn requests_of(alloc: Global, ports: &[(u8, u8, bool)]) -> Result<Vec<Request>, Memory> {
    let mut requests = Vec::new(alloc);
    for (bridge, port, up) in ports {
        requests.push(Request::Set {
            bridge: *bridge,
            port: *port,
            up: *up,
        })?;
    }
    Ok(requests)
}

/// Checks whether a line gets this reply, and exactly these ports are set.
fn sets(alloc: Global, plan: &Plan, row: &Row) -> Result<bool, Memory>
    requires { IsSound plan.now }
{
    let (line, reply, ports) = *row;
    let board = Fake::new(alloc);
    let mut out = String::new(alloc);
    answer(alloc, plan, &board, line.as_bytes(), &mut out)?;
    let requests = requests_of(alloc, ports)?;
    Ok(out.as_str() == reply && board.has_done(requests.as_slice()))
}

/// Checks that each line gets its reply and sets its ports.
fn all_set(rt: &impl Abort, alloc: Global, plan: &Plan) -> Result<(), Fail>
    requires { IsSound plan.now }
{
    for row in ROWS {
        assert!(rt; sets(alloc, plan, row)?, "{}", row.0);
    }
    Ok(())
}

#[test]
fn names_set_the_ports_of_their_links(rt: HostRuntime) -> Result<(), Fail> {
    let plan = plan_with_parts(rt.alloc())?;
    all_set(&rt, rt.alloc(), &plan)
}
