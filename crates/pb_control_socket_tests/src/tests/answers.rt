//! The replies to lines.

ghost use Rattle.pb_lan.specs.Plans.{IsSound};

use super::board::Fake;
use super::plans::{COUNTS, DROPS, HELP, NO_STATIONS, STATIONS, TREE, plan};
use pb_control_socket::{Part, Refused, Request, answer, read_request};
use pb_frame::Memory;
use pb_lan::Plan;
use std::alloc::Global;
use std::process::Abort;
use std::test::Fail;

/// The result of a line that is read, performed and replied to as expected.
const AS_WANTED: (bool, bool, bool) = (true, true, true);

/// A line, and its request, or the reason why it has none.
type Row = (&'static str, Result<Request, Refused>);

const NO_SUCH: Result<Request, Refused> = Err(Refused::NoSuch);

const BAD: Result<Request, Refused> = Err(Refused::Bad);

/// Lines with a request, and lines of that form.
const ASKING: &[Row] = &[
    ("stop", Ok(Request::Stop)),
    ("counts", Ok(Request::Counts)),
    ("tree", Ok(Request::Tree)),
    ("drops", Ok(Request::Drops)),
    ("stations west", Ok(Request::Stations { bridge: 1 })),
    ("stations east", Ok(Request::Stations { bridge: 2 })),
    ("stations north", NO_SUCH),
    ("stations West", NO_SUCH),
    ("stations L1", NO_SUCH),
    ("stations shop", NO_SUCH),
    ("stations abcdefghijklmnopqrstuvwxyz-_0189", NO_SUCH),
    ("help", Ok(Request::Help)),
    (
        "down west 2",
        Ok(Request::Set {
            bridge: 1,
            port: 2,
            up: false,
        }),
    ),
    (
        "up east 16",
        Ok(Request::Set {
            bridge: 2,
            port: 16,
            up: true,
        }),
    ),
    (
        "down west:2",
        Ok(Request::Set {
            bridge: 1,
            port: 2,
            up: false,
        }),
    ),
    (
        "up east:16",
        Ok(Request::Set {
            bridge: 2,
            port: 16,
            up: true,
        }),
    ),
    (
        "down L1",
        Ok(Request::SetPart {
            part: Part::Link(1),
            up: false,
        }),
    ),
    (
        "up west",
        Ok(Request::SetPart {
            part: Part::Bridge(1),
            up: true,
        }),
    ),
    ("down north 2", NO_SUCH),
    ("down West 2", NO_SUCH),
    ("down L1 2", NO_SUCH),
    ("down shop 1", NO_SUCH),
    ("up west 1", NO_SUCH),
    ("up west 3", NO_SUCH),
    ("up east 2", NO_SUCH),
    ("up west 16", NO_SUCH),
    ("up east 17", NO_SUCH),
    ("up west 258", NO_SUCH),
    ("up west 999", NO_SUCH),
    ("up abcdefghijklmnopqrstuvwxyz-_0189 2", NO_SUCH),
    ("down north:2", NO_SUCH),
    ("down L1:2", NO_SUCH),
    ("down west:1", NO_SUCH),
    ("up west:16", NO_SUCH),
    ("up east:17", NO_SUCH),
    ("up west:999", NO_SUCH),
    ("up abcdefghijklmnopqrstuvwxyz-_0189:2", NO_SUCH),
    ("down north", NO_SUCH),
    ("down West", NO_SUCH),
    ("down l1", NO_SUCH),
    ("down shop", NO_SUCH),
    ("up red", NO_SUCH),
    ("up 2", NO_SUCH),
    ("up abcdefghijklmnopqrstuvwxyz-_0189", NO_SUCH),
];

/// Lines without a request.
const WRONG: &[&str] = &[
    "",
    " ",
    "Stop",
    "stop ",
    " stop",
    "stop\r",
    "stop now",
    "stops",
    "count",
    "counts\r",
    "counts west",
    "trees",
    "tree\r",
    "Tree",
    "station",
    "station west",
    "stations",
    "stations ",
    "stations  west",
    "stations west ",
    "stations west\r",
    "stations west 1",
    "stations west:1",
    "stations w.st",
    "stations abcdefghijklmnopqrstuvwxyz-_01897",
    "Stations west",
    "drop",
    "drops west",
    "drops\r",
    "Help",
    "help stop",
    "-h",
    "down",
    "down ",
    "down west ",
    "down  west",
    "down west\r",
    "down L1 west",
    "down w.st",
    "down we\u{df}t",
    "down abcdefghijklmnopqrstuvwxyz-_01897",
    "down :",
    "down :2",
    "down west:",
    "down west: 2",
    "down west :2",
    "down west:0",
    "down west:02",
    "down west:2 ",
    "down west:2\r",
    "down west:2:",
    "down west:2 3",
    "down west:1000",
    "down w.st:2",
    "down abcdefghijklmnopqrstuvwxyz-_01897:2",
    "down west 0",
    "down west 02",
    "down west +2",
    "down west 2 ",
    "down west 2\r",
    "down west 2 3",
    "down west 1000",
    "down  west 2",
    "down west  2",
    "down\twest 2",
    "down w.st 2",
    "down we\u{df}t 2",
    "down abcdefghijklmnopqrstuvwxyz-_01897 2",
    "left west 2",
    "ups west 2",
    "set west 2 up",
    "\0",
];

/// Returns the reply to a line.
fn reply(read: Result<Request, Refused>) -> &'static str {
    match read {
        Ok(Request::Counts) => COUNTS,
        Ok(Request::Tree) => TREE,
        Ok(Request::Drops) => DROPS,
        Ok(Request::Stations { bridge: 1 }) => STATIONS,
        Ok(Request::Stations { .. }) => NO_STATIONS,
        Ok(Request::Help) => HELP,
        Ok(_) => "ok\n",
        Err(Refused::NoSuch) => "no such\n",
        Err(Refused::Bad) => "bad\n",
    }
}

/// The changes of the board by which both ends of the link are enabled or disabled.
fn ends(up: bool) -> [Request; 2] {
    [
        Request::Set {
            bridge: 1,
            port: 2,
            up,
        },
        Request::Set {
            bridge: 2,
            port: 16,
            up,
        },
    ]
}

/// Checks whether exactly the changes of this request were made at the board.
fn has_done(board: &Fake, read: Result<Request, Refused>) -> bool {
    match read {
        Ok(Request::Counts | Request::Tree | Request::Drops | Request::Help) | Err(_) =>
            board.has_done(&[]),
        Ok(Request::Stations { .. }) => board.has_done(&[]),
        Ok(Request::SetPart { up, .. }) => board.has_done(&ends(up)),
        Ok(request) => board.has_done(&[request]),
    }
}

/// Checks whether a line is read, performed and replied to as expected, with the reply after the text.
fn comes_of(
    alloc: Global,
    plan: &Plan,
    line: &str,
    want: Result<Request, Refused>,
) -> Result<(bool, bool, bool), Memory>
    requires { IsSound plan.now }
{
    let is_read = read_request(plan, line.as_bytes()) == want;
    let board = Fake::new(alloc);
    let mut out = String::from_str(alloc, "before ")?;
    answer(alloc, plan, &board, line.as_bytes(), &mut out)?;
    let is_answered = out.as_str().strip_prefix("before ") == Some(reply(want));
    Ok((is_read, is_answered, has_done(&board, want)))
}

/// Checks that the lines of both tables are read, performed and replied to as they say.
fn are_answered(rt: &impl Abort, alloc: Global, plan: &Plan) -> Result<(), Fail>
    requires { IsSound plan.now }
{
    for (line, want) in ASKING {
        assert_eq!(rt; comes_of(alloc, plan, line, *want)?, AS_WANTED, "{line}");
    }
    for line in WRONG {
        assert_eq!(rt; comes_of(alloc, plan, line, BAD)?, AS_WANTED, "{line}");
    }
    Ok(())
}

#[test]
fn lines_are_answered(rt: HostRuntime) -> Result<(), Fail> {
    let plan = plan(rt.alloc())?;
    are_answered(&rt, rt.alloc(), &plan)
}
