//! The pictures of traces. The hops follow from the lines that `trace` prints.

ghost use Rattle.std.specs.Prelude.{◌≡◌, ◌≢◌, IfErr, IfOk};
ghost use Rattle.std.specs.Io.KnownBytes.{Keeps};
ghost use Rattle.pb_cmd_trace.specs.Traces.{RunsIntoLimit};
ghost use Rattle.pb_trace_svg.specs.Pictures.{HasShown};

use super::{BROADCAST, REPLY, entries_of, plans, words_of};
use pb_cmd_trace::{Asked, TraceEnd};
use pb_fakes::{Full, Unflushed};
use pb_messages::CommandFault;
use pb_trace_svg::run_trace_svg;
use std::alloc::Global;
use std::io::Write;
use std::process::Abort;
use std::test::Fail;

/// Calls `run_trace_svg` with what a caller may conclude: the picture of the frames' traces in the network of the plan
/// in the file, a name that it does not have, or the rule that it breaks, and when each error comes.
fn pictured<W: Write>(
    alloc: Global,
    file: &[u8],
    asked: &Asked<'_>,
    writer: &mut W,
) -> Result<TraceEnd, CommandFault>
    ensures ok { IfOk result (λ end. HasShown file.now asked.now end (W.contents writer.old)
        (W.contents writer.new)) }
    ensures kinds { IfErr result (λ e. e ≢ CommandFault.Read) }
    ensures steps { IfErr result (λ e. e ≡ CommandFault.Steps → RunsIntoLimit file.now asked.now) }
    ensures none { IfErr result (λ e. e ≢ CommandFault.Write → Keeps (W.contents writer.old) (W.contents writer.new)) }
{
    run_trace_svg(alloc, file, asked, writer)
}

/// A plan file, the frames to inject, the names to disable, the end, and pieces of the picture, each of which it has
/// once.
type Row<'a> = (
    &'a str,
    &'a [(&'a str, &'a str)],
    &'a [&'a str],
    TraceEnd,
    &'a [&'a str],
);

/// Checks the end and the picture of a row. Without pieces nothing is written.
fn is_drawn(rt: &impl Abort, alloc: Global, number: usize, row: &Row) -> Result<(), Fail> {
    let (plan, frames, downs, end, pieces) = row;
    let entries = entries_of(alloc, frames)?;
    let words = words_of(alloc, downs)?;
    let asked = Asked {
        entries: entries.as_slice(),
        downs: words.as_slice(),
        settle: None,
    };
    let mut output = Vec::new(alloc);
    let told = pictured(alloc, plan.as_bytes(), &asked, &mut output);
    assert_eq!(rt; told, Ok(*end), "row {number}");
    let text = std::str::from_utf8(output.as_slice()).unwrap_or("");
    assert_eq!(rt; text.is_empty(), pieces.is_empty(), "row {number}");
    for piece in pieces.iter() {
        assert_eq!(rt;
            text.matches(*piece).count(),
            1usize,
            "row {number}: {piece}"
        );
    }
    Ok(())
}

/// Checks the end and the picture of each row.
fn draws(rt: &impl Abort, alloc: Global, rows: &[Row]) -> Result<(), Fail> {
    for (number, row) in rows.iter().enumerate() {
        is_drawn(rt, alloc, number, row)?;
    }
    Ok(())
}

/// Two bridges with a link that loses its second frame to B2.
const LOSING: &str = "\
bridge = [{ name = \"B1\", address = \"02-00-00-00-00-01\" }, { name = \"B2\", address = \"02-00-00-00-00-02\" }]
link = [{ name = \"L1\", a = \"B1\", a_port = 1, b = \"B2\", b_port = 1, lost_ab = [1] }]
service = [{ name = \"red\", vid = 100 }]
port = [
  { name = \"C1\", bridge = \"B1\", port = 2, service = \"red\", pcp = 3 },
  { name = \"C2\", bridge = \"B2\", port = 2, service = \"red\" },
]
";

#[test]
fn hops_are_drawn(rt: HostRuntime) -> Result<(), Fail> {
    const THERE_AND_BACK: &[&str] = &[
        "<g id=\"bridge-B1\" ",
        "<g id=\"link-L1\" ",
        "</defs>\n<path class=\"way taken\" data-hop=\"2\" d=\"M",
        "\" marker-end=\"url(#hop-ab)\"/>\n<path class=\"way taken\" data-hop=\"5\" d=\"M",
        "\" marker-start=\"url(#hop-ba)\"/>\n\
        <g id=\"hop-1\" class=\"hop in\" data-hop=\"1\" data-port=\"C1\"><path d=\"M",
        "<text>1 in</text></g></g>\n<g id=\"hop-2\" class=\"hop taken\" data-hop=\"2\" data-link=\"L1\" \
        data-to=\"B2\" data-tag=\"VID 100 PCP 0\"><g ",
        "<text text-anchor=\"middle\">2 to B2: VID 100 PCP 0</text></g></g>\n<g id=\"hop-3\" class=\"hop out\" \
        data-hop=\"3\" data-port=\"C2\"><path d=\"M",
        "<text>3 out</text></g></g>\n<g id=\"hop-4\" class=\"hop in\" data-hop=\"4\" data-port=\"C2\"><path d=\"M",
        "<text>4 in</text></g></g>\n<g id=\"hop-5\" class=\"hop taken\" data-hop=\"5\" data-link=\"L1\" \
        data-to=\"B1\" data-tag=\"VID 100 PCP 0\"><g ",
        "<text text-anchor=\"middle\">5 to B1: VID 100 PCP 0</text></g></g>\n<g id=\"hop-6\" class=\"hop out\" \
        data-hop=\"6\" data-port=\"C1\"><path d=\"M",
        "<text>6 out</text></g></g>\n<g id=\"ends-L1\" ",
    ];
    const DROPPED: &[&str] = &[
        "class=\"hop dropped\" data-hop=\"3\" data-bridge=\"B2\" data-port=\"1\"><path d=\"M",
        ">2 to B2: VID 100 PCP 3</text>",
        ">3 dropped: not-member</text></g></g>\n<g id=\"ends-L1\" ",
    ];
    const LOST: &[&str] = &[
        "class=\"hop taken\" data-hop=\"2\" ",
        "class=\"hop out\" data-hop=\"3\" ",
        "<path class=\"way lost\" data-hop=\"5\" ",
        "class=\"hop lost\" data-hop=\"5\" data-link=\"L1\" data-to=\"B2\" ",
        ">5 to B2: VID 100 PCP 3, lost</text></g></g>\n<g id=\"ends-L1\" ",
        "marker-end=\"url(#hop-ab)\"/>",
    ];
    const DOWN: &[&str] = &[
        "<g id=\"link-L1\" class=\"link failed plain\" ",
        "class=\"hop in\" data-hop=\"1\" ",
        "class=\"hop dropped\" data-hop=\"2\" data-bridge=\"B1\" data-port=\"2\"><path d=\"M",
        "<text>2 dropped: no-port</text></g></g>\n<g id=\"ends-L1\" ",
    ];
    const ROWS: &[Row] = &[
        (
            plans::TWO,
            &[("C1", BROADCAST), ("C2", REPLY)],
            &[],
            TraceEnd::Told,
            THERE_AND_BACK,
        ),
        (
            plans::UNSERVED,
            &[("C1", BROADCAST)],
            &[],
            TraceEnd::Told,
            DROPPED,
        ),
        (
            LOSING,
            &[("C1", BROADCAST), ("C1", BROADCAST)],
            &[],
            TraceEnd::Told,
            LOST,
        ),
        (
            plans::TWO,
            &[("C1", BROADCAST)],
            &["L1"],
            TraceEnd::Told,
            DOWN,
        ),
    ];
    draws(&rt, rt.alloc(), ROWS)
}

#[test]
fn each_copy_of_a_loop_is_drawn(rt: HostRuntime) -> Result<(), Fail> {
    const ROWS: &[Row] = &[
        (
            plans::RING,
            &[("C1", BROADCAST)],
            &[],
            TraceEnd::Told,
            &[
                "<g id=\"hop-1\" ",
                "<g id=\"hop-100\" ",
                "<g id=\"hop-200\" ",
            ],
        ),
        (
            plans::NARROW_RING,
            &[("C1", BROADCAST)],
            &[],
            TraceEnd::Told,
            &["<g id=\"hop-1\" "],
        ),
    ];
    draws(&rt, rt.alloc(), ROWS)
}

#[test]
fn what_is_wrong_with_a_picture_is_told(rt: HostRuntime) -> Result<(), Fail> {
    const ROWS: &[Row] = &[
        (
            "bridges = []",
            &[("C1", BROADCAST)],
            &[],
            TraceEnd::Refused,
            &["plan: 6 unknown bridges\n"],
        ),
        (
            plans::TWO,
            &[("C9", BROADCAST)],
            &[],
            TraceEnd::NoPort(0),
            &[],
        ),
        (
            plans::TWO,
            &[("C1", BROADCAST), ("C1", "f")],
            &[],
            TraceEnd::NoFrame(1),
            &[],
        ),
    ];
    draws(&rt, rt.alloc(), ROWS)
}

#[test]
fn pictures_that_cannot_be_written_are_told(rt: HostRuntime) -> Result<(), Fail> {
    let alloc = rt.alloc();
    let entries = entries_of(alloc, &[("C1", BROADCAST)])?;
    let asked = Asked {
        entries: entries.as_slice(),
        downs: &[],
        settle: None,
    };
    let plan = plans::TWO.as_bytes();
    let told = pictured(alloc, plan, &asked, &mut Full { room: 5 });
    assert_eq!(rt; told, Err(CommandFault::Write));
    let told = pictured(alloc, plan, &asked, &mut Unflushed);
    assert_eq!(rt; told, Err(CommandFault::Write));
    Ok(())
}
