//! The traces of frames in plan files.

ghost use Rattle.std.specs.Prelude.{◌≡◌, ◌≢◌, IfErr, IfOk};
ghost use Rattle.std.specs.Io.KnownBytes.{Keeps};
ghost use Rattle.pb_cmd_trace.specs.Traces.{HasTold, RunsIntoLimit};

mod failures;
mod pictures;
mod plans;

use pb_cmd_trace::{Asked, Entry, TraceEnd, run_trace};
use pb_fakes::{Full, Unflushed};
use pb_messages::CommandFault;
use std::alloc::{AllocError, Global};
use std::io::Write;
use std::process::Abort;
use std::test::Fail;

/// A broadcast from the station 02-00-00-00-01-01.
const BROADCAST: &str = "ffffffffffff02000000010108004142";

/// A frame from 02-00-00-00-02-02 to that station.
const REPLY: &str = "02000000010102000000020208004344";

/// Returns the frames to inject, from their customer ports and hexadecimal digits.
fn entries_of(alloc: Global, frames: &[(&str, &str)]) -> Result<Vec<Entry>, AllocError> {
    let mut entries = Vec::new(alloc);
    for (port, hex) in frames {
        let port = String::from_str(alloc, port)?;
        let hex = String::from_str(alloc, hex)?;
        entries.push(Entry { port, hex })?;
    }
    Ok(entries)
}

/// Returns the options for these frames alone.
fn asked_of(entries: &Vec<Entry>) -> Asked<'_> {
    Asked {
        entries: entries.as_slice(),
        downs: &[],
        settle: None,
    }
}

/// Returns arguments as they are on a command line.
fn words_of(alloc: Global, texts: &[&str]) -> Result<Vec<String>, AllocError> {
    let mut words = Vec::new(alloc);
    for text in texts {
        words.push(String::from_str(alloc, text)?)?;
    }
    Ok(words)
}

/// Calls `run_trace` with what a caller may conclude: the traces of the frames in the network of the plan in the file,
/// a name that it does not have, or the rule that it breaks, and when each error comes.
fn traced<W: Write>(
    alloc: Global,
    file: &[u8],
    asked: &Asked<'_>,
    writer: &mut W,
) -> Result<TraceEnd, CommandFault>
    ensures ok { IfOk result (λ end. HasTold file.now asked.now end (W.contents writer.old)
        (W.contents writer.new)) }
    ensures kinds { IfErr result (λ e. e ≢ CommandFault.Read) }
    ensures steps { IfErr result (λ e. e ≡ CommandFault.Steps → RunsIntoLimit file.now asked.now) }
    ensures none { IfErr result (λ e. e ≢ CommandFault.Write → Keeps (W.contents writer.old) (W.contents writer.new)) }
{
    run_trace(alloc, file, asked, writer)
}

/// A plan file, the frames to inject, the most ticks if the bridges converge first, the end, and the text.
type Row<'a> = (
    &'a str,
    &'a [(&'a str, &'a str)],
    Option<u32>,
    TraceEnd,
    &'a str,
);

/// Checks the end and the text of a row, after these names are disabled.
fn is_told(
    rt: &impl Abort,
    alloc: Global,
    number: usize,
    row: &Row,
    downs: &[&str],
) -> Result<(), Fail> {
    let (plan, frames, settle, end, want) = row;
    let entries = entries_of(alloc, frames)?;
    let words = words_of(alloc, downs)?;
    let asked = Asked {
        entries: entries.as_slice(),
        downs: words.as_slice(),
        settle: *settle,
    };
    let mut output = Vec::new(alloc);
    let told = traced(alloc, plan.as_bytes(), &asked, &mut output);
    assert_eq!(rt; told, Ok(*end), "row {number}");
    let text = std::str::from_utf8(output.as_slice()).unwrap_or("");
    assert_eq!(rt; text, *want, "row {number}");
    Ok(())
}

/// Checks the end and the text of each row.
fn tells(rt: &impl Abort, alloc: Global, rows: &[Row]) -> Result<(), Fail> {
    for (number, row) in rows.iter().enumerate() {
        is_told(rt, alloc, number, row, &[])?;
    }
    Ok(())
}

/// A frame over a link, and a reply.
const THERE_AND_BACK: &str = "\
in ffffffffffff02000000010108004142: polled C1 0
  B1 2 from C1, red vid 100 priority 0, source learnt, flooded: relayed 1
    B1 1 to L1, tag 88a80064 added
    L1 ab: taken 0
    B2 1 from L1, red vid 100 priority 0, source learnt, flooded: relayed 2
      B2 2 to C2, tag removed
      C2: delivered ffffffffffff02000000010108004142
in 02000000010102000000020208004344: polled C2 0
  B2 2 from C2, red vid 100 priority 0, source learnt, known: relayed 1
    B2 1 to L1, tag 88a80064 added
    L1 ba: taken 0
    B1 1 from L1, red vid 100 priority 0, source learnt, known: relayed 2
      B1 2 to C1, tag removed
      C1: delivered 02000000010102000000020208004344
delivered at C1 C2; dropped 0; refused 0; lost 0
";

/// A priority tag is removed, and its priority counts. Then a frame to its own sender.
const PRIORITY: &str = "\
in ffffffffffff02000000010188a8a00008004142: polled C1 0
  B1 2 from C1, red vid 100 priority 5, tag 88a8a000 removed, source learnt, flooded: relayed 1
    B1 1 to L1, tag 88a8a064 added
    L1 ab: taken 0
    B2 1 from L1, red vid 100 priority 5, source learnt, flooded: relayed 2
      B2 2 to C2, tag removed
      C2: delivered ffffffffffff02000000010108004142
in 02000000010102000000010108004142: polled C1 1
  B1 2 from C1, red vid 100 priority 0, source known: dropped: no-port
delivered at C2; dropped 1; refused 0; lost 0
";

/// A tag with a VID, an address that no bridge relays, and too few octets.
const REFUSED: &str = "\
in ffffffffffff02000000010188a8006408004142: polled C1 0
  B1 2 from C1, red vid 100 priority 0: dropped: s-tagged
in 0180c200000302000000010108004142: polled C1 1
  B1 2 from C1, red vid 100 priority 0: dropped: reserved-3
in 01: polled C1 2
  B1 2 from C1, red vid 100 priority 0: dropped: malformed
not delivered; dropped 3; refused 0; lost 0
";

/// A service that the far end of the link does not serve.
const UNSERVED: &str = "\
in ffffffffffff02000000010108004142: polled C1 0
  B1 2 from C1, red vid 100 priority 3, source learnt, flooded: relayed 1
    B1 1 to L1, tag 88a86064 added
    L1 ab: taken 0
    B2 1 from L1, red vid 100 priority 3: dropped: not-member
not delivered; dropped 1; refused 0; lost 0
";

/// The second item is lost.
const LOST: &str = "\
in ffffffffffff02000000010108004142: polled sender 0
  Near 2 from sender, line vid 100 priority 0, source learnt, flooded: relayed 1
    Near 1 to fibre, tag 88a80064 added
    fibre ab: taken 0
    Far 1 from fibre, line vid 100 priority 0, source learnt, flooded: relayed 2
      Far 2 to receiver, tag removed
      receiver: delivered ffffffffffff02000000010108004142
in ffffffffffff02000000010108004142: polled sender 1
  Near 2 from sender, line vid 100 priority 0, source known, flooded: relayed 1
    Near 1 to fibre, tag 88a80064 added
    fibre ab: lost 1
delivered at receiver; dropped 0; refused 0; lost 1
";

/// Customers at one bridge: no tag, and a source that moves.
const ONE_BRIDGE: &str = "\
in ffffffffffff02000000010108004142: polled C1 0
  B1 1 from C1, red vid 100 priority 0, source learnt, flooded: relayed 2 3
    B1 2 to C2
    C2: delivered ffffffffffff02000000010108004142
    B1 3 to C3
    C3: delivered ffffffffffff02000000010108004142
in ffffffffffff02000000010108004142: polled C2 0
  B1 2 from C2, red vid 100 priority 0, source moved, flooded: relayed 1 3
    B1 1 to C1
    C1: delivered ffffffffffff02000000010108004142
    B1 3 to C3
    C3: delivered ffffffffffff02000000010108004142
delivered at C1 C2 C3; dropped 0; refused 0; lost 0
";

/// A broadcast goes both ways round the metro ring, and is dropped at the Discarding port.
const METRO: &str = "\
in ffffffffffff02000000010108000001: polled provider 0
  Centre 3 from provider, internet vid 100 priority 0, source learnt, flooded: relayed 1 2
    Centre 1 to ring1, tag 88a80064 added
    ring1 ab: taken 0
    Harbour 2 from ring1, internet vid 100 priority 0, source learnt, flooded: relayed 1
      Harbour 1 to ring2, tag 88a80064
      ring2 ab: taken 0
      Lakeside 2 from ring2, internet vid 100 priority 0, source learnt, flooded: relayed 1 3
        Lakeside 1 to ring3, tag 88a80064
        ring3 ab: taken 0
        Station 2 from ring3, internet vid 100 priority 0: dropped: not-forwarding
        Lakeside 3 to shop, tag removed
        shop: delivered ffffffffffff02000000010108000001
    Centre 2 to ring6, tag 88a80064 added
    ring6 ba: taken 0
    Campus 1 from ring6, internet vid 100 priority 0, source learnt, flooded: relayed 2
      Campus 2 to ring5, tag 88a80064
      ring5 ba: taken 0
      Airport 1 from ring5, internet vid 100 priority 0, source learnt, flooded: relayed 2 3
        Airport 2 to ring4, tag 88a80064
        ring4 ba: taken 0
        Station 1 from ring4, internet vid 100 priority 0, source learnt: dropped: no-port
        Airport 3 to hotel, tag removed
        hotel: delivered ffffffffffff02000000010108000001
delivered at shop hotel; dropped 2; refused 0; lost 0
";

/// Bridges that run the protocol converge first: the second link is Discarding at its far end.
const CONVERGED: &str = "\
converged ticks 2
in ffffffffffff02000000010108004142: polled C1 0
  B1 2 from C1, red vid 100 priority 0, source learnt, flooded: relayed 1 3
    B1 1 to L1, tag 88a80064 added
    L1 ab: taken 4
    B2 1 from L1, red vid 100 priority 0, source learnt, flooded: relayed 2
      B2 2 to C2, tag removed
      C2: delivered ffffffffffff02000000010108004142
    B1 3 to L2, tag 88a80064 added
    L2 ab: taken 4
    B2 3 from L2, red vid 100 priority 0: dropped: not-forwarding
delivered at C2; dropped 1; refused 0; lost 0
";

/// Before the first tick no port to another bridge is Forwarding.
const NOT_CONVERGED: &str = "\
in ffffffffffff02000000010108004142: polled C1 0
  B1 2 from C1, red vid 100 priority 0, source learnt: dropped: no-port
not delivered; dropped 1; refused 0; lost 0
";

#[test]
fn frames_are_told_hop_by_hop(rt: HostRuntime) -> Result<(), Fail> {
    const ROWS: &[Row] = &[
        (
            plans::TWO,
            &[("C1", BROADCAST), ("C2", REPLY)],
            None,
            TraceEnd::Told,
            THERE_AND_BACK,
        ),
        (
            plans::TWO,
            &[
                ("C1", "ffffffffffff02000000010188a8a00008004142"),
                ("C1", "02000000010102000000010108004142"),
            ],
            Some(200),
            TraceEnd::Told,
            PRIORITY,
        ),
        (
            plans::TWO,
            &[
                ("C1", "ffffffffffff02000000010188a8006408004142"),
                ("C1", "0180C200000302000000010108004142"),
                ("C1", "01"),
            ],
            None,
            TraceEnd::Told,
            REFUSED,
        ),
        (
            plans::UNSERVED,
            &[("C1", BROADCAST)],
            None,
            TraceEnd::Told,
            UNSERVED,
        ),
        (
            pb_fakes::plans::LOSSES,
            &[("sender", BROADCAST), ("sender", BROADCAST)],
            None,
            TraceEnd::Told,
            LOST,
        ),
        (
            plans::ONE_BRIDGE,
            &[("C1", BROADCAST), ("C2", BROADCAST)],
            None,
            TraceEnd::Told,
            ONE_BRIDGE,
        ),
        (
            pb_fakes::plans::METRO,
            &[("provider", "ffffffffffff02000000010108000001")],
            None,
            TraceEnd::Told,
            METRO,
        ),
        (
            pb_fakes::plans::FAILOVER,
            &[("C1", BROADCAST)],
            Some(200),
            TraceEnd::Told,
            CONVERGED,
        ),
        (
            pb_fakes::plans::FAILOVER,
            &[("C1", BROADCAST)],
            None,
            TraceEnd::Told,
            NOT_CONVERGED,
        ),
        (
            plans::TWO,
            &[],
            None,
            TraceEnd::Told,
            "not delivered; dropped 0; refused 0; lost 0\n",
        ),
    ];
    tells(&rt, rt.alloc(), ROWS)
}

#[test]
fn what_is_wrong_is_told(rt: HostRuntime) -> Result<(), Fail> {
    const ROWS: &[Row] = &[
        (
            "bridges = []",
            &[("C1", BROADCAST)],
            None,
            TraceEnd::Refused,
            "plan: 6 unknown bridges\n",
        ),
        (
            plans::TWO,
            &[("C9", BROADCAST)],
            None,
            TraceEnd::NoPort(0),
            "",
        ),
        (
            plans::TWO,
            &[("C1", BROADCAST), ("c2", REPLY)],
            None,
            TraceEnd::NoPort(1),
            "",
        ),
        (plans::TWO, &[("C1", "")], None, TraceEnd::NoFrame(0), ""),
        (
            plans::TWO,
            &[("C1", BROADCAST), ("C2", "fff")],
            None,
            TraceEnd::NoFrame(1),
            "",
        ),
        (plans::TWO, &[("C9", "0g")], None, TraceEnd::NoFrame(0), ""),
    ];
    tells(&rt, rt.alloc(), ROWS)
}

/// Returns the number of line ends in a text, and whether it ends with another text.
fn lines_and_end(text: &str, end: &str) -> (usize, bool) {
    let lines = text.bytes().filter(|octet| *octet == b'\n').count();
    (lines, text.as_bytes().ends_with(end.as_bytes()))
}

/// Checks the trace of a frame in a forwarding loop of three bridges. The frame is injected and received; then each
/// four events take it to the next bridge, and in the end two more put it onto a lane. Each third bridge is the first:
/// the frame comes back 83 times, and the queue of the customer port there holds 64 copies, or one.
#[test]
fn a_frame_that_goes_round_is_told_so(rt: HostRuntime) -> Result<(), Fail> {
    const ROUND: &str = "loops over L1 L2 L3; ended after 1000 events\n";
    let alloc = rt.alloc();
    for (plan, refused) in [(plans::RING, 19), (plans::NARROW_RING, 82)] {
        let entries = entries_of(alloc, &[("C1", BROADCAST), ("C9", BROADCAST)])?;
        let mut output = Vec::new(alloc);
        let told = traced(alloc, plan.as_bytes(), &asked_of(&entries), &mut output);
        assert_eq!(rt; told, Ok(TraceEnd::Told));
        let text = std::str::from_utf8(output.as_slice()).unwrap_or("");
        let end = format!(in alloc;
            "{ROUND}not delivered; dropped 0; refused {refused}; lost 0\n"
        )?;
        assert_eq!(rt;
            lines_and_end(text, end.as_str()),
            (2 + 249 * 3 + 2 + 2, true),
            "{text}"
        );
    }
    Ok(())
}

#[test]
fn writes_that_fail_are_told(rt: HostRuntime) -> Result<(), Fail> {
    let alloc = rt.alloc();
    let entries = entries_of(alloc, &[("C1", BROADCAST)])?;
    let file = plans::TWO.as_bytes();
    let asked = asked_of(&entries);
    let told = traced(alloc, file, &asked, &mut Full { room: 5 });
    assert_eq!(rt; told, Err(CommandFault::Write));
    let told = traced(alloc, file, &asked, &mut Unflushed);
    assert_eq!(rt; told, Err(CommandFault::Write));
    Ok(())
}
