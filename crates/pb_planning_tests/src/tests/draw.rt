//! The pictures of plan files.

ghost use Rattle.std.specs.Prelude.{◌≡◌, ◌≢◌, ◌⊎◌, IfOk, IfErr};
ghost use Rattle.std.specs.Io.KnownBytes.{Keeps};
ghost use Rattle.pb_cmd_draw.specs.Draws.{HasWritten, RunsIntoLimit};
ghost use Rattle.pb_report.specs.Refusals.{PrintsRefusal};

mod apart;
mod lists;
mod plans;

use pb_cmd_draw::{Asked, Convergence, DownFault, DrawEnd, Format, run_draw};
use pb_fakes::{Full, Unflushed};
use pb_messages::CommandFault;
use plans::Piece;
use std::alloc::{AllocError, Global};
use std::io::Write;
use std::process::Abort;
use std::test::Fail;

/// The options: the service to highlight, the names to disable, the most ticks, and the format.
type Question = (Option<&'static str>, &'static [&'static str], u32, Format);

/// A plan file, the options, the end, and the pieces of the picture with their counts.
type Row = (&'static str, Question, DrawEnd, &'static [Piece]);

const SVG: Format = Format::Svg;

const DOT: Format = Format::Dot;

/// Returns arguments as they are on a command line.
fn words_of(alloc: Global, texts: &[&str]) -> Result<Vec<String>, AllocError> {
    let mut words = Vec::new(alloc);
    for text in texts {
        words.push(String::from_str(alloc, text)?)?;
    }
    Ok(words)
}

/// Checks that each piece is in a text as often as its count, and that the text is empty if there are no pieces.
fn has_pieces(rt: &impl Abort, number: usize, text: &str, pieces: &[Piece]) {
    assert_eq!(rt; text.is_empty(), pieces.is_empty(), "row {number}");
    for (piece, wanted) in pieces {
        let times = text.matches(*piece).count();
        assert_eq!(rt; times, *wanted, "row {number}: {piece}");
    }
}

/// Calls `run_draw` with what a caller may conclude: what is written for the plan in the file, or the rule that it
/// breaks, and when each error comes.
fn drawn<W: Write>(
    alloc: Global,
    file: &[u8],
    asked: &Asked<'_>,
    writer: &mut W,
) -> Result<DrawEnd, CommandFault>
    ensures ok { IfOk result (λ end. HasWritten file.now asked.now end (W.contents writer.old) (W.contents writer.new)
        ⊎ ((end ≡ DrawEnd.Refused) × PrintsRefusal file.now (W.contents writer.old) (W.contents writer.new))) }
    ensures kinds { IfErr result (λ e. e ≢ CommandFault.Read) }
    ensures steps { IfErr result (λ e. e ≡ CommandFault.Steps → RunsIntoLimit file.now asked.now) }
    ensures none { IfErr result (λ e. e ≢ CommandFault.Write → Keeps (W.contents writer.old) (W.contents writer.new)) }
{
    run_draw(alloc, file, asked, writer)
}

/// Checks the end and the picture of each row, with the lists of services of links or without.
fn draws(rt: &impl Abort, alloc: Global, lists: bool, rows: &[Row]) -> Result<(), Fail> {
    for (number, (plan, question, end, pieces)) in rows.iter().enumerate() {
        let (service, downs, ticks, format) = *question;
        let words = words_of(alloc, downs)?;
        let asked = Asked {
            service,
            downs: words.as_slice(),
            ticks,
            lists,
            format,
        };
        let mut output = Vec::new(alloc);
        let told = drawn(alloc, plan.as_bytes(), &asked, &mut output);
        assert_eq!(rt; told, Ok(*end), "row {number}");
        let text = std::str::from_utf8(output.as_slice()).unwrap_or("");
        has_pieces(rt, number, text, pieces);
    }
    Ok(())
}

#[test]
fn networks_are_drawn(rt: HostRuntime) -> Result<(), Fail> {
    const ROWS: &[Row] = &[
        (
            plans::GIVEN,
            (None, &[], 200, SVG),
            DrawEnd::Drawn(Convergence::Given),
            plans::GIVEN_PIECES,
        ),
        (
            plans::GIVEN,
            (Some("blue"), &[], 200, SVG),
            DrawEnd::Drawn(Convergence::Given),
            plans::BLUE_PIECES,
        ),
        (
            plans::GIVEN,
            (Some("red"), &[], 200, SVG),
            DrawEnd::Drawn(Convergence::Given),
            plans::RED_PIECES,
        ),
        (
            plans::GIVEN,
            (Some("red"), &["L2"], 200, SVG),
            DrawEnd::Drawn(Convergence::Given),
            plans::CUT_PIECES,
        ),
        (
            plans::GIVEN,
            (None, &["B2:2"], 0, SVG),
            DrawEnd::Drawn(Convergence::Given),
            plans::DOWN_PIECES,
        ),
        (
            plans::GIVEN,
            (None, &["L1"], 200, SVG),
            DrawEnd::Drawn(Convergence::Given),
            plans::LINK_PIECES,
        ),
        (
            plans::GIVEN,
            (None, &["B2"], 200, SVG),
            DrawEnd::Drawn(Convergence::Given),
            plans::BRIDGE_PIECES,
        ),
        (
            plans::SAME_NAMES,
            (None, &["B2"], 200, SVG),
            DrawEnd::Drawn(Convergence::Given),
            plans::SAME_NAMES_PIECES,
        ),
        (
            plans::GIVEN,
            (None, &[], 200, DOT),
            DrawEnd::Drawn(Convergence::Given),
            plans::DOT_PIECES,
        ),
        (
            plans::GIVEN,
            (None, &["B2"], 200, DOT),
            DrawEnd::Drawn(Convergence::Given),
            plans::DOT_DOWN_PIECES,
        ),
        (
            plans::LOOP,
            (Some("red"), &[], 200, SVG),
            DrawEnd::Drawn(Convergence::Given),
            plans::LOOP_RED_PIECES,
        ),
        (
            plans::LOOP,
            (Some("blue"), &[], 200, SVG),
            DrawEnd::Drawn(Convergence::Given),
            plans::LOOP_BLUE_PIECES,
        ),
        (
            plans::RING,
            (None, &[], 200, SVG),
            DrawEnd::Drawn(Convergence::Converged(2)),
            plans::RING_PIECES,
        ),
        (
            plans::RING,
            (None, &[], 0, SVG),
            DrawEnd::Drawn(Convergence::NotConverged(0)),
            plans::NOT_CONVERGED_PIECES,
        ),
    ];
    draws(&rt, rt.alloc(), false, ROWS)
}

#[test]
fn what_is_wrong_is_told(rt: HostRuntime) -> Result<(), Fail> {
    const NONE: &[Piece] = &[];
    const ROWS: &[Row] = &[
        (
            "bridges = []",
            (None, &[], 200, SVG),
            DrawEnd::Refused,
            &[("plan: 6 unknown bridges\n", 1)],
        ),
        (
            plans::GIVEN,
            (Some("green"), &[], 200, SVG),
            DrawEnd::NoService,
            NONE,
        ),
        (
            plans::GIVEN,
            (Some(""), &["B9:1"], 200, SVG),
            DrawEnd::NoService,
            NONE,
        ),
        (
            plans::GIVEN,
            (Some("red"), &["B2:2", "B9:1"], 200, SVG),
            DrawEnd::NoDown(DownFault::Unknown(1)),
            NONE,
        ),
        (
            plans::GIVEN,
            (None, &["B1:3"], 200, DOT),
            DrawEnd::NoDown(DownFault::Unknown(0)),
            NONE,
        ),
        (
            plans::GIVEN,
            (None, &["L1", "l1"], 200, DOT),
            DrawEnd::NoDown(DownFault::Unknown(1)),
            NONE,
        ),
        (
            plans::SAME_NAMES,
            (None, &["B1"], 200, SVG),
            DrawEnd::NoDown(DownFault::Ambiguous(0)),
            NONE,
        ),
    ];
    draws(&rt, rt.alloc(), false, ROWS)
}

#[test]
fn writes_that_fail_are_told(rt: HostRuntime) {
    let alloc = rt.alloc();
    let asked = Asked {
        service: None,
        downs: &[],
        ticks: 200,
        lists: false,
        format: Format::Svg,
    };
    let plan = plans::RING.as_bytes();
    let told = run_draw(alloc, plan, &asked, &mut Full { room: 5 });
    assert_eq!(rt; told, Err(CommandFault::Write));
    let told = run_draw(alloc, plan, &asked, &mut Unflushed);
    assert_eq!(rt; told, Err(CommandFault::Write));
}
