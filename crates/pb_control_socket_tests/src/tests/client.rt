//! The client of the control socket, with the replies of the socket.

ghost use Rattle.std.specs.Prelude.{◌≡◌, ◌≢◌, IfOk, IfErr, map, true, string_bytes};
ghost use Rattle.pb_cmd_control.specs.Commands.{lines_of_arguments};
ghost use Rattle.pb_cmd_control.specs.Conversations.{HasConversed, PrintsAnswers};
ghost use Rattle.pb_lan.specs.Plans.{IsSound};

use super::board::Fake;
use super::folder::{enter, leave};
use super::plans::plan;
use super::stage::PATH;
use super::talk::talks;
use mio::net::UnixStream;
use pb_cmd_control::{ControlFault, command_lines, converse};
use pb_control_socket::Control;
use pb_fakes::{Full, Slow, Unflushed};
use pb_lan::Plan;
use std::alloc::{AllocError, Global};
use std::io::{ErrorKind, Read, Write};
use std::net::Net;
use std::process::Abort;
use std::test::Fail;

/// Returns a reader of these octets, which returns one per call.
fn one_by_one(octets: &[u8]) -> Slow<'_> {
    Slow {
        rest: octets,
        most: 1,
        calls: 0,
        fails_at: u64::MAX,
        kind: ErrorKind::Other,
    }
}

/// Lines, and the exit status of a conversation in which they are sent.
type Row = (&'static str, u8);

const CONVERSATIONS: &[Row] = &[
    ("", 0),
    ("stop\n", 0),
    ("stop", 0),
    ("counts\ntree\ndrops\nhelp\nup west 2\n", 0),
    ("down L1\nup west\nup east:16\n", 0),
    ("stations west\nstop\n", 0),
    ("stations east\nstop\n", 4),
    ("stations north\nstations west\n", 4),
    ("down shop\nstop\n", 4),
    ("down west 1\n", 4),
    ("dwon west 2\nstop\n", 4),
    ("down west 2\n\nstop\n", 4),
];

/// Returns the replies to a new peer of the socket that has sent these lines.
fn heard_of(
    rt: &impl Net,
    alloc: Global,
    control: &mut Control,
    plan: &Plan,
    lines: &str,
) -> Result<Vec<u8>, Fail>
    requires { IsSound plan.now }
{
    let board = Fake::new(alloc);
    let mut stream = UnixStream::connect(rt, PATH)?;
    let mut heard = Vec::new(alloc);
    if talks(
        control,
        plan,
        &board,
        &mut stream,
        lines.as_bytes(),
        &mut heard,
    )? {
        Ok(heard)
    } else {
        Err(Fail::from("the socket does not answer"))
    }
}

/// Calls `converse`. Its contract says what a caller may take from the status and from the output.
fn conversed<I: Read, Q: Write, R: Read, W: Write>(
    alloc: Global,
    input: &mut I,
    requests: &mut Q,
    answers: &mut R,
    out: &mut W,
) -> Result<u8, ControlFault>
    ensures ok { IfOk result (λ status. HasConversed status (I.remaining input.old)
        (Q.contents requests.old) (Q.contents requests.new) (R.remaining answers.old) (R.remaining answers.new)
        (W.contents out.old) (W.contents out.new)) }
    ensures part { IfErr result (λ e.
        e ≢ ControlFault.Output → PrintsAnswers (W.contents out.old) (W.contents out.new)) }
{
    converse(alloc, input, requests, answers, out)
}

/// Calls `command_lines`. Its contract says which lines the arguments give.
fn explained(alloc: Global, arguments: &[String]) -> Result<Vec<u8>, AllocError>
    ensures { IfOk result (λ lines. lines.items ≡ lines_of_arguments true (map string_bytes arguments.now)) }
{
    command_lines(alloc, arguments)
}

/// Checks whether a conversation ends with this status, after each line was sent and each reply printed as it came.
fn ends_with(alloc: Global, lines: &str, answers: &[u8], status: u8) -> bool {
    let (mut sent, mut printed) = (Vec::new(alloc), Vec::new(alloc));
    let mut input = one_by_one(lines.as_bytes());
    let mut came = one_by_one(answers);
    let ended = conversed(alloc, &mut input, &mut sent, &mut came, &mut printed);
    ended == Ok(status)
        && sent.as_slice().starts_with(lines.as_bytes())
        && sent.len() <= lines.len() + 1
        && printed.as_slice() == answers
}

#[test]
fn each_command_gets_its_answer(rt: HostRuntime) -> Result<(), Fail> {
    enter(&rt, rt.process())?;
    let plan = plan(rt.alloc())?;
    let mut control = Control::open(&rt, rt.alloc(), PATH)?;
    for (lines, status) in CONVERSATIONS {
        let line_end = if lines.is_empty() || lines.ends_with('\n') {
            ""
        } else {
            "\n"
        };
        let whole = format!(in rt.alloc(); "{lines}{line_end}")?;
        let heard = heard_of(&rt, rt.alloc(), &mut control, &plan, whole.as_str())?;
        assert!(rt;
            ends_with(rt.alloc(), lines, heard.as_slice(), *status),
            "{lines:?}"
        );
    }
    control.close(&rt);
    Ok(leave(&rt, rt.process())?)
}

/// Checks how many octets of a long line the client sends. The reply is `bad`.
#[test]
fn of_a_long_line_one_octet_more_than_the_limit_is_sent(rt: HostRuntime) -> Result<(), Fail> {
    let line = b"a".repeat(rt.alloc(), 300)?;
    let (mut sent, mut printed) = (Vec::new(rt.alloc()), Vec::new(rt.alloc()));
    let mut input = line.as_slice();
    let mut came = one_by_one(b"bad\n");
    let ended = conversed(rt.alloc(), &mut input, &mut sent, &mut came, &mut printed);
    assert_eq!(rt; ended, Ok(4));
    assert_eq!(rt; sent.len(), 258);
    Ok(())
}

/// The replies of a conversation of two commands, its fault, and the output.
type Cut = (&'static str, ControlFault, &'static str);

const CUT_OFF: &[Cut] = &[
    ("", ControlFault::HungUp, ""),
    ("ok", ControlFault::HungUp, ""),
    ("port a entered 1 left 1\n", ControlFault::HungUp, ""),
    ("ok\nno such", ControlFault::HungUp, "ok\n"),
    ("not ok\n", ControlFault::HungUp, ""),
];

#[test]
fn a_run_that_hangs_up_is_reported(rt: HostRuntime) -> Result<(), Fail> {
    for (answers, fault, printed) in CUT_OFF {
        let (mut sent, mut out) = (Vec::new(rt.alloc()), Vec::new(rt.alloc()));
        let mut input = b"stop\nstop\n".as_slice();
        let mut came = one_by_one(answers.as_bytes());
        let ended = conversed(rt.alloc(), &mut input, &mut sent, &mut came, &mut out);
        assert!(rt; ended == Err(*fault), "{answers:?}");
        assert!(rt; out.as_slice() == printed.as_bytes(), "{answers:?}");
    }
    Ok(())
}

/// Returns the fault of a conversation over an input and an output that may fail.
fn fault_of<W: Write>(alloc: Global, fails_at: u64, requests: &mut W) -> Option<ControlFault> {
    let mut input = Slow {
        fails_at,
        ..one_by_one(b"stop\n")
    };
    let mut printed = Vec::new(alloc);
    let mut came = one_by_one(b"ok\n");
    conversed(alloc, &mut input, requests, &mut came, &mut printed).err()
}

#[test]
fn faults_name_what_failed(rt: HostRuntime) -> Result<(), Fail> {
    let mut sent = Vec::new(rt.alloc());
    assert_eq!(rt;
        fault_of(rt.alloc(), 2, &mut sent),
        Some(ControlFault::Input)
    );
    assert_eq!(rt; fault_of(rt.alloc(), u64::MAX, &mut sent), None);
    assert_eq!(rt;
        fault_of(rt.alloc(), u64::MAX, &mut Full { room: 2 }),
        Some(ControlFault::HungUp)
    );
    let mut input = b"stop\n".as_slice();
    let mut came = one_by_one(b"ok\n");
    let unprinted = conversed(rt.alloc(), &mut input, &mut sent, &mut came, &mut Unflushed);
    assert_eq!(rt; unprinted, Err(ControlFault::Output));
    Ok(())
}

/// Checks whether these arguments give these lines.
fn gives(alloc: Global, arguments: &[&str], lines: &str) -> Result<bool, AllocError> {
    let mut words = Vec::new(alloc);
    for argument in arguments {
        words.push(String::from_str(alloc, argument)?)?;
    }
    Ok(explained(alloc, words.as_slice())?.as_slice() == lines.as_bytes())
}

/// Checks that the arguments of each row give its lines.
fn all_give(rt: &impl Abort, alloc: Global, rows: &[(&[&str], &str)]) -> Result<(), Fail> {
    for (arguments, lines) in rows {
        assert!(rt; gives(alloc, arguments, lines)?, "{arguments:?}");
    }
    Ok(())
}

#[test]
fn arguments_give_a_line_for_each_command(rt: HostRuntime) -> Result<(), Fail> {
    const ROWS: &[(&[&str], &str)] = &[
        (&["stop"], "stop\n"),
        (&["down", "B1", "2"], "down B1 2\n"),
        (&["down", "B1", "2", "--", "stop"], "down B1 2\nstop\n"),
        (&["down", "L1", "--", "up", "B1:2"], "down L1\nup B1:2\n"),
        (&["counts", "--", "--"], "counts\n\n\n"),
        (&["", "a b"], " a b\n"),
    ];
    all_give(&rt, rt.alloc(), ROWS)
}
