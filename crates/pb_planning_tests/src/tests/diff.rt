//! The reports on the change from one plan to another.

ghost use Rattle.std.specs.Prelude.{◌≡◌, ◌≢◌, List, ℕ, IfErr, IfOk};
ghost use Rattle.std.specs.Io.KnownBytes.{Appends, Keeps};
ghost use Rattle.pb_cmd_diff.specs.Diffs.{IsDiffText};

mod plans;

use pb_cmd_diff::{Asked, Compared, DiffEnd, run_diff};
use pb_cmd_survive::{FailureProgress, Kinds};
use pb_messages::CommandFault;
use std::alloc::Global;
use std::io::Write;
use std::process::Abort;
use std::test::Fail;
use std::thread::Threads;

/// No progress.
#[derive(Drop)]
struct Silent;

impl FailureProgress for Silent {
    /// Does nothing.
    fn looked(&self, _failures: usize) {}

    /// Does nothing.
    fn close(&self) {}
}

/// Single links alone, and all services.
const ALL: Asked = Asked {
    kinds: Kinds {
        bridges: false,
        pairs: false,
    },
    compared: Compared::All,
    ticks: 200,
    all: false,
};

/// Single links and pairs of links.
const PAIRS: Asked = Asked {
    kinds: Kinds {
        bridges: false,
        pairs: true,
    },
    ..ALL
};

/// Single links and single bridges.
const BRIDGES: Asked = Asked {
    kinds: Kinds {
        bridges: true,
        pairs: false,
    },
    ..ALL
};

/// Calls `run_diff` with what a caller may conclude: the report on the plans in the files, or the rule that one of them
/// breaks, and when each error comes.
fn compared<R: Threads + Sync, W: Write>(
    rt: &R,
    alloc: Global,
    old_file: &[u8],
    new_file: &[u8],
    asked: &Asked<'_>,
    writer: &mut W,
) -> Result<DiffEnd, CommandFault>
    ensures ok { IfOk result (λ end. (text : List ℕ) × Appends (W.contents writer.old) (W.contents writer.new) text
        × IsDiffText old_file.now new_file.now asked.now end text) }
    ensures kinds { IfErr result (λ e. e ≢ CommandFault.Read) }
    ensures none { IfErr result (λ e. e ≢ CommandFault.Write → Keeps (W.contents writer.old) (W.contents writer.new)) }
{
    run_diff(rt, alloc, old_file, new_file, asked, &Silent, writer)
}

/// Checks the report on two plan files, and how the command ends.
fn says<R: Abort + Threads + Sync>(
    rt: &R,
    alloc: Global,
    files: (&str, &str),
    asked: &Asked<'_>,
    end: DiffEnd,
    want: &str,
) -> Result<(), Fail> {
    let mut output = Vec::new(alloc);
    let (old, new) = (files.0.as_bytes(), files.1.as_bytes());
    let result = compared(rt, alloc, old, new, asked, &mut output);
    let text = std::str::from_utf8(output.as_slice()).unwrap_or("");
    assert_eq!(rt; text, want);
    assert_eq!(rt; result, Ok(end));
    Ok(())
}

#[test]
fn equal_plans_have_no_difference(rt: HostRuntime) -> Result<(), Fail> {
    let alloc = rt.alloc();
    for file in [plans::LINE, plans::CLOSED, plans::FIXED, ""] {
        says(
            &rt,
            alloc,
            (file, file),
            &PAIRS,
            DiffEnd::Kept,
            "no difference\n",
        )?;
    }
    Ok(())
}

#[test]
fn each_failure_has_a_line_on_request(rt: HostRuntime) -> Result<(), Fail> {
    let alloc = rt.alloc();
    let all = Asked { all: true, ..ALL };
    let same = "link L1 down: no change\nlink L2 down: no change\nno difference\n";
    says(
        &rt,
        alloc,
        (plans::LINE, plans::LINE),
        &all,
        DiffEnd::Kept,
        same,
    )?;
    let files = (plans::FIXED_RING, plans::FIXED);
    says(
        &rt,
        alloc,
        files,
        &all,
        DiffEnd::Worse,
        plans::UNLOOPING_ALL,
    )
}

#[test]
fn the_order_of_parts_does_not_matter(rt: HostRuntime) -> Result<(), Fail> {
    let files = (plans::CLOSED, plans::REORDERED);
    says(
        &rt,
        rt.alloc(),
        files,
        &PAIRS,
        DiffEnd::Kept,
        "no difference\n",
    )
}

#[test]
fn a_new_link_joins_what_a_failure_disconnected(rt: HostRuntime) -> Result<(), Fail> {
    let alloc = rt.alloc();
    let files = (plans::LINE, plans::CLOSED);
    says(&rt, alloc, files, &ALL, DiffEnd::Kept, plans::CLOSING)?;
    says(
        &rt,
        alloc,
        files,
        &PAIRS,
        DiffEnd::Kept,
        plans::CLOSING_PAIRS,
    )
}

#[test]
fn a_link_that_is_removed_leaves_failures_that_part(rt: HostRuntime) -> Result<(), Fail> {
    let alloc = rt.alloc();
    let files = (plans::CLOSED, plans::LINE);
    says(&rt, alloc, files, &ALL, DiffEnd::Worse, plans::OPENING)?;
    let blue = Asked {
        compared: Compared::Service("blue"),
        ..ALL
    };
    says(&rt, alloc, files, &blue, DiffEnd::Kept, plans::OPENING_BLUE)
}

#[test]
fn what_reached_with_nothing_down_is_lost(rt: HostRuntime) -> Result<(), Fail> {
    let files = (plans::FIXED, plans::FIXED_CUT);
    says(&rt, rt.alloc(), files, &ALL, DiffEnd::Worse, plans::CUTTING)
}

#[test]
fn a_forwarding_loop_is_worse(rt: HostRuntime) -> Result<(), Fail> {
    let files = (plans::FIXED, plans::FIXED_RING);
    says(&rt, rt.alloc(), files, &ALL, DiffEnd::Worse, plans::LOOPING)
}

#[test]
fn a_forwarding_loop_that_ends_is_better(rt: HostRuntime) -> Result<(), Fail> {
    let files = (plans::FIXED_RING, plans::FIXED);
    says(
        &rt,
        rt.alloc(),
        files,
        &ALL,
        DiffEnd::Worse,
        plans::UNLOOPING,
    )
}

#[test]
fn fields_are_compared_by_name(rt: HostRuntime) -> Result<(), Fail> {
    let files = (plans::FIXED, plans::ALTERED);
    says(&rt, rt.alloc(), files, &ALL, DiffEnd::Kept, plans::ALTERING)
}

#[test]
fn a_renamed_bridge_is_removed_and_added(rt: HostRuntime) -> Result<(), Fail> {
    let files = (plans::FIXED, plans::RENAMED);
    says(
        &rt,
        rt.alloc(),
        files,
        &BRIDGES,
        DiffEnd::Kept,
        plans::RENAMING,
    )
}

#[test]
fn bridges_that_stop_converging_are_worse(rt: HostRuntime) -> Result<(), Fail> {
    let one = Asked { ticks: 1, ..ALL };
    let files = (plans::FIXED, plans::LINE);
    says(&rt, rt.alloc(), files, &one, DiffEnd::Worse, plans::UNREADY)
}

#[test]
fn a_service_that_no_plan_has_is_told(rt: HostRuntime) -> Result<(), Fail> {
    let alloc = rt.alloc();
    let green = Asked {
        compared: Compared::Service("green"),
        ..ALL
    };
    let files = (plans::LINE, plans::CLOSED);
    says(
        &rt,
        alloc,
        files,
        &green,
        DiffEnd::Lacking,
        "no such service green\n",
    )?;
    let lone = ("", "service = [{ name = 'green', vid = 9 }]");
    let added =
        "service green: added\nbetter: 0 of 0 failures; worse: 0 of 0 failures; with nothing down: no change\n";
    says(&rt, alloc, lone, &green, DiffEnd::Kept, added)
}

#[test]
fn a_file_that_is_no_plan_is_told(rt: HostRuntime) -> Result<(), Fail> {
    let alloc = rt.alloc();
    let refusal = "plan: 2 toml\n";
    says(
        &rt,
        alloc,
        ("x", plans::LINE),
        &ALL,
        DiffEnd::OldRefused,
        refusal,
    )?;
    says(
        &rt,
        alloc,
        (plans::LINE, "x"),
        &ALL,
        DiffEnd::NewRefused,
        refusal,
    )?;
    says(
        &rt,
        alloc,
        ("x", "y = "),
        &ALL,
        DiffEnd::OldRefused,
        refusal,
    )
}
