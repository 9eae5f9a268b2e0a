//! The output of a line in a mode.

ghost use Rattle.std.specs.Prelude.{◌≡◌, ◌∷◌, [], true, string_bytes, IsErrOf, OnOk};
ghost use Rattle.pb_lan.specs.Plans.{IsSound};
ghost use Rattle.pb_cmd_step.specs.Modes.{LineAnswer, TestAnswer, noted};
ghost use Rattle.pb_cmd_step.specs.Steps.{IsAtLimit};

use crate::steps::answer_step;
use crate::testing::{Mode, TestNotes, expected_in, is_comment};
use pb_messages::CommandFault;
use pb_net::Net;
use pb_step_script::Names;
use std::alloc::Global;

/// Appends the output of one line of a test: none for a comment and for an expectation.
///
/// # Errors
///
/// The faults of [`answer_step`]. `Memory` also if an allocation for the notes failed.
fn answer_test_line(
    alloc: Global,
    limit: usize,
    number: u64,
    line: &[u8],
    names: &Names<'_>,
    net: &mut Net,
    notes: &mut TestNotes,
    out: &mut String,
) -> Result<(), CommandFault>
    requires sound { IsSound names.now.plan.now }
    requires plan { net.old.plan ≡ names.now.plan.now }
    requires kept { net.old.is_kept ≡ true }
    requires empty { string_bytes out.old ≡ [] }
    ensures plan { OnOk result (net.new.plan ≡ names.now.plan.now) }
    ensures kept { OnOk result (net.new.is_kept ≡ true) }
    ensures ok { OnOk result (TestAnswer limit number line.now (noted net.old notes.old) (noted net.new notes.new)
        (string_bytes out.new)) }
    ensures steps { IsErrOf result CommandFault.Steps → IsAtLimit limit net.old (line.now ∷ []) }
{
    if is_comment(line) {
        return Ok(());
    }
    if let Some(wanted) = expected_in(limit, line) {
        notes.compare(alloc, number, wanted)?;
        return Ok(());
    }
    answer_step(alloc, limit, number, line, names, net, out)?;
    notes.keep(alloc, number, out.as_bytes())?;
    Ok(())
}

/// Appends the output of one line in a mode.
///
/// # Errors
///
/// The faults of [`answer_step`] and [`answer_test_line`].
pub(crate) fn answer_line(
    alloc: Global,
    mode: Mode,
    limit: usize,
    number: u64,
    line: &[u8],
    names: &Names<'_>,
    net: &mut Net,
    notes: &mut TestNotes,
    out: &mut String,
) -> Result<(), CommandFault>
    requires sound { IsSound names.now.plan.now }
    requires plan { net.old.plan ≡ names.now.plan.now }
    requires kept { net.old.is_kept ≡ true }
    requires empty { string_bytes out.old ≡ [] }
    ensures plan { OnOk result (net.new.plan ≡ names.now.plan.now) }
    ensures kept { OnOk result (net.new.is_kept ≡ true) }
    ensures ok { OnOk result (LineAnswer mode limit number line.now (noted net.old notes.old)
        (noted net.new notes.new) (string_bytes out.new)) }
    ensures steps { IsErrOf result CommandFault.Steps → IsAtLimit limit net.old (line.now ∷ []) }
{
    match mode {
        Mode::Script => answer_step(alloc, limit, number, line, names, net, out),
        Mode::Test => answer_test_line(alloc, limit, number, line, names, net, notes, out),
    }
}
