//! Prints faults, and returns their exit statuses.

ghost use Rattle.std.specs.Prelude.{◌≡◌};
ghost use Rattle.std.specs.Process.{exit_status};

use std::fmt::Display;
use std::io::Write;
use std::process::ExitCode;

/// The exit status if the arguments of the command line are refused.
pub(crate) const WRONG_ARGUMENTS: u8 = 2;

/// The exit status after a line `fault:`.
pub(crate) const FAULT: u8 = 3;

/// Prints the line `fault: WORD` on standard output, and returns the exit status 3. If the write fails, nothing reports
/// that.
pub(crate) fn tell(rt: &impl Print, fault: impl Display + Drop) -> ExitCode
    ensures { exit_status result ≡ 3 }
{
    let _ = println!(rt; "fault: {fault}");
    ExitCode::from(FAULT)
}

/// Writes the line `fault: WORD` to the writer of the report, and returns the exit status 3. If the write fails,
/// nothing reports that.
pub(crate) fn tell_on<W: Write>(out: &mut W, fault: impl Display + Drop) -> ExitCode
    ensures { exit_status result ≡ 3 }
{
    let _ = writeln!(out, "fault: {fault}");
    ExitCode::from(FAULT)
}
