//! The printed warnings about a plan file.

ghost use Rattle.std.specs.Prelude.{◌≡◌, ◌≢◌, ◌++◌, List, ℕ, string_bytes, IfOk, OnOk};
ghost use Rattle.std.specs.List.{flat_map};
ghost use Rattle.pb_lan.specs.Plans.{IsSound};
ghost use Rattle.pb_service.specs.declared.fault.PlanFault.TheVariants.{Memory as lack};
ghost use Rattle.pb_warning_lines.specs.Texts.{line_of, place, printed, AreLines, IsWarnedText};

use crate::text::put_warning;
use pb_frame::Memory;
use pb_lan::{Limits, Plan};
use pb_plan_spans::table_line;
use pb_service::{PlanFault, read_plan_file};
use pb_warnings::{Warning, warnings_of};
use std::alloc::Global;

/// Returns the line of a plan file with the header of the table that a warning is about.
fn line_of(file: &[u8], warning: Warning) -> Option<usize>
    ensures { result ≡ line_of file.now warning }
{
    match warning {
        Warning::NeverTicks => table_line(file, b"network", 0),
        Warning::Unlinked(bridge) | Warning::TooFar(bridge) => {
            table_line(file, b"bridge", (bridge as usize).saturating_sub(1))
        }
        Warning::Unequal(link) => table_line(file, b"link", (link as usize).saturating_sub(1)),
        Warning::NoPort(service) | Warning::OnePort(service) | Warning::Split(service) => {
            table_line(file, b"service", (service as usize).saturating_sub(1))
        }
    }
}

/// Appends the path of a file, and the line if there is one.
fn put_place(out: &mut String, path: &str, line: Option<usize>) -> Result<(), Memory>
    ensures { OnOk result (string_bytes out.new ≡ string_bytes out.old ++ place path.now line) }
{
    match line {
        Some(line) => write!(out, "warning: {path}:{line}: ")?,
        None => write!(out, "warning: {path}: ")?,
    }
    Ok(())
}

/// Appends the line for a warning.
fn put_line(
    out: &mut String,
    path: &str,
    file: &[u8],
    plan: &Plan,
    warning: Warning,
) -> Result<(), Memory>
    ensures { OnOk result (string_bytes out.new ≡ string_bytes out.old ++ printed path.now file.now plan.now warning) }
{
    put_place(out, path, line_of(file, warning))?;
    put_warning(out, plan, warning)?;
    out.push_str("\n")?;
    Ok(())
}

/// Appends the lines for warnings.
fn put_lines(
    out: &mut String,
    path: &str,
    file: &[u8],
    plan: &Plan,
    warnings: &[Warning],
) -> Result<(), Memory>
    ensures { OnOk result (string_bytes out.new ≡ string_bytes out.old
        ++ flat_map (printed path.now file.now plan.now) warnings.now) }
{
    for warning in warnings {
        put_line(out, path, file, plan, *warning)?;
    }
    Ok(())
}

/// Appends a line for each warning about a plan with these limits of a run, and returns their number.
///
/// # Errors
///
/// `Memory` if an allocation failed.
fn put_all(
    alloc: Global,
    out: &mut String,
    path: &str,
    file: &[u8],
    plan: &Plan,
    limits: &Limits,
) -> Result<usize, Memory>
    requires { IsSound plan.now }
    ensures { IfOk result (λ count. (text : List ℕ) × (string_bytes out.new ≡ string_bytes out.old ++ text)
        × AreLines path.now file.now plan.now limits.now text count) }
{
    let warnings = warnings_of(alloc, plan, limits)?;
    put_lines(out, path, file, plan, warnings.as_slice())?;
    Ok(warnings.len())
}

/// Checks that a file was not refused because an allocation failed.
///
/// # Errors
///
/// `Memory` if an allocation failed while the file was read.
fn check_memory(fault: &PlanFault) -> Result<(), Memory>
    ensures { OnOk result (fault.now ≢ lack) }
{
    match fault {
        PlanFault::Memory => Err(Memory),
        _ => Ok(()),
    }
}

/// Appends a line for each warning about a plan file, and returns their number.
///
/// A line is `warning: PATH:LINE: TEXT`, with the line of the file at which the table of the network, the bridge, the
/// link or the service begins. It is `warning: PATH: TEXT` if that line is uncertain, as with inline tables. Nothing is
/// appended for a file that is refused.
///
/// # Errors
///
/// `Memory` if an allocation failed.
pub fn put_warnings(
    alloc: Global,
    out: &mut String,
    path: &str,
    file: &[u8],
) -> Result<usize, Memory>
    ensures { IfOk result (λ count. (text : List ℕ) × (string_bytes out.new ≡ string_bytes out.old ++ text)
        × IsWarnedText path.now file.now text count) }
{
    match read_plan_file(alloc, file) {
        Ok(read) => put_all(alloc, out, path, file, &read.plan, &read.limits),
        Err(fault) => {
            check_memory(&fault)?;
            Ok(0)
        }
    }
}
